ghost use Rattle.std.specs.Prelude.{◌≡◌, ◌+◌, ◌<◌, ◌≤◌, ◌^◌, ◌++◌, ◌∷◌, [], Some, None, length, take, OnOk, IfErr, is_some};
ghost use Rattle.std.specs.Option.{ForSome};
ghost use Rattle.outer_io.specs.Causes.{Rose};
ghost use Rattle.outer_disk.specs.Disk.{Cut, Only, LeavesOnly, RoseBy};
ghost use Rattle.journal_disk.specs.Writing.{IsShort, HasGateOrBatch};

use crate::gates::{CLOSED, OPEN};
use outer_disk::Disk;
use outer_io::Stop;

/// Cuts a journal behind its closed gate. After an `Err` some of what stood there may be left.
#[tactic(auto, using(crate::proofs::Moments::matched_telling, crate::proofs::Moments::mapped_telling))]
pub(crate) fn cut_behind<D: Disk>(disk: &mut D, gate: u64) -> Result<(), Stop>
    requires number { gate + 1 < 2 ^ 64 }
    requires within { ForSome (D.told disk.old) (λ bytes. gate + 1 ≤ length bytes) }
    ensures ok { OnOk result (ForSome (D.told disk.old) (λ bytes.
        (D.told disk.new ≡ Some (take (gate + 1) bytes))
        × Only (take (gate + 1) bytes) (D.may_leave disk.new))) }
    ensures read { ForSome (D.told disk.old) (λ old. ForSome (D.told disk.new) (Cut (gate + 1) old)) }
    ensures any_moment { ForSome (D.told disk.old) (λ old. Only old (D.may_leave disk.old)
        → LeavesOnly D.moment D.left_since disk.old disk.new (Cut (gate + 1) old)) }
    ensures telling { is_some (D.told disk.new) ≡ is_some (D.told disk.old) }
    ensures faults { (D.counts disk.old).faults ≤ (D.counts disk.new).faults }
    ensures failed { IfErr result (λ stop. stop ≡ Stop.Failed
        → Rose (D.counts disk.old).faults (D.counts disk.new).faults) }
    ensures few { (D.counts disk.new).calls ≤ (D.counts disk.old).calls + 2 }
{
    disk.cut(gate + 1)?;
    disk.sync()
}

/// Puts a closed gate on a disk that has at most one byte. After an `Err` it still has at most one.
#[tactic(auto, using(crate::proofs::Moments::matched_telling, crate::proofs::Moments::mapped_telling))]
pub(crate) fn put_gate<D: Disk>(disk: &mut D, size: u64) -> Result<(), Stop>
    requires within { ForSome (D.told disk.old) (λ bytes. (size ≡ length bytes) × IsShort bytes) }
    ensures ok { OnOk result (ForSome (D.told disk.old) (λ bytes.
        (D.told disk.new ≡ Some (0 ∷ [])) × Only (0 ∷ []) (D.may_leave disk.new))) }
    ensures read { ForSome (D.told disk.old) (λ old. ForSome (D.told disk.new) IsShort) }
    ensures any_moment { ForSome (D.told disk.old) (λ old. Only old (D.may_leave disk.old)
        → LeavesOnly D.moment D.left_since disk.old disk.new IsShort) }
    ensures telling { is_some (D.told disk.new) ≡ is_some (D.told disk.old) }
    ensures faults { (D.counts disk.old).faults ≤ (D.counts disk.new).faults }
    ensures failed { IfErr result (λ stop. stop ≡ Stop.Failed
        → Rose (D.counts disk.old).faults (D.counts disk.new).faults) }
    ensures few { (D.counts disk.new).calls ≤ (D.counts disk.old).calls + 3 }
{
    disk.cut(size)?;
    disk.write_at(0, &[CLOSED])?;
    disk.sync()
}

/// Writes a batch and the closed gate behind it, and opens the gate in front once they are on the disk. After
/// an `Err` that gate may be open or closed, and the batch counts as a whole or not at all.
#[tactic(auto, using(crate::proofs::Moments::matched_telling, crate::proofs::Moments::mapped_telling))]
pub(crate) fn write_batch<D: Disk>(disk: &mut D, gate: u64, batch: &[u8]) -> Result<(), Stop>
    requires some { 0 < length batch.now }
    requires number { gate + 1 < 2 ^ 64 }
    requires within { ForSome (D.told disk.old) (λ bytes. length bytes ≡ gate + 1) }
    ensures ok { OnOk result (ForSome (D.told disk.old) (λ bytes.
        let opened = take gate bytes ++ 1 ∷ batch.now in
        (D.told disk.new ≡ Some opened) × Only opened (D.may_leave disk.new))) }
    ensures read { ForSome (D.told disk.old) (λ old.
        ForSome (D.told disk.new) (HasGateOrBatch gate old batch.now)) }
    ensures any_moment { ForSome (D.told disk.old) (λ old. Only old (D.may_leave disk.old)
        → LeavesOnly D.moment D.left_since disk.old disk.new (HasGateOrBatch gate old batch.now)) }
    ensures telling { is_some (D.told disk.new) ≡ is_some (D.told disk.old) }
    ensures faults { (D.counts disk.old).faults ≤ (D.counts disk.new).faults }
    ensures failed { IfErr result (λ stop. stop ≡ Stop.Failed
        → Rose (D.counts disk.old).faults (D.counts disk.new).faults) }
    ensures calls { OnOk result (RoseBy 4 (D.counts disk.old).calls (D.counts disk.new).calls) }
    ensures few { (D.counts disk.new).calls ≤ (D.counts disk.old).calls + 4 }
    ensures memory { (D.counts disk.old).out_of_memory ≤ (D.counts disk.new).out_of_memory }
    ensures out_of_memory { IfErr result (λ stop. stop ≡ Stop.Memory
        → Rose (D.counts disk.old).out_of_memory (D.counts disk.new).out_of_memory) }
{
    disk.write_at(gate + 1, batch)?;
    disk.sync()?;
    disk.write_at(gate, &[OPEN])?;
    disk.sync()
}
