ghost use Rattle.std.specs.Prelude.{◌≡◌, ◌≢◌, ◌+◌, ◌^◌, ◌<◌, ◌≤◌, ℕ, List, None, Err, length, OnOk, IfOk, IfErr, IsErrOf, is_some};
ghost use Rattle.std.specs.Option.{ForSome};
ghost use Rattle.outer_io.specs.Causes.{Rose};
ghost use Rattle.outer_disk.specs.Disk.{Only, IsSynced, LeavesOnly, RoseBy};
ghost use Rattle.plain_orders.specs.declared.entry.Entry.{Entry};
ghost use Rattle.plain_orders.specs.Ordered.{IsOrdered};
ghost use Rattle.journal_disk.specs.Stands.{Stands, StandsAs, AreLow, HasBadGate};
ghost use Rattle.journal_disk.specs.Reading.{IsRead};
ghost use Rattle.journal_disk.specs.Settled.{IsSettled};
ghost use Rattle.journal_disk.specs.Moments.{IsKept};

use crate::disk_reader::read_all;
use crate::gate_writer::{cut_behind, put_gate};
use crate::journal_error::JournalError;
use crate::journal_reader::{ReadJournal, read_journal};
use outer_disk::Disk;
use outer_io::Stop;
use std::alloc::Global;

/// Leaves the batches that were read and a closed gate behind them on the disk, and nothing else. After an
/// `Err` it stands for the same entries.
fn repair<D: Disk>(disk: &mut D, size: u64, gate: u64) -> Result<(), Stop>
    requires number { gate + 1 < 2 ^ 64 }
    requires within { ForSome (D.told disk.old) (λ bytes. size ≡ length bytes) }
    requires read { ForSome (D.told disk.old) (λ bytes. (list : List Entry) × IsRead bytes list gate) }
    ensures settled { OnOk result ((list : List Entry)
        → ForSome (D.told disk.old) (λ bytes. IsRead bytes list gate)
        → IsSettled (D.told disk.new) (D.may_leave disk.new) gate list) }
    ensures read { ForSome (D.told disk.old) (λ old. ForSome (D.told disk.new) (λ new.
        (list : List Entry) → IsRead old list gate → Stands new list)) }
    ensures any_moment { ForSome (D.told disk.old) (λ old. Only old (D.may_leave disk.old)
        → (list : List Entry) → IsRead old list gate
        → LeavesOnly D.moment D.left_since disk.old disk.new (λ c. Stands c list)) }
    ensures telling { is_some (D.told disk.new) ≡ is_some (D.told disk.old) }
    ensures faults { (D.counts disk.old).faults ≤ (D.counts disk.new).faults }
    ensures failed { IfErr result (λ stop. stop ≡ Stop.Failed
        → Rose (D.counts disk.old).faults (D.counts disk.new).faults) }
    ensures few { (D.counts disk.new).calls ≤ (D.counts disk.old).calls + 3 }
{
    if size < 2 {
        put_gate(disk, size)
    } else {
        cut_behind(disk, gate)
    }
}

/// Reads a journal from a synced disk, and repairs its end. After an `Err` the disk stands for what it stood for.
pub(crate) fn recover<D: Disk>(alloc: Global, disk: &mut D) -> Result<ReadJournal, JournalError>
    requires synced { IsSynced (D.told disk.old) (D.may_leave disk.old) }
    ensures stood { IfOk result (λ got. ForSome (D.told disk.old) (λ bytes. Stands bytes got.entries)) }
    ensures settled { IfOk result (λ got.
        IsSettled (D.told disk.new) (D.may_leave disk.new) got.gate got.entries) }
    ensures ordered { IfOk result (λ got. IsOrdered got.entries) }
    ensures low { IfOk result (λ got. AreLow got.entries) }
    ensures read { ForSome (D.told disk.old) (λ old. ForSome (D.told disk.new) (StandsAs old)) }
    ensures any_moment { ForSome (D.told disk.old) (λ old.
        LeavesOnly D.moment D.left_since disk.old disk.new (StandsAs old)) }
    ensures kept { ForSome (D.told disk.old) (λ old. (place : ℕ) → HasBadGate old place
        → IsKept D.moment D.left_since D.may_leave D.told disk.old disk.new) }
    ensures telling { is_some (D.told disk.new) ≡ is_some (D.told disk.old) }
    ensures faults { (D.counts disk.old).faults ≤ (D.counts disk.new).faults }
    ensures disk { IsErrOf result JournalError.Disk
        → Rose (D.counts disk.old).faults (D.counts disk.new).faults }
    ensures not_a_journal { (place : ℕ) → result ≡ Err (JournalError.NotAJournal place)
        → ForSome (D.told disk.old) (λ bytes. HasBadGate bytes place) }
    ensures needs_start { result ≢ Err JournalError.NeedsStart }
    ensures few { (D.counts disk.new).calls ≤ (D.counts disk.old).calls + 5 }
{
    let bytes = read_all(alloc, disk)?;
    let read = read_journal(alloc, &bytes)?;
    repair(disk, bytes.len() as u64, read.gate)?;
    Ok(read)
}
