ghost use Rattle.std.specs.Prelude.{◌≡◌, ◌+◌, ◌≤◌, length, IfOk, IfErr};
ghost use Rattle.std.specs.Option.{ForSome};
ghost use Rattle.outer_io.specs.Causes.{Rose};
ghost use Rattle.outer_disk.specs.Disk.{LeavesNoMore, LeavesOnly, RoseBy};

use outer_disk::Disk;
use outer_io::{Failed, Stop};
use std::alloc::Global;

/// Zeros, as many as a disk has bytes.
fn zeros(alloc: Global, count: u64) -> Result<Vec<u8>, Stop>
    ensures length { IfOk result (λ bytes. length bytes.items ≡ count) }
    ensures memory { IfErr result (λ stop. stop ≡ Stop.Memory) }
{
    match vec![in alloc; 0u8; count as usize] {
        Ok(bytes) => Ok(bytes),
        Err(_) => Err(Stop::Memory),
    }
}

/// All bytes of a disk, in one read. It changes nothing.
pub(crate) fn read_all<D: Disk>(alloc: Global, disk: &mut D) -> Result<Vec<u8>, Stop>
    ensures bytes { IfOk result (λ bytes. ForSome (D.told disk.old) (λ told. bytes.items ≡ told)) }
    ensures same { D.told disk.new ≡ D.told disk.old }
    ensures crash { LeavesNoMore (D.may_leave disk.old) (D.may_leave disk.new) }
    ensures any_moment { LeavesOnly D.moment D.left_since disk.old disk.new (D.may_leave disk.old) }
    ensures faults { (D.counts disk.old).faults ≤ (D.counts disk.new).faults }
    ensures failed { IfErr result (λ stop. stop ≡ Stop.Failed
        → Rose (D.counts disk.old).faults (D.counts disk.new).faults) }
    ensures few { (D.counts disk.new).calls ≤ (D.counts disk.old).calls + 2 }
{
    let length = match disk.len() {
        Ok(length) => length,
        Err(Failed) => return Err(Stop::Failed),
    };
    let mut bytes = zeros(alloc, length)?;
    if bytes.is_empty() {
        return Ok(bytes);
    }
    match disk.read(0, &mut bytes) {
        Ok(()) => Ok(bytes),
        Err(Failed) => Err(Stop::Failed),
    }
}
