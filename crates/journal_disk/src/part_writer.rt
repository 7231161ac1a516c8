ghost use Rattle.std.specs.Prelude.{◌≡◌, ◌+◌, ◌*◌, ◌<◌, ◌≤◌, ◌^◌, ◌++◌, [], List, None, length, OnOk, IfOk, IfErr, is_some};
ghost use Rattle.std.specs.Option.{ForSome};
ghost use Rattle.outer_io.specs.Causes.{Rose};
ghost use Rattle.outer_disk.specs.Disk.{RoseBy};
ghost use Rattle.plain_orders.specs.declared.entry.Entry.{Entry};
ghost use Rattle.plain_orders.specs.Ordered.{IsOrdered};
ghost use Rattle.journal_disk.specs.Moments.{AppendsWhole};
ghost use Rattle.journal_disk.specs.Settled.{IsSettled};
ghost use Rattle.journal_disk.specs.Staged.{IsStaged};

use crate::batch_writer::StagedBatches;
use crate::gate_writer::write_batch;
use outer_disk::Disk;
use outer_io::Stop;

/// Writes batches behind the closed gate, each with four device calls, and answers where the new closed gate
/// stands. After an `Err` some of them count, from the front, each whole.
pub(crate) fn write_batches<D: Disk>(
    disk: &mut D,
    gate: u64,
    staged: &StagedBatches,
) -> Result<u64, Stop>
    requires room { gate + 1 + length staged.now.bytes.items < 2 ^ 64 }
    requires staged { (part : List Entry)
        × IsStaged part staged.now.bytes.items staged.now.sizes.items }
    requires within { ForSome (D.told disk.old) (λ bytes. length bytes ≡ gate + 1) }
    ensures ok { IfOk result (λ end. (list part : List Entry)
        → IsSettled (D.told disk.old) (D.may_leave disk.old) gate list
        → IsOrdered (list ++ part) → IsStaged part staged.now.bytes.items staged.now.sizes.items
        → IsSettled (D.told disk.new) (D.may_leave disk.new) end (list ++ part)) }
    ensures any_moment { (list part : List Entry)
        → IsSettled (D.told disk.old) (D.may_leave disk.old) gate list
        → IsOrdered (list ++ part) → IsStaged part staged.now.bytes.items staged.now.sizes.items
        → ForSome (D.told disk.old) (λ bytes.
        AppendsWhole D.moment D.left_since D.told disk.old disk.new list part) }
    ensures none { staged.now.sizes.items ≡ [] → disk.new ≡ disk.old }
    ensures telling { is_some (D.told disk.new) ≡ is_some (D.told disk.old) }
    ensures faults { (D.counts disk.old).faults ≤ (D.counts disk.new).faults }
    ensures failed { IfErr result (λ stop. stop ≡ Stop.Failed
        → Rose (D.counts disk.old).faults (D.counts disk.new).faults) }
    ensures calls { OnOk result (RoseBy (4 * length staged.now.sizes.items)
        (D.counts disk.old).calls (D.counts disk.new).calls) }
    ensures few { (D.counts disk.new).calls
        ≤ (D.counts disk.old).calls + 4 * length staged.now.sizes.items }
    ensures out_of_memory { IfErr result (λ stop. stop ≡ Stop.Memory
        → Rose (D.counts disk.old).out_of_memory (D.counts disk.new).out_of_memory) }
{
    let mut gate = gate;
    let mut rest = staged.bytes.as_slice();
    for size in &staged.sizes {
        let (batch, after) = rest.split_at(*size);
        write_batch(disk, gate, batch)?;
        gate += *size as u64;
        rest = after;
    }
    Ok(gate)
}
