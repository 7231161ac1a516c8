ghost use Rattle.std.specs.Prelude.{◌≡◌, ◌⊎◌, ◌≤◌, IfErr, OnOk};
ghost use Rattle.std.specs.Io.KnownBytes.{Appends};
ghost use Rattle.outer_io.specs.Told.{sink_told, HoldsFrontOf, SinkStopped};

use outer_io::{Sink, Stop};

/// Puts all the bytes, in as many pieces as the sink takes. Where it stops the sink has taken some of them from
/// the front. A sink that takes nothing of a piece has failed too.
pub fn put_all<K: Sink>(out: &mut K, bytes: &[u8]) -> Result<(), Stop>
    ensures ok { OnOk result (Appends (K.held out.old) (K.held out.new) bytes.now) }
    ensures front { HoldsFrontOf (sink_told K.held K.faults K.refusals out.old out.new) bytes.now }
    ensures faults { K.faults out.old ≤ K.faults out.new }
    ensures refusals { K.refusals out.old ≤ K.refusals out.new }
    ensures stopped { IfErr result (λ stop. stop ≡ Stop.Failed →
        SinkStopped (sink_told K.held K.faults K.refusals out.old out.new)) }
{
    let mut done = 0;
    while done < bytes.len() {
        let (_, rest) = bytes.split_at(done);
        let count = out.put(rest)?;
        if count == 0 {
            return Err(Stop::Failed);
        }
        done += count;
    }
    Ok(())
}
