ghost use Rattle.std.specs.Prelude.{◌≡◌, ◌++◌, OnOk, OnErr};
ghost use Rattle.field_bytes.specs.Fields.{BeginsAs};
ghost use Rattle.ecp_messages.specs.Ups.{up_frame_bytes, IsUpFrame};

use crate::up::UpFrame;
use crate::up_putter::put_up;
use field_bytes::put_u64;
use std::alloc::AllocError;

/// Appends a frame. Out of memory, what was held stays in front.
#[tactic(auto, unfolding(crate::specs::Rows::head_bytes))]
fn put_up_frame(frame: &UpFrame, to: &mut Vec<u8>) -> Result<(), AllocError>
    requires { IsUpFrame frame.now }
    ensures ok { OnOk result (to.new.items ≡ to.old.items ++ up_frame_bytes frame.now) }
    ensures err { OnErr result (BeginsAs to.old.items to.new.items) }
{
    put_u64(to, frame.seq)?;
    put_u64(to, frame.ack)?;
    put_up(to, &frame.message)
}

/// Appends the bytes of a frame; unchanged when out of memory.
pub fn encode_up(frame: &UpFrame, to: &mut Vec<u8>) -> Result<(), AllocError>
    requires { IsUpFrame frame.now }
    ensures ok { OnOk result (to.new.items ≡ to.old.items ++ up_frame_bytes frame.now) }
    ensures err { OnErr result (to.new.items ≡ to.old.items) }
{
    let length = to.len();
    let written = put_up_frame(frame, to);
    if written.is_err() {
        to.truncate(length);
    }
    written
}
