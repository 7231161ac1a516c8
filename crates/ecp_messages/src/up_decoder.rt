ghost use Rattle.std.specs.Prelude.{◌≡◌, ◌≢◌, ◌↔◌, Ok, Err, IfOk, alloc_error};
ghost use Rattle.ecp_messages.specs.declared.up.UpFrame.{UpFrame};
ghost use Rattle.ecp_messages.specs.Readings.{HasBadField, HasMore, DecodesTo};
ghost use Rattle.ecp_messages.specs.Taking.{HasUnknownKind};
ghost use Rattle.ecp_messages.specs.Ups.{up_frame_bytes, up_row, IsUpFrame};

use crate::head::{has_seq, take_head};
use crate::message_error::MessageError;
use crate::up::UpFrame;
use crate::up_taker::take_up;
use std::alloc::Global;

/// Reads a body whose answer is right of it.
fn read_up(alloc: Global, body: &[u8]) -> Result<UpFrame, MessageError>
    ensures { DecodesTo up_frame_bytes IsUpFrame
        (HasUnknownKind up_row body.now) body.now result }
{
    let (head, rest) = take_head(body).ok_or(MessageError::BadField)?;
    let (message, rest) = take_up(alloc, head.kind, rest)?;
    if !has_seq(message.is_numbered(), head.seq) {
        return Err(MessageError::BadField);
    }
    if !rest.is_empty() {
        return Err(MessageError::LeftOver);
    }
    Ok(UpFrame {
        seq: head.seq,
        ack: head.ack,
        message,
    })
}

/// The frame whose bytes the body is. Unless out of memory, `BadKind` is answered exactly where the 17th byte
/// is no kind of the table, `LeftOver` exactly where bytes follow a frame, and `BadField` exactly elsewhere.
pub fn decode_up(alloc: Global, body: &[u8]) -> Result<UpFrame, MessageError>
    ensures ok { IfOk result (λ frame. IsUpFrame frame × (up_frame_bytes frame ≡ body.now)) }
    ensures again { (frame : UpFrame) → IsUpFrame frame → up_frame_bytes frame ≡ body.now →
        result ≢ Err (MessageError.Memory alloc_error) → result ≡ Ok frame }
    ensures bad_kind { result ≢ Err (MessageError.Memory alloc_error) →
        (result ≡ Err MessageError.BadKind ↔ HasUnknownKind up_row body.now) }
    ensures bad_field { result ≢ Err (MessageError.Memory alloc_error) →
        (result ≡ Err MessageError.BadField ↔
        HasBadField up_frame_bytes IsUpFrame (HasUnknownKind up_row body.now) body.now) }
    ensures left_over { result ≢ Err (MessageError.Memory alloc_error) →
        (result ≡ Err MessageError.LeftOver ↔ HasMore up_frame_bytes IsUpFrame body.now) }
{
    read_up(alloc, body)
}
