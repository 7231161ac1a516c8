ghost use Rattle.std.specs.Prelude.{◌≡◌, ◌≢◌, ◌↔◌, Ok, Err, IfOk, alloc_error};
ghost use Rattle.ecp_messages.specs.declared.down.DownFrame.{DownFrame};
ghost use Rattle.ecp_messages.specs.Downs.{down_frame_bytes, down_row, IsDownFrame};
ghost use Rattle.ecp_messages.specs.Readings.{HasBadField, HasMore, DecodesTo};
ghost use Rattle.ecp_messages.specs.Taking.{HasUnknownKind};

use crate::down::DownFrame;
use crate::down_taker::take_down;
use crate::head::{has_seq, take_head};
use crate::message_error::MessageError;
use std::alloc::Global;

/// Reads a body whose answer is right of it.
fn read_down(alloc: Global, body: &[u8]) -> Result<DownFrame, MessageError>
    ensures { DecodesTo down_frame_bytes IsDownFrame
        (HasUnknownKind down_row body.now) body.now result }
{
    let (head, rest) = take_head(body).ok_or(MessageError::BadField)?;
    let (message, rest) = take_down(alloc, head.kind, rest)?;
    if !has_seq(message.is_numbered(), head.seq) {
        return Err(MessageError::BadField);
    }
    if !rest.is_empty() {
        return Err(MessageError::LeftOver);
    }
    Ok(DownFrame {
        seq: head.seq,
        ack: head.ack,
        message,
    })
}

/// The frame whose bytes the body is. Unless out of memory, `BadKind` is answered exactly where the 17th byte
/// is no kind of the table, `LeftOver` exactly where bytes follow a frame, and `BadField` exactly elsewhere.
pub fn decode_down(alloc: Global, body: &[u8]) -> Result<DownFrame, MessageError>
    ensures ok { IfOk result (λ frame. IsDownFrame frame × (down_frame_bytes frame ≡ body.now)) }
    ensures again { (frame : DownFrame) → IsDownFrame frame → down_frame_bytes frame ≡ body.now →
        result ≢ Err (MessageError.Memory alloc_error) → result ≡ Ok frame }
    ensures bad_kind { result ≢ Err (MessageError.Memory alloc_error) →
        (result ≡ Err MessageError.BadKind ↔ HasUnknownKind down_row body.now) }
    ensures bad_field { result ≢ Err (MessageError.Memory alloc_error) →
        (result ≡ Err MessageError.BadField ↔
        HasBadField down_frame_bytes IsDownFrame (HasUnknownKind down_row body.now) body.now) }
    ensures left_over { result ≢ Err (MessageError.Memory alloc_error) →
        (result ≡ Err MessageError.LeftOver ↔ HasMore down_frame_bytes IsDownFrame body.now) }
{
    read_down(alloc, body)
}
