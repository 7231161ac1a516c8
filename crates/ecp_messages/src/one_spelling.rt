ghost use Rattle.field_bytes.specs.Fields.{IsPrefixFree};
ghost use Rattle.ecp_messages.specs.Downs.{down_frame_bytes, IsDownFrame};
ghost use Rattle.ecp_messages.specs.Ups.{up_frame_bytes, IsUpFrame};

/// Bytes that begin with a well-formed frame do so in one way: the frame and what follows it are known. So a
/// frame has one spelling, and what is written is read again.
pub fn messages_have_one_spelling()
    ensures up { IsPrefixFree up_frame_bytes IsUpFrame }
    ensures down { IsPrefixFree down_frame_bytes IsDownFrame }
{}
