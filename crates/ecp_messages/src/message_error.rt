ghost use Rattle.std.specs.Prelude.{◌≡◌};
ghost use Rattle.ecp_messages.specs.Errors.{message_error_of};

use field_bytes::FieldError;
use std::alloc::AllocError;
use thiserror::Error;

/// Why a body is no frame.
#[derive(Debug, Drop, Error)]
pub enum MessageError {
    #[error("the body's kind of message is unknown")]
    BadKind,
    #[error("a field of the message is cut off or out of its range")]
    BadField,
    #[error("bytes follow the message's last field")]
    LeftOver,
    #[error("out of memory while a message is read")]
    Memory(AllocError),
}

impl From<FieldError> for MessageError {
    ghost from_gives = { λ error e. e ≡ message_error_of error };

    fn from(error: FieldError) -> MessageError {
        match error {
            FieldError::NoField => MessageError::BadField,
            FieldError::Memory(error) => MessageError::Memory(error),
        }
    }
}
