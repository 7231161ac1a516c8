//! The messages between an application server and a data server, and their bytes. A frame has its number,
//! the count of what was taken from the other end, and one message: its kind and its fields, as one table for
//! each direction states (`specs/Ups`, `specs/Downs`). A body is read in one way or refused for one cause,
//! and a frame has one spelling: `messages_have_one_spelling`. No clause says what a message is for.
#![tactic(auto)]

mod about;
mod block_part;
mod down;
mod down_decoder;
mod down_encoder;
mod down_putter;
mod down_taker;
mod field_putters;
mod field_takers;
mod front;
mod head;
mod message_error;
mod one_spelling;
mod up;
mod up_decoder;
mod up_encoder;
mod up_putter;
mod up_taker;

pub use about::About;
pub use block_part::BlockPart;
pub use down::{Down, DownFrame};
pub use down_decoder::decode_down;
pub use down_encoder::encode_down;
pub use front::Front;
pub use message_error::MessageError;
pub use one_spelling::messages_have_one_spelling;
pub use up::{Up, UpFrame};
pub use up_decoder::decode_up;
pub use up_encoder::encode_up;
