//! Keys of nodes: names, subscripts, encoded keys and values. Contracts see each as its bytes or its fields.
#![tactic(auto)]

mod decimal;
mod decoder;
mod digits;
mod encoder;
mod key_bytes;
mod key_error;
mod key_order;
mod limits;
mod name;
mod node;
mod number_parts;
mod number_text;
mod number_writer;
mod pair;
mod pairs;
mod run;
mod span;
mod sub;
mod sub_reader;
mod sub_text;
mod sub_writer;
mod subs;
#[cfg(test)]
mod tests;
mod value_bytes;

pub use decimal::Decimal;
pub use decoder::decode;
pub use encoder::{encode, has_empty};
pub use key_bytes::KeyBytes;
pub use key_error::KeyError;
pub use key_order::keys_stand_for_nodes;
pub use limits::{
    DIGIT_LIMIT, GLOBAL_NAME_LIMIT, KEY_LIMIT, NODE_NAME_LIMIT, NUMBER_LIMIT, VALUE_LIMIT,
};
pub use name::Name;
pub use node::Node;
pub use pair::Pair;
pub use pairs::Pairs;
pub use run::Run;
pub use span::Span;
pub use sub::Sub;
pub use sub_reader::take_sub;
pub use sub_text::SubText;
pub use sub_writer::put_sub;
pub use subs::Subs;
pub use value_bytes::ValueBytes;
