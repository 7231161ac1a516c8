//! The bytes of fields, of which blocks, messages and journal records consist: whole numbers with the
//! greatest byte first, bytes behind their count, keys and operations. Each kind of field has one word for
//! its bytes; `put_..` appends them, and `take_..` reads them from the front: `None`, or `NoField` where a
//! copy takes memory, exactly where no such field stands there. A field has one spelling: `fields_are_prefix_free`. The lemmas behind it, for fields
//! in a row too, are in proofs/PrefixFree, and the lengths of fields in proofs/FieldLengths.
#![tactic(auto)]

mod field_error;
mod key_fields;
mod list_fields;
mod number_fields;
mod one_spelling;
mod op_fields;

pub use field_error::FieldError;
pub use key_fields::take_key;
pub use list_fields::{put_list, take_list};
pub use number_fields::{
    put_i64, put_u8, put_u16, put_u32, put_u64, take_i64, take_u8, take_u16, take_u32, take_u64,
};
pub use one_spelling::fields_are_prefix_free;
pub use op_fields::{put_op, take_op};
