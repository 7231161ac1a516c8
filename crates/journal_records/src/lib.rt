//! The bytes of an entry's record, of which a journal consists. An entry has one record, and bytes that
//! begin with a record do so in one way: `records_are_prefix_free`. `write_entry` appends a record, and
//! `read_entry` reads the one that stands in front. What may follow an ordered list can be written:
//! `ordered_entries_have_records`. No clause says when memory runs out.
#![tactic(auto)]

mod entry_reader;
mod entry_writer;
mod item_head;
mod laws;
mod record_error;
mod record_kinds;
mod record_op;

pub use entry_reader::read_entry;
pub use entry_writer::write_entry;
pub use laws::{ordered_entries_have_records, records_are_prefix_free};
pub use record_error::RecordError;
