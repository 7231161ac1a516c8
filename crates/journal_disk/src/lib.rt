//! The journal of a data server on its disk: the entries of its list, in batches behind gates. A batch counts
//! once its gate is open, and the gate is opened by a write of its own when the batch is on the disk, so a crash
//! leaves each batch whole or not at all. Contracts see a journal as the place of its closed gate and whether it
//! has to be started anew; what a disk stands for is `Stands`, in specs/Stands. The device calls are counted:
//! four a batch, and at most six at a start. No clause says when there is no memory for the bytes.
#![tactic(auto)]

mod batch_reader;
mod batch_writer;
mod disk_reader;
mod gate_writer;
mod gates;
mod journal;
mod journal_error;
mod journal_reader;
mod laws;
mod part_writer;
mod read_entries;
mod record_size;
mod recovery;

pub use journal::Journal;
pub use journal_error::JournalError;
pub use laws::{a_bad_gate_is_in_no_journal, bytes_stand_for_one_list, the_first_bad_gate_is_one};
