//! The indexes of the table of locks: numbers by keys, and rows by their tickets. A row has a running number, so that
//! the rows in the order of their numbers are in the order in which they came.
#![tactic(auto)]

mod number_index;
mod number_test;
mod numbers;
mod overlaps;
mod rows;
mod ticket_list;
mod ticket_rows;
mod ticketed;

pub use number_index::NumberIndex;
pub use number_test::NumberTest;
pub use rows::push_row;
pub use ticket_list::TicketList;
pub use ticket_rows::{drop_session, drop_ticket};
pub use ticketed::Ticketed;
