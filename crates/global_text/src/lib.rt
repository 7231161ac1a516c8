//! The text of nodes and values: reading it from the left, and its one printed spelling. Contracts speak of the
//! grammar, in which many texts may spell one string; what is printed is one of them and is read back.
#![tactic(auto)]

mod item;
mod list_reader;
mod name_form;
mod node_front;
mod node_laws;
mod node_printer;
mod node_reader;
mod number_form;
mod number_laws;
mod room;
mod string_error;
mod string_laws;
mod string_reader;
mod string_writer;
mod sub_length;
mod sub_printer;
mod sub_reader;
#[cfg(test)]
mod tests;
mod text_error;
mod value_printer;
mod value_reader;

pub use node_front::{NodeFront, read_front};
pub use node_laws::{nodes_are_read_in_one_way, printed_nodes_are_read};
pub use node_printer::print_node;
pub use node_reader::read_node;
pub use number_laws::canonical_numbers_agree;
pub use string_laws::{printed_values_are_read, values_are_read_in_one_way};
pub use sub_printer::print_sub;
pub use text_error::TextError;
pub use value_printer::print_value;
pub use value_reader::read_value;
