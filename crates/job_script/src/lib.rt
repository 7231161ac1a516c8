//! Reading scripts. Contracts say which script a text is, or at which line and for which fault from the left it
//! is none. Each form of a line is a row of one table: its first word, and the parts after it.
#![tactic(auto)]

mod command_reader;
mod command_rows;
mod command_word;
mod declaration;
mod declaration_rows;
mod declared;
mod declared_line;
mod declaring_word;
mod flag_parts;
mod global;
mod kind_names;
mod known_front;
mod laws;
mod limits;
mod line;
mod line_end;
mod line_fault;
mod line_kind;
mod line_reader;
mod name_form;
mod name_kind;
mod name_parts;
mod node_parts;
mod number_parts;
mod reading;
mod script;
mod script_error;
mod script_line;
mod script_reader;
mod setting;
mod splits;
mod todo;
mod todo_rows;
mod todo_word;
mod value_part;
mod word_end;

pub use declared_line::{DeclaredLine, DeclaredLines, DeclaringWord};
pub use laws::{scripts_are_read_in_one_way, scripts_may_run};
pub use limits::LINE_LIMIT;
pub use line_kind::LineKind;
pub use script::Script;
pub use script_error::ScriptError;
pub use script_line::{ScriptLine, ScriptLines};
pub use script_reader::read_script;
pub use todo::Todo;
