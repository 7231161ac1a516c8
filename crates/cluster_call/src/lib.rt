//! The calls behind the program's commands. Each reads its input from a source, works, and puts its output to
//! a sink; what it answers says what the outside told.
#![tactic(auto)]

mod built;
mod copies;
mod issuing;
mod limits;
mod line_run;
mod output_text;
mod put_all;
mod reading;
mod script_run;
mod source_text;
mod status;
mod top_calls;

pub use status::Status;
pub use top_calls::script;
