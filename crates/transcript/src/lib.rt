//! The texts of pieces and acts: a line for each piece, so for each answer, the line of the times, and the lines of
//! each act. Contracts see what is appended as a text of the piece, the answer or the act; where memory runs out
//! nothing was appended. No clause says that a text is read back.
#![tactic(auto)]

mod act_printer;
mod answer_printer;
mod end_acts;
mod entry_printer;
mod job_acts;
mod key_printer;
mod laws;
mod layout_printer;
mod link_acts;
mod list_acts;
mod lock_acts;
mod op_printer;
mod piece;
mod piece_printer;
mod printer;
mod question_printer;
mod refusal_printer;
mod session_acts;
mod sum_acts;
mod words;

pub use act_printer::print_act;
pub use answer_printer::print_answer;
pub use laws::{a_piece_has_one_text, an_act_has_one_text, an_answer_has_one_text};
pub use layout_printer::print_layout;
pub use piece::{AnswerLine, Piece, Restarted};
pub use piece_printer::print_piece;
