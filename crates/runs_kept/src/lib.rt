//! The trail stays a run as a data server steps: the acts that orders and ends imply may come. What rests on items, locks
//! and answers is a premise. The contract of the function is that law. Beside it stand lemmas of the proofs that no
//! clause names.
#![tactic(auto)]

pub mod laws;
