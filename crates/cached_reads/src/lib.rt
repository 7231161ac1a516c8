//! What a job reads from runs that its application server keeps is what the plain machine allows: where the runs are true at the
//! front, a get finds the value there, a walk from run to run tells the descendants and the next subscript, and each read that is
//! written may come. The contract of each function is one such law; that the runs are true is a premise.
#![tactic(auto)]

pub mod laws;
