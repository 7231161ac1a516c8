//! Requests for locks over each small change of a step of a data server: what the step asks of its table of locks fits, and
//! what waits is what was asked for. They are lemmas of the proofs; no clause names them.
#![tactic(auto)]
