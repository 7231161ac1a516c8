//! What a step of a data server puts on the connection of a living application end that carries no session's messages yet, and what is on
//! its way there then. They are lemmas of the proofs; no clause names them.
#![tactic(auto)]
