//! What each small change of a data server's step makes of its ends against the plain server: links, the round, and the
//! Hellos that wait. They are lemmas of the proofs; no clause names them.
#![tactic(auto)]
