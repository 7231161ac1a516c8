//! What becomes of the requests for locks of an application server's ends, over each step of a job and each input. They are
//! lemmas of the proofs; no clause names them.
#![tactic(auto)]
