//! What a data server's step puts, takes and awaits: frames go out on connections of sessions alone, a round awaits those
//! of which no Done was taken, and a Recover in an older epoch is of a session that didn't learn of the order. They are
//! lemmas of the proofs; no clause names them.
#![tactic(auto)]
