//! What the steps of the cluster's nodes make, as lists of small changes: each part of the invariant shows that it is
//! kept by each of these. They are lemmas of the proofs; no clause names them.
#![tactic(auto)]
