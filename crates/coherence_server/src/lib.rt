//! What each session is put stays coherent over the steps of data servers: lemmas of this part of the invariant, piece by
//! piece of a step.
#![tactic(auto)]
