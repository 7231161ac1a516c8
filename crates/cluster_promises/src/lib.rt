//! What the cluster owes its jobs, in each state of the machine that some list of allowed moves leads to: the items that
//! they issued, the answers to these, the locks that they hold and wait for, and what each job and the plain machine know of one
//! another. The definitions stand in the specs, beside those of `cluster_invariant`; that moves keep them is for the crates above.
#![tactic(auto)]
