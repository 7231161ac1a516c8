//! What is on its way between the two ends of each session stays as it is said to be: the part of the invariant that the
//! moves of data servers keep, and short ones. `laws` has what is kept whole; of a data server's step, the windows, the
//! lanes and what it has of its sessions are lemmas here, and the clause is that of `link_steps`.
#![tactic(auto)]

pub mod laws;
