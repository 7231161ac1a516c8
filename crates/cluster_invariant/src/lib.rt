//! What holds in each state of the machine that some list of allowed moves leads to: the orders, the two ends of each
//! pair, the connections between them, what is on its way, and what was told of the orders. The definitions stand in the
//! specs; `laws` has what every run keeps of its orders. That moves keep all of it is the law of `cluster_holds`.
#![tactic(auto)]

pub mod laws;
