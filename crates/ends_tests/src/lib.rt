//! What no clause of the leaves of the two ends says, as texts: each public call with ample memory.
#![tactic(auto)]

#[cfg(test)]
mod caches;
#[cfg(test)]
mod holders;
#[cfg(test)]
mod locks;
#[cfg(test)]
mod rounds;
#[cfg(test)]
mod texts;
#[cfg(test)]
mod tickets;
