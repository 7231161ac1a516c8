//! What no clause of the stores says: where leaves are cut and joined, over calls that are compared with a map's, and where the
//! plain store cuts its list; and a data server's store and the plain store beside a map with logs that shares no code with them,
//! entry by entry.
#![tactic(auto)]

#[cfg(test)]
mod flat;
#[cfg(test)]
mod listed;
#[cfg(test)]
mod nodes;
#[cfg(test)]
mod plain;
#[cfg(test)]
mod random;
#[cfg(test)]
mod runs;
#[cfg(test)]
mod stores;
#[cfg(test)]
mod trees;
