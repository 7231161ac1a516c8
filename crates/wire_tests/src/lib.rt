//! What no clause of the wire's crates and of the journal's says, as texts: their worked bytes, their texts, and
//! each public call with ample memory.
#![tactic(auto)]

#[cfg(test)]
mod blocks;
#[cfg(test)]
mod fields;
#[cfg(test)]
mod frames;
#[cfg(test)]
mod journal_stops;
#[cfg(test)]
mod journals;
#[cfg(test)]
mod messages;
#[cfg(test)]
mod queues;
#[cfg(test)]
mod records;
#[cfg(test)]
mod texts;
#[cfg(test)]
mod windows;
