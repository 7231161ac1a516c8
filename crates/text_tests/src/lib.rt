//! The texts of answers, pieces and acts, a line each, and targets with their refusals. A line is read into what it tells by a
//! small reader, and must be printed from that again.
#![tactic(auto)]

#[cfg(test)]
mod acts;
#[cfg(test)]
mod answers;
#[cfg(test)]
mod job_acts;
#[cfg(test)]
mod parts;
#[cfg(test)]
mod pieces;
#[cfg(test)]
mod server_acts;
#[cfg(test)]
mod targets;
