//! The connections between application servers and data servers as the program sees them: a trait `Net` that
//! says, where it tells, which bytes were put on each connection and how many of them were taken, which
//! connections are cut and which wait to be accepted. It keeps four counts that never fall, and a call fails,
//! or answers that nothing is there now, only where its count rose. `MemNet` is a net in memory that tells
//! all, and fails at the listed calls alone. No clause says that a net that may hold back ever delivers.
#![tactic(auto)]

mod conn_table;
mod connection;
mod data_server;
mod end;
mod line;
mod lines;
mod mem_net;
mod moved;
mod net;
mod net_counts;
mod net_maker;
mod node_name;
#[cfg(test)]
mod tests;

pub use end::End;
pub use mem_net::MemNet;
pub use moved::{Put, Took};
pub use net::Net;
pub use net_maker::NetMaker;
pub use node_name::NodeName;
