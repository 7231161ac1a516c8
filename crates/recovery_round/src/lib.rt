//! The sessions that a data server awaits after a start. Contracts see a `RecoveryRound` as the record of these
//! sessions and the moment when it is due. Only the start of a round takes memory.
#![tactic(auto)]

mod laws;
mod recovery_round;

pub use laws::round_counts_each_session;
pub use recovery_round::RecoveryRound;
