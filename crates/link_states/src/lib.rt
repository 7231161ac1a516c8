//! The states of the two ends of a pair, at the application server and at the data server, and what each event
//! makes of them. The steps read no clock and take no memory; their contracts are the two tables of
//! `specs/Tables`. Laws above the tables say when a session is lost, and when it is closed by a tick:
//! `a_session_is_lost_for_a_cause` and `a_tick_closes_when_its_time_is_over`.
#![tactic(auto)]

mod app_link;
mod data_link;
mod laws;
mod link_event;

pub use app_link::{AppLink, app_step};
pub use data_link::{DataLink, data_step};
pub use laws::{a_session_is_lost_for_a_cause, a_tick_closes_when_its_time_is_over};
pub use link_event::LinkEvent;
