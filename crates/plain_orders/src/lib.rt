//! The plain side: entries of an update list and acts of a trail, and the definitions that every clause
//! about them rests on.
#![tactic(auto)]

mod act;
mod applied;
mod causes;
mod entries;
mod entry;
mod item;
mod job_apps;
mod laws;
mod layout;
mod limits;
mod mode;
mod name_list;
mod op;
mod question;
mod refused;
mod spans;
mod sum;
mod trail;
mod via;

pub use act::Act;
pub use applied::Applied;
pub use causes::{Loss, PairEnd, ShutCause};
pub use entries::Entries;
pub use entry::Entry;
pub use item::Item;
pub use job_apps::JobApps;
pub use laws::{
    fold_goes_on, last_sum, map_rises, order_goes_on, order_has_keys, under_is_at_or_below,
};
pub use layout::{Layout, Names, Times};
pub use limits::{EPOCH_END, START_EPOCH_LIMIT};
pub use mode::Mode;
pub use name_list::NameList;
pub use op::Op;
pub use question::Question;
pub use refused::{LinkName, ReasonName, Refused};
pub use spans::Spans;
pub use sum::Sum;
pub use trail::Trail;
pub use via::Via;
