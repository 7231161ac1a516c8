ghost use Rattle.std.specs.Prelude.{◌≡◌};
ghost use Rattle.link_states.specs.Tables.{data_next};

use crate::link_event::LinkEvent;
use plain_orders::Times;

/// The data server's end for one application server. Moments are ticks.
#[derive(Clone, Copy)]
pub enum DataLink {
    /// It has no session.
    Free,
    Normal,
    /// The connection ended at `broke`.
    Trouble { broke: u64 },
    /// The data server started anew, and the session is awaited until `due`.
    Recovering { due: u64 },
}

/// The end after an event at the moment `now`. An event that the table hasn't for a state leaves it.
pub fn data_step(state: DataLink, event: LinkEvent, times: &Times, now: u64) -> DataLink
    ensures { result ≡ data_next times.now now state event }
{
    match (state, event) {
        (DataLink::Free, LinkEvent::Opened) => DataLink::Normal,
        (DataLink::Free, _) => DataLink::Free,
        (_, LinkEvent::Replaced) => DataLink::Free,
        (DataLink::Normal, LinkEvent::Ended) => DataLink::Trouble { broke: now },
        (DataLink::Trouble { .. }, LinkEvent::Resumed) => DataLink::Normal,
        (DataLink::Trouble { broke }, LinkEvent::Ticked)
            if broke.saturating_add(times.trouble) <= now => { DataLink::Free }
        (DataLink::Recovering { due }, LinkEvent::Ticked) if due <= now => DataLink::Free,
        (DataLink::Recovering { .. }, LinkEvent::RoundOver { connected: true }) => DataLink::Normal,
        (DataLink::Recovering { .. }, LinkEvent::RoundOver { connected: false }) => {
            DataLink::Trouble { broke: now }
        }
        _ => state,
    }
}
