ghost use Rattle.std.specs.Prelude.{◌≡◌};
ghost use Rattle.link_states.specs.Tables.{app_next};

use crate::link_event::LinkEvent;
use plain_orders::Times;

/// The application server's end. Moments are ticks.
#[derive(Clone, Copy)]
pub enum AppLink {
    NotConnected,
    Normal,
    /// The connection ended at `broke`; the next is tried at `try_at`.
    Trouble { broke: u64, try_at: u64 },
    /// A new connection is there, and the session is not yet where it was.
    Recovery,
}

/// The end after an event at the moment `now`. An event that the table hasn't for a state leaves it.
pub fn app_step(state: AppLink, event: LinkEvent, times: &Times, now: u64) -> AppLink
    ensures { result ≡ app_next times.now now state event }
{
    let try_at = now.saturating_add(times.retry);
    match (state, event) {
        (AppLink::NotConnected, LinkEvent::Welcomed) => AppLink::Normal,
        (AppLink::Normal, LinkEvent::Ended) => AppLink::Trouble { broke: now, try_at },
        (AppLink::Trouble { broke, .. }, LinkEvent::Ticked)
            if broke.saturating_add(times.recover) <= now => { AppLink::NotConnected }
        (AppLink::Trouble { .. }, LinkEvent::Connected) => AppLink::Recovery,
        (AppLink::Trouble { broke, .. }, LinkEvent::ConnectFailed) => {
            AppLink::Trouble { broke, try_at }
        }
        (AppLink::Recovery, LinkEvent::Ended) => AppLink::Trouble { broke: now, try_at },
        (AppLink::Recovery, LinkEvent::Settled) => AppLink::Normal,
        (AppLink::Recovery, LinkEvent::ResetCame) => AppLink::NotConnected,
        _ => state,
    }
}
