//! Words of answers and acts.
ghost use Rattle.std.specs.Prelude.{◌≡◌};
ghost use Rattle.transcript.specs.Parts.{via_word, mode_word, link_word};
ghost use Rattle.transcript.specs.AnswerText.{why_word, reason_word};
ghost use Rattle.transcript.specs.ActText.{end_word, reason_name_word};

use app_job::{Reason, Why};
use plain_orders::{LinkName, Mode, PairEnd, ReasonName, Via};

/// Where an answer came from.
pub fn via_word(via: Via) -> &'static [u8]
    ensures { result.now ≡ via_word via }
{
    match via {
        Via::Own => b"own",
        Via::Cached => b"cached",
        Via::Fetched => b"fetched",
    }
}

/// How a lock is held.
pub fn mode_word(mode: Mode) -> &'static [u8]
    ensures { result.now ≡ mode_word mode }
{
    match mode {
        Mode::Exclusive => b"exclusive",
        Mode::Shared => b"shared",
    }
}

/// The state of a connection.
pub fn link_word(state: LinkName) -> &'static [u8]
    ensures { result.now ≡ link_word state }
{
    match state {
        LinkName::NotConnected => b"NotConnected",
        LinkName::Normal => b"Normal",
        LinkName::Trouble => b"Trouble",
        LinkName::Recovery => b"Recovery",
    }
}

/// What a command waits for.
pub fn why_word(why: Why) -> &'static [u8]
    ensures { result.now ≡ why_word why }
{
    match why {
        Why::State => b"state",
        Why::Queue => b"queue",
        Why::Own => b"own",
        Why::Fetch => b"fetch",
        Why::Grant => b"grant",
        Why::Reply => b"reply",
    }
}

/// Why a session was lost or no connection could be made.
pub fn reason_word(reason: Reason) -> &'static [u8]
    ensures { result.now ≡ reason_word reason }
{
    match reason {
        Reason::Reset { .. } => b"reset",
        Reason::Expired { .. } => b"expired",
        Reason::NoWay { .. } => b"noway",
    }
}

/// The same, by its name alone.
pub fn reason_name_word(reason: ReasonName) -> &'static [u8]
    ensures { result.now ≡ reason_name_word reason }
{
    match reason {
        ReasonName::Reset => b"reset",
        ReasonName::Expired => b"expired",
        ReasonName::NoWay => b"noway",
    }
}

/// The end that noticed a break.
pub fn end_word(end: PairEnd) -> &'static [u8]
    ensures { result.now ≡ end_word end }
{
    match end {
        PairEnd::App => b"app",
        PairEnd::Server => b"server",
    }
}
