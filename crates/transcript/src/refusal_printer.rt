//! The text of refusals.
ghost use Rattle.std.specs.Prelude.{◌≡◌, ◌++◌, ◌∷◌, OnOk};
ghost use Rattle.transcript.specs.Parts.{name_at, link_word};
ghost use Rattle.transcript.specs.AnswerText.{at_text, reason_word, refusal_text};

use crate::printer::Printer;
use crate::words::{link_word, reason_word};
use app_job::{Reason, Refusal};
use plain_orders::{LinkName, NameList};
use std::alloc::AllocError;

/// A word, and the length of the prefix at which an answer holds.
pub fn put_at(to: &mut Printer, word: &[u8], at: u64) -> Result<(), AllocError>
    ensures { OnOk result (to.new ≡ to.old ++ (word.now ++ at_text at)) }
{
    to.bytes(word)?;
    to.bytes(b" @")?;
    to.number(at)
}

/// The state of a connection, and why its session was lost or it could not be made.
fn put_loss(to: &mut Printer, state: LinkName, reason: Reason) -> Result<(), AllocError>
    ensures { OnOk result (to.new ≡ to.old ++ (link_word state ++ (32 ∷ reason_word reason))) }
{
    to.bytes(link_word(state))?;
    to.bytes(b" ")?;
    to.bytes(reason_word(reason))
}

/// A refusal, a data server by its name.
pub fn put_refusal(to: &mut Printer, servers: &NameList, refusal: Refusal) -> Result<(), AllocError>
    ensures { OnOk result (to.new ≡ to.old ++ refusal_text servers.now refusal) }
{
    match refusal {
        Refusal::Network {
            server,
            state,
            reason,
        } => {
            to.bytes(b"network ")?;
            to.name(servers, usize::from(server))?;
            to.bytes(b" ")?;
            put_loss(to, state, reason)
        }
        Refusal::RollbackOnly => to.bytes(b"rollbackonly"),
        Refusal::NotWhole { at } => put_at(to, b"notwhole", at),
        Refusal::Range { at } => put_at(to, b"range", at),
        Refusal::NoTransaction => to.bytes(b"notransaction"),
        Refusal::TooDeep => to.bytes(b"toodeep"),
        Refusal::LockTimeout => to.bytes(b"locktimeout"),
    }
}
