ghost use Rattle.std.specs.Prelude.{◌≡◌, IfOk};
ghost use Rattle.recovery_round.specs.RoundWords.{awaits, is_over, late, without};

use std::alloc::{AllocError, Global};
use std::marker::Model;

/// The sessions that are awaited after a start, and the moment, in ticks, when their round is due.
#[derive(Drop)]
pub struct RecoveryRound {
    awaited: Vec<u64>,
    due: u64,
}

impl Model for RecoveryRound {
    ghost use Rattle.recovery_round.specs.RoundWords.{Round};

    ghost Value = { Round };

    ghost view = { λ r. record { awaited = r.awaited.items; due = r.due } };
}

impl RecoveryRound {
    /// A round that awaits these sessions. One that stands there twice goes with one call.
    pub fn new(alloc: Global, awaited: &[u64], due: u64) -> Result<RecoveryRound, AllocError>
        ensures { IfOk result (λ round. round ≡ record { awaited = awaited.now; due = due }) }
    {
        Ok(RecoveryRound {
            awaited: Vec::from_slice(alloc, awaited)?,
            due,
        })
    }

    /// A session is done. It takes no memory.
    pub fn done(&mut self, session: u64)
        ensures { self.new ≡ without self.old session }
    {
        self.awaited.retain(|awaited| *awaited != session);
    }

    /// A session was closed. It takes no memory.
    pub fn closed(&mut self, session: u64)
        ensures { self.new ≡ without self.old session }
    {
        self.done(session);
    }

    /// Whether the session is awaited, and neither done nor closed.
    pub fn awaits(&self, session: u64) -> bool
        ensures { result ≡ awaits self.now session }
    {
        self.awaited.iter().any(|awaited| *awaited == session)
    }

    /// The sessions that are awaited still, from the moment on when the round is due; before it none.
    pub fn late(&self, now: u64) -> &[u64]
        ensures { result.now ≡ late self.now now }
    {
        if self.due <= now {
            return self.awaited.as_slice();
        }
        &[]
    }

    /// Whether each session was done or closed.
    pub fn is_over(&self) -> bool
        ensures { result ≡ is_over self.now }
    {
        self.awaited.is_empty()
    }
}
