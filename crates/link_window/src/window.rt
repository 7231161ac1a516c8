ghost use Rattle.std.specs.Prelude.{◌≡◌, ◌+◌, ◌-◌, ◌≤◌, drop, IfOk, OnErr};
ghost use Rattle.link_window.specs.Numbering.{fresh_window, sent_count, answer_to, after_send, after_take};

use bytes::Bytes;
use std::alloc::{AllocError, Global};
use std::marker::Model;
use thiserror::Error;

/// What a numbered message was to the end that took it.
#[derive(Clone, Copy, Debug, PartialEq, Eq)]
pub enum Taken {
    /// The next one.
    Fresh,
    /// One that it had taken before, or a message without a number.
    Repeat,
}

/// Why a message can't be taken. It shows that the other end does not keep to the numbering.
#[derive(Clone, Copy, Debug, PartialEq, Eq, Error)]
pub enum WindowError {
    #[error("message {got} was acknowledged, but only {sent} were sent")]
    AckPastSent { sent: u64, got: u64 },
    #[error("message {got} came where message {wanted} is the next")]
    Gap { wanted: u64, got: u64 },
}

/// One end of a session's connection, in both directions. Messages are numbered from 1.
#[derive(Drop)]
pub struct Window {
    /// The bodies sent, of which the first `given_up` are acknowledged.
    bodies: Vec<Bytes>,
    given_up: usize,
    acked: u64,
    taken: u64,
}

impl Model for Window {
    ghost use Rattle.std.specs.Prelude.{◌+◌, ◌-◌, ◌^◌, ◌<◌, ◌≤◌, drop, vec_len};
    ghost use Rattle.link_window.specs.WindowState.{WindowState};

    ghost Value = { WindowState };

    ghost view = { λ w. record { acked = w.acked; waiting = drop w.given_up w.bodies.items; taken = w.taken } };

    ghost invariant = { λ w. (w.given_up ≤ vec_len w.bodies)
        × (w.acked + (vec_len w.bodies - w.given_up) < 2 ^ 64) };
}

impl Window {
    pub fn new(alloc: Global) -> Window
        ensures { result ≡ fresh_window }
    {
        Window {
            bodies: Vec::new(alloc),
            given_up: 0,
            acked: 0,
            taken: 0,
        }
    }

    /// How many messages were sent.
    pub fn sent(&self) -> u64
        ensures { result ≡ sent_count self.now }
    {
        self.acked + (self.bodies.len() - self.given_up) as u64
    }

    /// How many messages of the other end were taken.
    pub fn taken(&self) -> u64
        ensures { result ≡ self.now.taken }
    {
        self.taken
    }

    /// Numbers a body and keeps it until it is acknowledged. Past the greatest u64 no number is left, and
    /// it answers as where there is no memory.
    pub fn send(&mut self, body: Bytes) -> Result<u64, AllocError>
        ensures number { IfOk result (λ seq. seq ≡ sent_count self.old + 1) }
        ensures ok { IfOk result (λ _. self.new ≡ after_send self.old body) }
        ensures err { OnErr result (self.new ≡ self.old) }
    {
        let sent = self.sent();
        if sent == u64::MAX {
            return Err(AllocError);
        }
        self.bodies.push(body)?;
        Ok(sent + 1)
    }

    /// Takes the number of a message and the acknowledgement that came with it. A message without a number
    /// has 0.
    pub fn take(&mut self, seq: u64, ack: u64) -> Result<Taken, WindowError>
        ensures answer { result ≡ answer_to self.old seq ack }
        ensures ok { IfOk result (λ _. self.new ≡ after_take self.old seq ack) }
        ensures err { OnErr result (self.new ≡ self.old) }
    {
        let sent = self.sent();
        if sent < ack {
            return Err(WindowError::AckPastSent { sent, got: ack });
        }
        if self.taken < seq && 1 < seq - self.taken {
            let wanted = self.taken + 1;
            return Err(WindowError::Gap { wanted, got: seq });
        }
        self.acknowledge(ack);
        if seq <= self.taken {
            return Ok(Taken::Repeat);
        }
        self.taken = seq;
        Ok(Taken::Fresh)
    }

    /// Gives up the bodies up to this number.
    fn acknowledge(&mut self, ack: u64)
        requires { ack ≤ sent_count self.old }
        ensures { self.new ≡ after_take self.old 0 ack }
    {
        if ack <= self.acked {
            return;
        }
        self.given_up += (ack - self.acked) as usize;
        self.acked = ack;
        // At least half of the places are free by then, so each body is moved once for one given up.
        if self.given_up >= self.bodies.len() - self.given_up {
            drop(self.bodies.drain(..self.given_up));
            self.given_up = 0;
        }
    }

    /// The bodies after the greater of `taken` and what the other end has acknowledged, oldest first; none
    /// where `taken` is past what was sent.
    pub fn resend(&self, taken: u64) -> &[Bytes]
        ensures { result.now ≡ drop (taken - self.now.acked) self.now.waiting }
    {
        let waiting = &self.bodies[self.given_up..];
        let known = taken.saturating_sub(self.acked).min(waiting.len() as u64) as usize;
        &waiting[known..]
    }
}
