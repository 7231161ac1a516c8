ghost use Rattle.std.specs.Prelude.{◌≡◌, ◌↔◌, ◌<◌, ◌+◌, ◌^◌, [], ◌∷◌, ◌++◌, length, take, remove, filter, slice_index_or, if◌then◌else◌, IsTrue, OnOk, OnErr, IfOk, IfErr, false};
ghost use Rattle.std.specs.List.{find, list_any};
ghost use Rattle.std.specs.Option.{option_copied};
ghost use Rattle.lock_table.specs.declared.rows.Request.{Request};
ghost use Rattle.lock_table.specs.LockWords.{no_locks, goes_before, waits, asked, freed, passed, raised, holds_it, with_grant, waiting_with, granted_with, without_request, without_ticket, without_grant, without_session, is_ticket, is_other_ticket, is_request_of, is_request_elsewhere, is_barred, claimed};
ghost use Rattle.lock_table.specs.Counts.{held_count, request_count, HasRoom};
ghost use Rattle.lock_table.specs.Passing.{with_lowered, with_dropped, with_session_gone, IsCutShort, IsRefusal, granted_by};

use crate::conflicts::{is_conflict, is_same_mode, is_same_who};
use crate::grants::Grants;
use crate::holds::Holds;
use crate::rows::{Hold, Request, Who};
use lock_index::{TicketList, drop_session, drop_ticket};
use plain_orders::Mode;
use std::alloc::{AllocError, Global};
use std::marker::Model;
use subscript_keys::KeyBytes;
use thiserror::Error;

/// What became of a request that came.
#[derive(Clone, Copy, Debug, PartialEq, Eq)]
pub enum Asked {
    Granted,
    /// It waits as the last.
    Waits,
}

/// Why a claim isn't taken. The table is as it was.
#[derive(Debug, Drop, Error)]
pub enum ClaimError {
    #[error("out of memory while a lock was claimed")]
    Memory(AllocError),
    #[error("the claimed lock {claimed:?} conflicts with {held:?}")]
    Conflict {
        /// The first hold that conflicts with the claim.
        held: Hold,
        claimed: Hold,
    },
}

/// The locks of a data server.
#[derive(Drop)]
pub struct LockTable {
    holds: Holds,
    requests: Vec<Request>,
    granted: TicketList<Request>,
    alloc: Global,
}

impl Model for LockTable {
    ghost use Rattle.lock_table.specs.LockWords.{Locks};

    ghost Value = { Locks };

    ghost use Rattle.lock_table.specs.Counts.{FitCounts};

    ghost view = { λ t. record { holds = t.holds; requests = t.requests.items; granted = t.granted } };

    ghost invariant = { λ t. FitCounts t.holds t.requests.items };
}

impl LockTable {
    /// Nothing is held and nothing asked for. It takes no memory.
    pub fn new(alloc: Global) -> LockTable
        ensures { result ≡ no_locks }
    {
        LockTable {
            holds: Holds::new(alloc),
            requests: Vec::new(alloc),
            granted: TicketList::new(alloc),
            alloc,
        }
    }

    /// Whether a holder's count of a name in a mode, with its waiting requests for them, may rise by so many: it
    /// stays a `u32`.
    pub fn has_room(&self, who: Who, name: &KeyBytes, mode: Mode, more: u32) -> bool
        ensures { IsTrue result ↔ HasRoom self.now who name.now mode more }
    {
        let waiting = self
            .requests
            .iter()
            .filter(|request| {
                is_same_who(who, request.who)
                    && *name == request.name
                    && is_same_mode(mode, request.mode)
            })
            .count() as u64;
        let held = u64::from(self.holds.count(who, name, mode));
        held + waiting + u64::from(more) <= u64::from(u32::MAX)
    }

    /// A request comes: it is granted at this length, or waits as the last. Out of memory, nothing changes.
    pub fn ask(&mut self, request: Request, at: u64) -> Result<Asked, AllocError>
        requires room { HasRoom self.old request.who request.name request.mode 1 }
        ensures ok { OnOk result (self.new ≡ (asked self.old request at).locks) }
        ensures answer { IfOk result (λ answer. answer
            ≡ (if waits self.old.holds self.old.requests request then Asked.Waits else Asked.Granted)) }
        ensures grants { IfOk result (λ answer. (asked self.old request at).grants ≡ granted_by request answer) }
        ensures err { OnErr result (self.new ≡ self.old) }
    {
        let must_wait = waits(&self.holds, self.requests.as_slice(), &request)?;
        if must_wait {
            self.requests.push(request)?;
            return Ok(Asked::Waits);
        }
        grant(&mut self.holds, &mut self.granted, request, at)?;
        Ok(Asked::Granted)
    }

    /// Whether a holder has a name in a mode.
    pub fn holds_it(&self, who: Who, name: &KeyBytes, mode: Mode) -> bool
        ensures { result ≡ holds_it who name.now mode self.now.holds }
    {
        self.holds.have(who, name, mode)
    }

    /// One of a holder's name in a mode goes, if it has one, and what that lets through is granted at this length.
    /// Out of memory in the pass, the requests that it hadn't come to wait on.
    pub fn free(
        &mut self,
        who: Who,
        name: &KeyBytes,
        mode: Mode,
        at: u64,
    ) -> Result<Grants, AllocError>
        ensures ok { OnOk result (self.new ≡ (freed self.old who name.now mode at).locks) }
        ensures grants { IfOk result (λ grants. grants ≡ (freed self.old who name.now mode at).grants) }
        ensures err { OnErr result (IsCutShort (with_lowered self.old who name.now mode) at self.new) }
    {
        self.holds.lower(who, name, mode);
        self.pass(at)
    }

    /// The waiting request with this ticket.
    pub fn waiting_with(&self, session: u64, ticket: u32) -> Option<&Request>
        ensures { option_copied result ≡ waiting_with self.now session ticket }
    {
        self.requests.iter().find(|request| request.who.session == session
            && request.ticket == ticket)
    }

    /// The granted request with this ticket.
    pub fn granted_with(&self, session: u64, ticket: u32) -> Option<&Request>
        ensures { option_copied result ≡ granted_with self.now session ticket }
    {
        self.granted.first_with(session, ticket)
    }

    /// A waiting request goes, and what that lets through is granted at this length. Out of memory in the pass, the
    /// requests that it hadn't come to wait on.
    pub fn drop_request(&mut self, session: u64, ticket: u32, at: u64) -> Result<Grants, AllocError>
        ensures ok { OnOk result (self.new ≡ (without_request self.old session ticket at).locks) }
        ensures grants { IfOk result (λ grants. grants ≡ (without_request self.old session ticket at).grants) }
        ensures err { OnErr result (IsCutShort (with_dropped self.old session ticket) at self.new) }
    {
        drop_ticket(&mut self.requests, session, ticket);
        self.pass(at)
    }

    /// A granted ticket is forgotten. Its hold stays.
    pub fn drop_ticket(&mut self, session: u64, ticket: u32)
        ensures { self.new ≡ without_ticket self.old session ticket }
    {
        self.granted.drop_ticket(session, ticket);
    }

    /// A grant is given back: its ticket is forgotten, one of its holds goes, and what that lets through is granted at
    /// this length. Out of memory in the pass, the requests that it hadn't come to wait on.
    pub fn give_back(&mut self, request: &Request, at: u64) -> Result<Grants, AllocError>
        ensures ok { OnOk result (self.new ≡ (without_grant self.old request.now at).locks) }
        ensures grants { IfOk result (λ grants. grants ≡ (without_grant self.old request.now at).grants) }
        ensures err { OnErr result (IsCutShort (with_lowered
            (without_ticket self.old request.now.who.session request.now.ticket)
            request.now.who request.now.name request.now.mode) at self.new) }
    {
        self.drop_ticket(request.who.session, request.ticket);
        self.free(request.who, &request.name, request.mode, at)
    }

    /// The waiting requests of a session, in their order.
    pub fn requests_of(&self, session: u64) -> Result<Vec<Request>, AllocError>
        ensures { IfOk result (λ requests. requests.items ≡ filter (is_request_of session) self.now.requests) }
    {
        let mut requests = Vec::new(self.alloc);
        for request in &self.requests {
            if request.who.session == session {
                requests.push(request.clone()?)?;
            }
        }
        Ok(requests)
    }

    /// All of a session goes, and what that lets through is granted at this length. Out of memory in the pass, the
    /// requests that it hadn't come to wait on.
    pub fn drop_session(&mut self, session: u64, at: u64) -> Result<Grants, AllocError>
        ensures ok { OnOk result (self.new ≡ (without_session self.old session at).locks) }
        ensures grants { IfOk result (λ grants. grants ≡ (without_session self.old session at).grants) }
        ensures err { OnErr result (IsCutShort (with_session_gone self.old session) at self.new) }
    {
        self.holds.drop_session(session);
        drop_session(&mut self.requests, session);
        self.granted.drop_session(session);
        self.pass(at)
    }

    /// A claim joins what is held, if no hold of another holder conflicts. After an error the table is as it was.
    pub fn claim(&mut self, hold: Hold) -> Result<(), ClaimError>
        requires room { HasRoom self.old hold.who hold.name hold.mode hold.count }
        ensures ok { OnOk result (self.new ≡ claimed self.old hold.who hold.name hold.mode hold.count hold.at) }
        ensures free { OnOk result (list_any (is_barred hold.who hold.name hold.mode) self.old.holds ≡ false) }
        ensures conflict { IfErr result (IsRefusal self.old hold) }
        ensures err { OnErr result (self.new ≡ self.old) }
    {
        let held = self.holds.first_barring(hold.who, &hold.name, hold.mode);
        match held {
            Err(error) => Err(ClaimError::Memory(error)),
            Ok(Some(held)) => Err(ClaimError::Conflict {
                held,
                claimed: hold,
            }),
            Ok(None) => self.join(hold).map_err(ClaimError::Memory),
        }
    }

    /// A claim joins what is held. Out of memory, nothing changes.
    fn join(&mut self, hold: Hold) -> Result<(), AllocError>
        requires room { HasRoom self.old hold.who hold.name hold.mode hold.count }
        ensures ok { OnOk result (self.new ≡ claimed self.old hold.who hold.name hold.mode hold.count hold.at) }
        ensures err { OnErr result (self.new ≡ self.old) }
    {
        self.holds.raise(hold)?;
        Ok(())
    }

    /// Goes through the waiting requests once, in their order, and grants each that then doesn't wait.
    fn pass(&mut self, at: u64) -> Result<Grants, AllocError>
        ensures ok { OnOk result (self.new ≡ (passed self.old at).locks) }
        ensures grants { IfOk result (λ grants. grants ≡ (passed self.old at).grants) }
        ensures err { OnErr result (IsCutShort self.old at self.new) }
    {
        let mut grants = Grants::new(self.alloc);
        let mut place = 0;
        for _turn in 0..self.requests.len() {
            let must_wait = self.waits_at(place)?;
            if must_wait {
                place += 1;
            } else {
                let request = self.grant_at(place, at)?;
                grants.push(request)?;
            }
        }
        Ok(grants)
    }

    /// Whether the request at this place waits behind those before it.
    fn waits_at(&self, place: usize) -> Result<bool, AllocError>
        requires { place < length self.now.requests }
        ensures { IfOk result (λ answer. (d : Request) → answer
            ≡ waits self.now.holds (take place self.now.requests) (slice_index_or self.now.requests place d)) }
    {
        let requests = self.requests.as_slice();
        waits(&self.holds, &requests[..place], &requests[place])
    }

    /// Grants the waiting request at this place, and gives it out. Out of memory, nothing changes.
    fn grant_at(&mut self, place: usize, at: u64) -> Result<Request, AllocError>
        requires { place < length self.old.requests }
        ensures value { IfOk result (λ request. request ≡ slice_index_or self.old.requests place request) }
        ensures ok { IfOk result (λ request. self.new
            ≡ record (with_grant self.old request at) { requests = remove self.old.requests place }) }
        ensures err { OnErr result (self.new ≡ self.old) }
    {
        let request = self.requests[place].clone()?;
        grant(&mut self.holds, &mut self.granted, request, at)?;
        Ok(self.requests.remove(place))
    }
}

/// Whether a request waits behind these holds and these earlier requests.
fn waits(holds: &Holds, earlier: &[Request], request: &Request) -> Result<bool, AllocError>
    ensures { IfOk result (λ answer. answer ≡ waits holds.now earlier.now request.now) }
{
    let bars = holds.bar(request.who, &request.name, request.mode)?;
    if bars {
        return Ok(true);
    }
    let exclusive = holds.have(request.who, &request.name, Mode::Exclusive);
    let shared = holds.have(request.who, &request.name, Mode::Shared);
    if exclusive || shared {
        return Ok(false);
    }
    Ok(is_behind(request, earlier))
}

/// Whether a request of another holder that came earlier conflicts.
fn is_behind(request: &Request, earlier: &[Request]) -> bool
    ensures { result ≡ list_any (goes_before request.now) earlier.now }
{
    earlier.iter().any(|other| {
        !is_same_who(request.who, other.who)
            && is_conflict(request.mode, &request.name, other.mode, &other.name)
    })
}

/// A request is granted at this length. Out of memory, nothing changes.
fn grant(
    holds: &mut Holds,
    granted: &mut TicketList<Request>,
    request: Request,
    at: u64,
) -> Result<(), AllocError>
    requires { held_count request.who request.name request.mode holds.old + 1 < 2 ^ 32 }
    ensures holds { OnOk result (holds.new ≡ raised request.who request.name request.mode 1 at holds.old) }
    ensures granted { OnOk result (granted.new ≡ granted.old ++ request ∷ []) }
    ensures same_holds { OnErr result (holds.new ≡ holds.old) }
    ensures same_granted { OnErr result (granted.new ≡ granted.old) }
{
    let hold = Hold {
        who: request.who,
        name: request.name.clone()?,
        mode: request.mode,
        count: 1,
        at,
    };
    granted.push(request)?;
    let raised = holds.raise(hold);
    if raised.is_err() {
        granted.drop_last();
    }
    raised
}
