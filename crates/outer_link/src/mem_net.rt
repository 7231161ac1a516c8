ghost use Rattle.std.specs.Prelude.{◌≡◌, IfOk, if◌then◌else◌, length};
ghost use Rattle.outer_io.specs.Plan.{is_due};
ghost use Rattle.outer_io.specs.InMemory.{fresh_plan};
ghost use Rattle.outer_link.specs.Counts.{NoneFell, no_counts, with_fault};
ghost use Rattle.outer_link.specs.NetState.{called};
ghost use Rattle.outer_link.specs.Told.{fresh_told};

use crate::conn_table::ConnTable;
use crate::end::End;
use crate::moved::{Put, Took};
use crate::net::Net;
use crate::net_counts::NetCounts;
use outer_io::{Failed, FaultPlan, Stop};
use std::alloc::{AllocError, Global};
use std::marker::Model;

/// A net in memory, with both ends of each connection. It tells all, never holds back what is there, and
/// fails at the listed calls, and at a connect that can't be made. The calls that may fail are counted from 0.
#[derive(Drop)]
pub struct MemNet {
    table: ConnTable,
    counts: NetCounts,
    plan: FaultPlan,
}

impl Model for MemNet {
    ghost use Rattle.outer_link.specs.NetState.{NetState};

    ghost Value = { NetState };

    ghost view = { λ n. record {
      apps = n.table.apps;
      told = n.table.told;
      counts = n.counts;
      plan = n.plan;
    } };
}

impl MemNet {
    /// A net that joins so many application servers and data servers. Its calls with the numbers in `fail`
    /// fail.
    pub fn new(alloc: Global, apps: u8, servers: u8, fail: Vec<u64>) -> Result<MemNet, AllocError>
        ensures apps { IfOk result (λ n. n.apps ≡ apps) }
        ensures told { IfOk result (λ n. n.told ≡ fresh_told apps servers) }
        ensures counts { IfOk result (λ n. n.counts ≡ no_counts) }
        ensures plan { IfOk result (λ n. n.plan ≡ fresh_plan fail.items) }
    {
        Ok(MemNet {
            table: ConnTable::new(alloc, apps, servers)?,
            counts: NetCounts::new(),
            plan: FaultPlan::new(fail),
        })
    }

    /// How many application servers it joins.
    pub fn apps(&self) -> u8
        ensures { result ≡ self.now.apps }
    {
        self.table.apps()
    }

    /// How many data servers it joins.
    pub fn servers(&self) -> usize
        ensures { result ≡ length self.now.told.servers }
    {
        self.table.servers()
    }

    /// How many connections were made. Their numbers are those below.
    pub fn made(&self) -> usize
        ensures { result ≡ length self.now.told.conns }
    {
        self.table.made()
    }

    /// Counts a call that is no connect, and answers whether it is to fail.
    fn fails(&mut self) -> bool
        ensures due { result ≡ is_due self.old.plan }
        ensures next { self.new ≡ called self.old self.old.told
            (if result then with_fault self.old.counts else self.old.counts) }
        ensures counts { NoneFell self.old.counts self.new.counts }
    {
        let is_due = self.plan.is_next_to_fail();
        if is_due {
            self.counts.add_fault();
        }
        is_due
    }
}

impl Net for MemNet {
    ghost use Rattle.std.specs.Prelude.{◌≡◌, ℕ, ◌<◌, ◌⊎◌, ◌↔◌, ◌==◌, [], Some, None, true, false, IsTrue, IsErr, IfOk, IfErr, IfSome, OnOk, OnErr, MatchResult, length, position};
    ghost use Rattle.outer_io.specs.Plan.{is_due};
    ghost use Rattle.outer_link.specs.Counts.{NoneFell, with_fault, with_failed, with_idle_put, with_idle_take};
    ghost use Rattle.outer_link.specs.Marks.{Keeps, Marked, IsAccepted, IsConnected, marks_of, of_pair, of_server, or_cut, parted_with};
    ghost use Rattle.outer_link.specs.Net.{PutAs, PutSome, TookAs, TookWithin};
    ghost use Rattle.outer_link.specs.NetState.{called, faulted, is_refused, shape_of};
    ghost use Rattle.outer_link.specs.TableState.{answer_to_take};
    ghost use Rattle.outer_link.specs.Told.{after_listen, after_shut, after_part, after_join, after_connect, after_accept, after_put, after_cut, is_cut_at, is_parted, is_waiting, undelivered};

    ghost told = { λ n. Some n.told };

    ghost shape = { shape_of };

    ghost counts = { λ n. n.counts };

    ghost marks = { λ n. marks_of n.told };

    ghost agrees = { λ n t e. Prim.cc };

    fn listen(&mut self, server: u8) -> Result<(), Stop>
        requires { server < length self.old.told.servers }
        ensures due { IsErr result ↔ IsTrue (is_due self.old.plan) }
        ensures ok { OnOk result (self.new
            ≡ called self.old (after_listen self.old.told server) self.old.counts) }
        ensures failed { IfErr result (λ stop. stop ≡ Stop.Failed) }
        ensures err { OnErr result (self.new ≡ faulted self.old) }
        ensures counts { NoneFell self.old.counts self.new.counts }
        ensures marks { Keeps (marks_of self.old.told) (marks_of self.new.told) }
        ensures shape { shape_of self.new ≡ shape_of self.old }
    {
        if self.fails() {
            return Err(Stop::Failed);
        }
        self.table.listen(server);
        Ok(())
    }

    fn shut(&mut self, server: u8)
        requires { server < length self.old.told.servers }
        ensures next { self.new ≡ record self.old { told = after_shut self.old.told server } }
        ensures counts { NoneFell self.old.counts self.new.counts }
        ensures marks { let old = marks_of self.old.told in
            Marked old (or_cut old (of_server old server)) old.parted (marks_of self.new.told) }
        ensures shape { shape_of self.new ≡ shape_of self.old }
    {
        self.table.shut(server);
    }

    fn part(&mut self, app: u8, server: u8)
        requires app { app < self.old.apps }
        requires server { server < length self.old.told.servers }
        ensures next { self.new ≡ record self.old { told = after_part self.old.told app server } }
        ensures counts { NoneFell self.old.counts self.new.counts }
        ensures marks { let old = marks_of self.old.told in
            Marked old (or_cut old (of_pair old app server)) (parted_with old app server true)
            (marks_of self.new.told) }
        ensures shape { shape_of self.new ≡ shape_of self.old }
    {
        self.table.part(app, server);
    }

    fn join(&mut self, app: u8, server: u8)
        requires app { app < self.old.apps }
        requires server { server < length self.old.told.servers }
        ensures next { self.new ≡ record self.old { told = after_join self.old.told app server } }
        ensures counts { NoneFell self.old.counts self.new.counts }
        ensures marks { let old = marks_of self.old.told in
            Marked old old.cut (parted_with old app server false) (marks_of self.new.told) }
        ensures shape { shape_of self.new ≡ shape_of self.old }
    {
        self.table.join(app, server);
    }

    fn connect(&mut self, app: u8, server: u8) -> Result<u32, Stop>
        requires app { app < self.old.apps }
        requires server { server < length self.old.told.servers }
        ensures refused { (result ≡ Err Stop.Failed) ↔ IsTrue (is_refused self.old app server) }
        ensures number { IfOk result (λ n. n ≡ length self.old.told.conns) }
        ensures ok { OnOk result (self.new
            ≡ called self.old (after_connect self.old.told app server) self.old.counts) }
        ensures failed { result ≡ Err Stop.Failed
            → self.new ≡ called self.old self.old.told (with_failed self.old.counts) }
        ensures memory { result ≡ Err Stop.Memory
            → self.new ≡ called self.old self.old.told self.old.counts }
        ensures new_number { IfOk result
            (IsConnected (marks_of self.old.told) (marks_of self.new.told) app server) }
        ensures counts { NoneFell self.old.counts self.new.counts }
        ensures marks { Keeps (marks_of self.old.told) (marks_of self.new.told) }
        ensures shape { shape_of self.new ≡ shape_of self.old }
    {
        let is_due = self.plan.is_next_to_fail();
        if is_due || !self.table.is_open(app, server) {
            self.counts.add_failed();
            return Err(Stop::Failed);
        }
        match self.table.connect(app, server) {
            Ok(number) => Ok(number),
            Err(_) => Err(Stop::Memory),
        }
    }

    fn accept(&mut self, server: u8) -> Result<Option<u32>, Stop>
        requires { server < length self.old.told.servers }
        ensures due { IsErr result ↔ IsTrue (is_due self.old.plan) }
        ensures some { IfOk result (λ got. IfSome got (λ n.
            (position (is_waiting server) self.old.told.conns ≡ Some n)
            × (self.new ≡ called self.old (after_accept self.old.told n) self.old.counts))) }
        ensures none { result ≡ Ok None → (position (is_waiting server) self.old.told.conns ≡ None)
            × (self.new ≡ called self.old self.old.told (with_idle_put self.old.counts)) }
        ensures failed { IfErr result (λ stop. stop ≡ Stop.Failed) }
        ensures err { OnErr result (self.new ≡ faulted self.old) }
        ensures new_number { IfOk result (λ got. IfSome got
            (IsAccepted (marks_of self.old.told) (marks_of self.new.told) server)) }
        ensures uncut { IfOk result (λ got. IfSome got (λ n. is_cut_at self.new.told n ≡ false)) }
        ensures counts { NoneFell self.old.counts self.new.counts }
        ensures marks { Keeps (marks_of self.old.told) (marks_of self.new.told) }
        ensures shape { shape_of self.new ≡ shape_of self.old }
    {
        if self.fails() {
            return Err(Stop::Failed);
        }
        match self.table.accept(server) {
            None => {
                self.counts.add_idle_put();
                Ok(None)
            }
            Some(number) => Ok(Some(number)),
        }
    }

    fn put(&mut self, conn: u32, end: End, part: &[u8]) -> Result<Put, Stop>
        requires known { conn < length self.old.told.conns }
        requires some { 0 < length part.now }
        ensures due { (result ≡ Err Stop.Failed) ↔ IsTrue (is_due self.old.plan) }
        ensures whole { IfOk result (λ put. put ≡ Put.Bytes (length part.now)) }
        ensures ok { OnOk result (self.new
            ≡ called self.old (after_put self.old.told conn end part.now) self.old.counts) }
        ensures failed { result ≡ Err Stop.Failed
            → self.new ≡ faulted self.old }
        ensures memory { result ≡ Err Stop.Memory
            → self.new ≡ called self.old self.old.told self.old.counts }
        ensures told { MatchResult result (PutAs self.old.told self.new.told conn end part.now)
            (λ _. PutSome self.old.told self.new.told conn end part.now) }
        ensures counts { NoneFell self.old.counts self.new.counts }
        ensures marks { Keeps (marks_of self.old.told) (marks_of self.new.told) }
        ensures shape { shape_of self.new ≡ shape_of self.old }
    {
        if self.fails() {
            return Err(Stop::Failed);
        }
        let Ok(()) = self.table.put(conn, end, part) else {
            return Err(Stop::Memory);
        };
        Ok(Put::Bytes(part.len()))
    }

    fn take(&mut self, conn: u32, end: End, buf: &mut [u8]) -> Result<Took, Failed>
        requires known { conn < length self.old.told.conns }
        requires some { 0 < length buf.old }
        ensures due { IsErr result ↔ IsTrue (is_due self.old.plan) }
        ensures answer { IfOk result (λ took.
            took ≡ answer_to_take self.old.told conn end (length buf.old)) }
        ensures told { MatchResult result (TookAs self.old.told self.new.told conn end buf.new)
            (λ _. self.new.told ≡ self.old.told) }
        ensures err { OnErr result (self.new ≡ faulted self.old) }
        ensures none { result ≡ Ok Took.NotNow → (undelivered self.old.told conn end ≡ [])
            × (self.new ≡ called self.old self.old.told (with_idle_take self.old.counts)) }
        ensures ended { (result ≡ Ok Took.Ended)
            ↔ (IsTrue (is_cut_at self.old.told conn) × (is_due self.old.plan ≡ false)) }
        ensures within { IfOk result (TookWithin (length buf.old)) }
        ensures counts { NoneFell self.old.counts self.new.counts }
        ensures marks { Keeps (marks_of self.old.told) (marks_of self.new.told) }
        ensures shape { shape_of self.new ≡ shape_of self.old }
    {
        if self.fails() {
            return Err(Failed);
        }
        let took = self.table.take(conn, end, buf);
        if took == Took::NotNow {
            self.counts.add_idle_take();
        }
        Ok(took)
    }

    fn cut(&mut self, conn: u32, _end: End)
        requires { conn < length self.old.told.conns }
        ensures next { self.new ≡ record self.old { told = after_cut self.old.told conn } }
        ensures counts { NoneFell self.old.counts self.new.counts }
        ensures marks { let old = marks_of self.old.told in
            Marked old (or_cut old (λ n. n == conn)) old.parted (marks_of self.new.told) }
        ensures shape { shape_of self.new ≡ shape_of self.old }
    {
        self.table.cut(conn);
    }

    fn wait(&mut self)
        ensures next { self.new ≡ self.old }
        ensures counts { NoneFell self.old.counts self.new.counts }
        ensures marks { Keeps (marks_of self.old.told) (marks_of self.new.told) }
    {}

    fn failed(&self) -> u64 {
        self.counts.failed()
    }
}
