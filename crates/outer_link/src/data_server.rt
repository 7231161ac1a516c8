ghost use Rattle.std.specs.Prelude.{◌≡◌, ◌<◌, true, false, not, ◌&&◌, length, map, slice_get, unwrap_or, IfOk};
ghost use Rattle.outer_link.specs.ServerState.{fresh_server, reach_of, has_cut, shut_server, parted_server, joined_server};

use std::alloc::{AllocError, Global};
use std::marker::Model;

/// A data server and one application server.
#[derive(Clone, Copy)]
pub struct Pair {
    parted: bool,
    /// How many connections had been made when those of this pair were last cut.
    cut_before: usize,
}

/// What the net in memory keeps of a data server. Connections are cut all at once by a count: a connection
/// made after fewer others than there were at the last cut is one of those that were cut.
#[derive(Drop)]
pub struct DataServer {
    listens: bool,
    cut_before: usize,
    /// How many connections, from the front, do not wait here.
    seen: usize,
    pairs: Vec<Pair>,
}

impl Model for DataServer {
    ghost use Rattle.outer_link.specs.ServerState.{ServerState};

    ghost Value = { ServerState };

    ghost view = { λ s. record {
      listens = s.listens;
      cut_before = s.cut_before;
      seen = s.seen;
      pairs = s.pairs.items;
    } };
}

impl DataServer {
    /// A data server that doesn't listen, apart from none of so many application servers.
    pub fn new(alloc: Global, apps: u8) -> Result<DataServer, AllocError>
        ensures { IfOk result (λ s. s ≡ fresh_server apps) }
    {
        let pair = Pair {
            parted: false,
            cut_before: 0,
        };
        Ok(DataServer {
            listens: false,
            cut_before: 0,
            seen: 0,
            pairs: vec![in alloc; pair; apps as usize]?,
        })
    }

    pub fn listen(&mut self)
        ensures { self.new ≡ record self.old { listens = true } }
    {
        self.listens = true;
    }

    /// Cuts all of its connections, `made` being how many were made in all, and listens no more.
    pub fn shut(&mut self, made: usize)
        ensures { self.new ≡ shut_server self.old made }
    {
        self.listens = false;
        self.cut_before = made;
    }

    /// Cuts all connections of the pair, `made` being how many were made in all, and keeps it apart.
    pub fn part(&mut self, app: u8, made: usize)
        requires { app < length self.old.pairs }
        ensures { self.new ≡ parted_server self.old app made }
    {
        self.pairs[app as usize] = Pair {
            parted: true,
            cut_before: made,
        };
    }

    pub fn join(&mut self, app: u8)
        requires { app < length self.old.pairs }
        ensures { self.new ≡ joined_server self.old app }
    {
        let pair = self.pairs[app as usize];
        self.pairs[app as usize] = Pair {
            parted: false,
            cut_before: pair.cut_before,
        };
    }

    /// Whether this application server may connect.
    pub fn is_open(&self, app: u8) -> bool
        requires { app < length self.now.pairs }
        ensures { let told = reach_of self.now in
            result ≡ told.listens && not (unwrap_or (slice_get told.parted app) false) }
    {
        let pair = self.pairs[app as usize];
        self.listens && !pair.parted
    }

    /// Whether a connection from this application server, made after so many others, was cut with its pair
    /// or with all of this data server.
    pub fn has_cut(&self, app: u8, made: usize) -> bool
        ensures { result ≡ has_cut self.now app made }
    {
        made < self.cut_before
            || self
                .pairs
                .get(app as usize)
                .is_some_and(|pair| made < pair.cut_before)
    }

    pub fn seen(&self) -> usize
        ensures { result ≡ self.now.seen }
    {
        self.seen
    }

    /// Notes that the first `seen` connections do not wait here.
    pub fn see(&mut self, seen: usize)
        ensures { self.new ≡ record self.old { seen = seen } }
    {
        self.seen = seen;
    }
}
