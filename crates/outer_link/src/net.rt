ghost use Rattle.std.specs.Prelude.{◌≡◌, ◌≢◌, ℕ, ◌<◌, ◌⊎◌, Option, None, Some, true, false, ◌==◌, [], length, position, if◌then◌else◌, is_ok, IsErr, IfOk, IfErr, IfSome, OnErr, MatchResult};
ghost use Rattle.outer_io.specs.Causes.{Rose};
ghost use Rattle.outer_link.specs.Counts.{Counts, NoneFell};
ghost use Rattle.outer_link.specs.Marks.{Marks, Marked, Keeps, or_cut, of_server, of_pair, parted_with, IsConnected, IsAccepted, marks_of};
ghost use Rattle.outer_link.specs.Net.{Shape, IfTold, AcceptedAs, PutAs, PutSome, PutWithin, TookAs, TookWithin};
ghost use Rattle.outer_link.specs.Told.{Told, after_listen, after_shut, after_part, after_join, after_connect, after_cut, is_open, is_waiting, undelivered};

use crate::end::End;
use crate::moved::{Put, Took};
use outer_io::{Failed, Stop};

/// Connections between application servers and data servers. A connection carries bytes in both directions, in
/// order. A call about a connection names one that a `connect` or an `accept` answered.
pub trait Net {
    /// What stands on its connections, where it tells.
    ghost told: { Self → Option Told };

    /// How many application servers and data servers it joins, and whether it may hold back what is there.
    ghost shape: { Self → Shape };

    /// What it counts.
    ghost counts: { Self → Counts };

    /// What is known of each connection number.
    ghost marks: { Self → Marks };

    /// Lets the server accept connections.
    fn listen(&mut self, server: u8) -> Result<(), Stop>
        requires { server < (shape self.old).servers }
        ensures told { IfTold (told self.old) (told self.new) (λ t now.
            now ≡ (if is_ok result then after_listen t server else t)) }
        ensures failed { IfErr result (λ stop. stop ≡ Stop.Failed
            → Rose (counts self.old).faults (counts self.new).faults) }
        ensures counts { NoneFell (counts self.old) (counts self.new) }
        ensures marks { Keeps (marks self.old) (marks self.new) }
        ensures shape { shape self.new ≡ shape self.old };

    /// Ends the server's connections, and accepts no more.
    fn shut(&mut self, server: u8)
        requires { server < (shape self.old).servers }
        ensures told { IfTold (told self.old) (told self.new) (λ t now. now ≡ after_shut t server) }
        ensures counts { NoneFell (counts self.old) (counts self.new) }
        ensures marks { Marked (marks self.old)
            (or_cut (marks self.old) (of_server (marks self.old) server))
            (marks self.old).parted (marks self.new) }
        ensures shape { shape self.new ≡ shape self.old };

    /// Ends the pair's connections, and keeps the pair apart.
    fn part(&mut self, app: u8, server: u8)
        requires app { app < (shape self.old).apps }
        requires server { server < (shape self.old).servers }
        ensures told { IfTold (told self.old) (told self.new) (λ t now.
            now ≡ after_part t app server) }
        ensures counts { NoneFell (counts self.old) (counts self.new) }
        ensures marks { Marked (marks self.old)
            (or_cut (marks self.old) (of_pair (marks self.old) app server))
            (parted_with (marks self.old) app server true) (marks self.new) }
        ensures shape { shape self.new ≡ shape self.old };

    /// Lets the pair connect again.
    fn join(&mut self, app: u8, server: u8)
        requires app { app < (shape self.old).apps }
        requires server { server < (shape self.old).servers }
        ensures told { IfTold (told self.old) (told self.new) (λ t now.
            now ≡ after_join t app server) }
        ensures counts { NoneFell (counts self.old) (counts self.new) }
        ensures marks { Marked (marks self.old) (marks self.old).cut
            (parted_with (marks self.old) app server false) (marks self.new) }
        ensures shape { shape self.new ≡ shape self.old };

    /// Makes a connection, and answers its number, which no connect answered before. A pair that is parted and
    /// a server that doesn't listen are refused. Where no number is left it answers as where there is no memory.
    fn connect(&mut self, app: u8, server: u8) -> Result<u32, Stop>
        requires app { app < (shape self.old).apps }
        requires server { server < (shape self.old).servers }
        ensures told { IfTold (told self.old) (told self.new) (λ t now. MatchResult result
            (λ n. (n ≡ length t.conns) × (now ≡ after_connect t app server)) (λ _. now ≡ t)) }
        ensures refused { IfTold (told self.old) (told self.new) (λ t _.
            is_open t app server ≡ false → result ≡ Err Stop.Failed) }
        ensures parted { (marks self.old).parted app server ≡ true → result ≡ Err Stop.Failed }
        ensures new_number { IfOk result
            (IsConnected (marks self.old) (marks self.new) app server) }
        ensures failed { IfErr result (λ stop. stop ≡ Stop.Failed
            → Rose (counts self.old).failed (counts self.new).failed) }
        ensures counts { NoneFell (counts self.old) (counts self.new) }
        ensures marks { Keeps (marks self.old) (marks self.new) }
        ensures shape { shape self.new ≡ shape self.old };

    /// The number of the server's oldest connection that waits, where one is there; no accept answered it
    /// before. Where no number is left it answers as where there is no memory.
    fn accept(&mut self, server: u8) -> Result<Option<u32>, Stop>
        requires { server < (shape self.old).servers }
        ensures told { IfTold (told self.old) (told self.new) (λ t now. MatchResult result
            (AcceptedAs t now server) (λ _. now ≡ t)) }
        ensures free { (shape self.old).holds_back ≡ false → result ≡ Ok None
            → IfTold (told self.old) (told self.new) (λ t _. position (is_waiting server) t.conns ≡ None) }
        ensures new_number { IfOk result (λ got. IfSome got
            (IsAccepted (marks self.old) (marks self.new) server)) }
        ensures uncut { (shape self.old).holds_back ≡ false
            → IfOk result (λ got. IfSome got (λ n. (marks self.new).cut n ≡ false)) }
        ensures none { result ≡ Ok None
            → Rose (counts self.old).idle_puts (counts self.new).idle_puts }
        ensures failed { IfErr result (λ stop. stop ≡ Stop.Failed
            → Rose (counts self.old).faults (counts self.new).faults) }
        ensures counts { NoneFell (counts self.old) (counts self.new) }
        ensures marks { Keeps (marks self.old) (marks self.new) }
        ensures shape { shape self.new ≡ shape self.old };

    /// Puts bytes from the front of `part` at this end, and answers how many. On a connection that is cut they
    /// are lost. Where it stops it may have put some of them.
    fn put(&mut self, conn: u32, end: End, part: &[u8]) -> Result<Put, Stop>
        requires known { (marks self.old).known conn ≡ true }
        requires some { 0 < length part.now }
        ensures told { IfTold (told self.old) (told self.new) (λ t now. MatchResult result
            (PutAs t now conn end part.now) (λ _. PutSome t now conn end part.now)) }
        ensures within { IfOk result (PutWithin (length part.now)) }
        ensures free { (shape self.old).holds_back ≡ false → result ≢ Ok Put.NotNow }
        ensures not_now { result ≡ Ok Put.NotNow
            → Rose (counts self.old).idle_puts (counts self.new).idle_puts }
        ensures failed { IfErr result (λ stop. stop ≡ Stop.Failed
            → Rose (counts self.old).faults (counts self.new).faults) }
        ensures counts { NoneFell (counts self.old) (counts self.new) }
        ensures marks { Keeps (marks self.old) (marks self.new) }
        ensures shape { shape self.new ≡ shape self.old };

    /// Moves bytes that were put at the other end into `buf`, and answers how many. A connection has ended only
    /// where this net was told to cut it, to part its pair or to shut its server, or where it failed.
    fn take(&mut self, conn: u32, end: End, buf: &mut [u8]) -> Result<Took, Failed>
        requires known { (marks self.old).known conn ≡ true }
        requires some { 0 < length buf.old }
        ensures told { IfTold (told self.old) (told self.new) (λ t now. MatchResult result
            (TookAs t now conn end buf.new) (λ _. now ≡ t)) }
        ensures within { IfOk result (TookWithin (length buf.old)) }
        ensures free { (shape self.old).holds_back ≡ false → result ≡ Ok Took.NotNow
            → IfTold (told self.old) (told self.new) (λ t _. undelivered t conn end ≡ []) }
        ensures cut { (shape self.old).holds_back ≡ false → (marks self.old).cut conn ≡ true
            → IfOk result (λ took. took ≡ Took.Ended) }
        ensures ended { result ≡ Ok Took.Ended → ((marks self.old).cut conn ≡ true)
            ⊎ Rose (counts self.old).faults (counts self.new).faults }
        ensures not_now { result ≡ Ok Took.NotNow
            → Rose (counts self.old).idle_takes (counts self.new).idle_takes }
        ensures failed { IsErr result → Rose (counts self.old).faults (counts self.new).faults }
        ensures counts { NoneFell (counts self.old) (counts self.new) }
        ensures marks { Keeps (marks self.old) (marks self.new) }
        ensures shape { shape self.new ≡ shape self.old };

    /// Ends a connection. What is undelivered there is lost in both directions.
    fn cut(&mut self, conn: u32, end: End)
        requires { (marks self.old).known conn ≡ true }
        ensures told { IfTold (told self.old) (told self.new) (λ t now. now ≡ after_cut t conn) }
        ensures counts { NoneFell (counts self.old) (counts self.new) }
        ensures marks { Marked (marks self.old) (or_cut (marks self.old) (λ n. n == conn))
            (marks self.old).parted (marks self.new) }
        ensures shape { shape self.new ≡ shape self.old };

    /// Returns when something may have come. It promises nothing.
    fn wait(&mut self)
        ensures told { IfTold (told self.old) (told self.new) (λ t now. now ≡ t) }
        ensures counts { NoneFell (counts self.old) (counts self.new) }
        ensures marks { Keeps (marks self.old) (marks self.new) }
        ensures shape { shape self.new ≡ shape self.old };

    /// How many connects failed.
    fn failed(&self) -> u64
        ensures { result ≡ (counts self.now).failed };

    /// Of a net that tells, what is known of the numbers is what it tells.
    ghost agrees: { (x : Self) (t : Told) → told x ≡ Some t → marks x ≡ marks_of t };
}
