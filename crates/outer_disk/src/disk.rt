ghost use Rattle.std.specs.Prelude.{◌≡◌, ℕ, ◌+◌, ◌<◌, ◌≤◌, List, length, take, drop, Option, IfOk, IfErr, IfSome, OnOk, OnErr, option_map};
ghost use Rattle.std.specs.Option.{ForSome};
ghost use Rattle.outer_io.specs.Causes.{HasCause, Rose};
ghost use Rattle.outer_disk.specs.Counts.{Counts};
ghost use Rattle.outer_disk.specs.Disk.{written, Torn, Cut, Follows, LeavesNoMore, IsSynced, Matched, Elapses, RoseBy};

use outer_io::{Failed, Stop};

/// A disk: one row of bytes that a crash may damage. Between two syncs each written range, and the part past
/// the old end, may hold any bytes after a crash; other bytes stay.
pub trait Disk {
    /// The bytes that a read gives, where it tells.
    ghost told: { Self → Option (List ℕ) };

    /// What a crash at this moment may leave.
    ghost may_leave: { Self → List ℕ → Type 0 };

    /// The moment, as a number that doesn't fall in a call.
    ghost moment: { Self → ℕ };

    /// What a crash at some moment from that one on might have left, during a call or between two.
    ghost left_since: { Self → ℕ → List ℕ → Type 0 };

    /// What it counts.
    ghost counts: { Self → Counts };

    /// How many bytes it has.
    fn len(&mut self) -> Result<u64, Failed>
        ensures value { IfOk result (λ n. IfSome (told self.old) (λ bytes. n ≡ length bytes)) }
        ensures same { told self.new ≡ told self.old }
        ensures crash { LeavesNoMore (may_leave self.old) (may_leave self.new) }
        ensures time { Elapses (moment self.old) (moment self.new)
            (left_since self.old) (left_since self.new) (may_leave self.new) }
        ensures cause { HasCause (counts self.old).faults (counts self.new).faults result }
        ensures memory { (counts self.new).out_of_memory ≡ (counts self.old).out_of_memory }
        ensures counted { RoseBy 1 (counts self.old).calls (counts self.new).calls };

    /// Fills `buf` with the bytes from `at` on. After an `Err` any bytes may stand in `buf`.
    fn read(&mut self, at: u64, buf: &mut [u8]) -> Result<(), Failed>
        requires room { 0 < length buf.old }
        requires within { ForSome (told self.old) (λ bytes. at + length buf.old ≤ length bytes) }
        ensures ok { OnOk result (IfSome (told self.old) (λ bytes.
            buf.new ≡ take (length buf.old) (drop at bytes))) }
        ensures same { told self.new ≡ told self.old }
        ensures crash { LeavesNoMore (may_leave self.old) (may_leave self.new) }
        ensures time { Elapses (moment self.old) (moment self.new)
            (left_since self.old) (left_since self.new) (may_leave self.new) }
        ensures cause { HasCause (counts self.old).faults (counts self.new).faults result }
        ensures memory { (counts self.new).out_of_memory ≡ (counts self.old).out_of_memory }
        ensures counted { RoseBy 1 (counts self.old).calls (counts self.new).calls };

    /// Writes over what is there, and past the end. After an `Err` any bytes may stand in the range, whole or
    /// cut short. Until a sync, a crash may leave any bytes there.
    fn write_at(&mut self, at: u64, part: &[u8]) -> Result<(), Stop>
        requires piece { 0 < length part.now }
        requires within { ForSome (told self.old) (λ bytes. at ≤ length bytes) }
        ensures ok { OnOk result (told self.new
            ≡ option_map (λ bytes. written bytes at part.now) (told self.old)) }
        ensures err { OnErr result (Matched (Torn at (length part.now))
            (told self.old) (told self.new)) }
        ensures crash { Follows (Torn at (length part.now))
            (may_leave self.old) (may_leave self.new) }
        ensures time { Elapses (moment self.old) (moment self.new)
            (left_since self.old) (left_since self.new) (may_leave self.new) }
        ensures faults { (counts self.old).faults ≤ (counts self.new).faults }
        ensures failed { IfErr result (λ stop. stop ≡ Stop.Failed
            → Rose (counts self.old).faults (counts self.new).faults) }
        ensures memory { (counts self.old).out_of_memory ≤ (counts self.new).out_of_memory }
        ensures out_of_memory { IfErr result (λ stop. stop ≡ Stop.Memory
            → Rose (counts self.old).out_of_memory (counts self.new).out_of_memory) }
        ensures counted { RoseBy 1 (counts self.old).calls (counts self.new).calls };

    /// Cuts it to a length. After an `Err` any part of what stood behind may be gone, from the end. Until a
    /// sync, a crash may leave any front of it.
    fn cut(&mut self, to: u64) -> Result<(), Stop>
        requires { ForSome (told self.old) (λ bytes. to ≤ length bytes) }
        ensures ok { OnOk result (told self.new ≡ option_map (take to) (told self.old)) }
        ensures err { OnErr result (Matched (Cut to) (told self.old) (told self.new)) }
        ensures crash { Follows (Cut to) (may_leave self.old) (may_leave self.new) }
        ensures time { Elapses (moment self.old) (moment self.new)
            (left_since self.old) (left_since self.new) (may_leave self.new) }
        ensures faults { (counts self.old).faults ≤ (counts self.new).faults }
        ensures failed { IfErr result (λ stop. stop ≡ Stop.Failed
            → Rose (counts self.old).faults (counts self.new).faults) }
        ensures memory { (counts self.old).out_of_memory ≤ (counts self.new).out_of_memory }
        ensures out_of_memory { IfErr result (λ stop. stop ≡ Stop.Memory
            → Rose (counts self.old).out_of_memory (counts self.new).out_of_memory) }
        ensures counted { RoseBy 1 (counts self.old).calls (counts self.new).calls };

    /// After it a crash leaves what a read gives. One that fails loses nothing.
    fn sync(&mut self) -> Result<(), Stop>
        ensures ok { OnOk result (IsSynced (told self.new) (may_leave self.new)) }
        ensures same { told self.new ≡ told self.old }
        ensures crash { LeavesNoMore (may_leave self.old) (may_leave self.new) }
        ensures time { Elapses (moment self.old) (moment self.new)
            (left_since self.old) (left_since self.new) (may_leave self.new) }
        ensures faults { (counts self.old).faults ≤ (counts self.new).faults }
        ensures failed { IfErr result (λ stop. stop ≡ Stop.Failed
            → Rose (counts self.old).faults (counts self.new).faults) }
        ensures memory { (counts self.old).out_of_memory ≤ (counts self.new).out_of_memory }
        ensures out_of_memory { IfErr result (λ stop. stop ≡ Stop.Memory
            → Rose (counts self.old).out_of_memory (counts self.new).out_of_memory) }
        ensures counted { RoseBy 1 (counts self.old).calls (counts self.new).calls };

    /// This moment is one of those since an earlier one.
    ghost counts_now: { (disk : Self) (t : ℕ) (c : List ℕ) → t ≤ moment disk
        → may_leave disk c → left_since disk t c };

    /// Since this moment there is no other.
    ghost only_now: { (disk : Self) (c : List ℕ) → left_since disk (moment disk) c
        → may_leave disk c };
}
