ghost use Rattle.std.specs.Prelude.{◌≡◌, ◌≤◌, ◌∷◌, [], ◌++◌, length, OnOk, OnErr};
ghost use Rattle.outer_disk.specs.MemDisk.{first_of};

use crate::disk::Disk;
use crate::disk_call::DiskCall;
use crate::disk_faults::DiskFaults;
use crate::image::{image_of, write_into};
use crate::piece::Piece;
use outer_io::{Failed, Stop};
use std::alloc::{AllocError, Global};
use std::marker::Model;

/// A disk over memory. It tells all, fails at the listed calls, and can be made to crash. It keeps the bytes
/// that it had at first and the calls that it has taken since, so its memory grows with what is written.
#[derive(Drop)]
pub struct MemDisk {
    alloc: Global,
    bytes: Vec<u8>,
    // The first bytes, once it has taken a call.
    first: Vec<u8>,
    calls: Vec<DiskCall>,
    faults: DiskFaults,
    out_of_memory: u64,
}

impl Model for MemDisk {
    ghost use Rattle.outer_disk.specs.MemDisk.{DiskState, IsReplay, first_of};

    ghost Value = { DiskState };

    ghost view = { λ d. record {
      first = first_of d.calls.items d.first.items d.bytes.items;
      calls = d.calls.items;
      faults = d.faults;
      out_of_memory = d.out_of_memory;
    } };

    ghost invariant = { λ d. IsReplay d.calls.items d.first.items d.bytes.items };
}

impl MemDisk {
    ghost use Rattle.outer_io.specs.Plan.{one_more};
    ghost use Rattle.outer_disk.specs.Crash.{IsImage};
    ghost use Rattle.outer_disk.specs.Faults.{fresh_faults, after_crash};
    ghost use Rattle.outer_disk.specs.MemDisk.{held, MayLeaveOf};

    /// A disk with these bytes, all of them on the disk. Its calls with the numbers in `fail` fail, counted from
    /// 0, and all its calls from the write with the number `stop` on, until a crash.
    pub fn new(alloc: Global, bytes: Vec<u8>, fail: Vec<u64>, stop: Option<u64>) -> MemDisk
        ensures bytes { result.first ≡ bytes.items }
        ensures calls { result.calls ≡ [] }
        ensures faults { result.faults ≡ fresh_faults fail.items stop }
        ensures memory { result.out_of_memory ≡ 0 }
    {
        MemDisk {
            alloc,
            bytes,
            first: Vec::new(alloc),
            calls: Vec::new(alloc),
            faults: DiskFaults::new(fail, stop),
            out_of_memory: 0,
        }
    }

    /// What a read gives.
    pub fn bytes(&self) -> &[u8]
        ensures { result.now ≡ held self.now }
    {
        self.bytes.as_slice()
    }

    /// Crashes. The image that it leaves is picked by a number: the bytes of the last sync at 0, what a read
    /// gives at 1, and else each byte written since the last sync is, by the rule of the picks, the one that
    /// was written, that of the last sync, or any. The image is on the disk, and a stop ends. After an `Err` all
    /// is as it was.
    pub fn crash(&mut self, pick: u64) -> Result<(), AllocError>
        ensures image { OnOk result (IsImage pick self.old.first self.old.calls (held self.new)) }
        ensures allowed { OnOk result (MayLeaveOf self.old (held self.new)) }
        ensures synced { OnOk result (self.new.calls ≡ []) }
        ensures faults { OnOk result (self.new.faults ≡ after_crash self.old.faults) }
        ensures memory { self.new.out_of_memory ≡ self.old.out_of_memory }
        ensures err { OnErr result (self.new ≡ self.old) }
    {
        let first = first_bytes(&self.calls, &self.first, &self.bytes);
        let image = image_of(self.alloc, pick, first, &self.bytes, &self.calls)?;
        self.bytes = image;
        self.calls.clear();
        self.faults.end_stop();
        Ok(())
    }

    /// Counts a call that ran out of memory.
    fn count_out_of_memory(&mut self)
        ensures { self.new ≡ record self.old { out_of_memory = one_more self.old.out_of_memory } }
    {
        let out_of_memory = self.out_of_memory;
        self.out_of_memory = out_of_memory.saturating_add(1);
    }

    /// Writes, and notes it. After an `Err` all is as it was.
    fn take_write(&mut self, at: u64, part: &[u8]) -> Result<(), AllocError>
        requires { at ≤ length (held self.old) }
        ensures ok { OnOk result (self.new
            ≡ record self.old { calls = self.old.calls ++ DiskCall.Write at part.now ∷ [] }) }
        ensures err { OnErr result (self.new ≡ self.old) }
    {
        keep_first(self.alloc, &self.calls, &mut self.first, &self.bytes)?;
        self.calls.reserve(1)?;
        let piece = Piece::copy_of(self.alloc, part)?;
        write_into(&mut self.bytes, at as usize, part)?;
        self.calls.push(DiskCall::Write { at, part: piece })?;
        Ok(())
    }

    /// Cuts, and notes it. After an `Err` all is as it was.
    fn take_cut(&mut self, to: u64) -> Result<(), AllocError>
        requires { to ≤ length (held self.old) }
        ensures ok { OnOk result (self.new
            ≡ record self.old { calls = self.old.calls ++ DiskCall.Cut to ∷ [] }) }
        ensures err { OnErr result (self.new ≡ self.old) }
    {
        keep_first(self.alloc, &self.calls, &mut self.first, &self.bytes)?;
        self.calls.push(DiskCall::Cut { to })?;
        self.bytes.truncate(to as usize);
        Ok(())
    }

    /// Notes a sync. After an `Err` all is as it was.
    fn take_sync(&mut self) -> Result<(), AllocError>
        ensures ok { OnOk result (self.new
            ≡ record self.old { calls = self.old.calls ++ DiskCall.Sync ∷ [] }) }
        ensures err { OnErr result (self.new ≡ self.old) }
    {
        keep_first(self.alloc, &self.calls, &mut self.first, &self.bytes)?;
        self.calls.push(DiskCall::Sync)?;
        Ok(())
    }
}

impl Disk for MemDisk {
    ghost use Rattle.std.specs.Prelude.{Some, ◌+◌, ◌<◌, ◌↔◌, take, drop, IfErr, IfOk, IsErr, IsTrue};
    ghost use Rattle.outer_io.specs.Causes.{HasCause, Rose};
    ghost use Rattle.outer_disk.specs.Disk.{written, Torn, Cut, Follows, LeavesNoMore, Only, Elapses, RoseBy};
    ghost use Rattle.outer_disk.specs.Faults.{fault_count, fails, write_fails, after_other, after_write};
    ghost use Rattle.outer_disk.specs.MemDisk.{held, counts_of, MayLeaveOf, moment_of, LeftSinceOf, out_of_memory_with};
    ghost use Rattle.outer_disk.specs.MemLaws.{counts_now_of, only_now_of};

    ghost told = { λ d. Some (held d) };

    ghost may_leave = { MayLeaveOf };

    ghost moment = { moment_of };

    ghost left_since = { LeftSinceOf };

    ghost counts = { counts_of };

    ghost counts_now = { counts_now_of };

    ghost only_now = { only_now_of };

    fn len(&mut self) -> Result<u64, Failed>
        ensures value { IfOk result (λ n. n ≡ length (held self.old)) }
        ensures state { self.new ≡ record self.old { faults = after_other self.old.faults } }
        ensures due { IsErr result ↔ IsTrue (fails self.old.faults) }
        ensures crash { LeavesNoMore (MayLeaveOf self.old) (MayLeaveOf self.new) }
        ensures time { Elapses (moment_of self.old) (moment_of self.new)
            (LeftSinceOf self.old) (LeftSinceOf self.new) (MayLeaveOf self.new) }
        ensures cause { HasCause (fault_count self.old.faults)
            (fault_count self.new.faults) result }
        ensures memory { self.new.out_of_memory ≡ self.old.out_of_memory }
        ensures counted { RoseBy 1 self.old.faults.plan.calls
            self.new.faults.plan.calls }
    {
        if self.faults.is_next_to_fail() {
            return Err(Failed);
        }
        Ok(self.bytes.len() as u64)
    }

    fn read(&mut self, at: u64, buf: &mut [u8]) -> Result<(), Failed>
        requires { at + length buf.old ≤ length (held self.old) }
        ensures ok { OnOk result (buf.new ≡ take (length buf.old) (drop at (held self.old))) }
        ensures state { self.new ≡ record self.old { faults = after_other self.old.faults } }
        ensures due { IsErr result ↔ IsTrue (fails self.old.faults) }
        ensures crash { LeavesNoMore (MayLeaveOf self.old) (MayLeaveOf self.new) }
        ensures time { Elapses (moment_of self.old) (moment_of self.new)
            (LeftSinceOf self.old) (LeftSinceOf self.new) (MayLeaveOf self.new) }
        ensures cause { HasCause (fault_count self.old.faults)
            (fault_count self.new.faults) result }
        ensures memory { self.new.out_of_memory ≡ self.old.out_of_memory }
        ensures counted { RoseBy 1 self.old.faults.plan.calls
            self.new.faults.plan.calls }
    {
        if self.faults.is_next_to_fail() {
            return Err(Failed);
        }
        let from = at as usize;
        let to = from + buf.len();
        buf.copy_from_slice(&self.bytes[from..to]);
        Ok(())
    }

    fn write_at(&mut self, at: u64, part: &[u8]) -> Result<(), Stop>
        requires { at ≤ length (held self.old) }
        ensures ok { OnOk result (held self.new ≡ written (held self.old) at part.now) }
        ensures state { OnOk result (self.new ≡ record self.old {
          calls = self.old.calls ++ DiskCall.Write at part.now ∷ [];
          faults = after_write self.old.faults;
        }) }
        ensures err { IfErr result (λ stop. self.new ≡ record self.old {
          faults = after_write self.old.faults;
          out_of_memory = out_of_memory_with stop self.old.out_of_memory;
        }) }
        ensures due { (result ≡ Err Stop.Failed) ↔ IsTrue (write_fails self.old.faults) }
        ensures crash { Follows (Torn at (length part.now))
            (MayLeaveOf self.old) (MayLeaveOf self.new) }
        ensures time { Elapses (moment_of self.old) (moment_of self.new)
            (LeftSinceOf self.old) (LeftSinceOf self.new) (MayLeaveOf self.new) }
        ensures faults { fault_count self.old.faults ≤ fault_count self.new.faults }
        ensures failed { IfErr result (λ stop. stop ≡ Stop.Failed
            → Rose (fault_count self.old.faults) (fault_count self.new.faults)) }
        ensures memory { self.old.out_of_memory ≤ self.new.out_of_memory }
        ensures out_of_memory { IfErr result (λ stop. stop ≡ Stop.Memory
            → Rose self.old.out_of_memory self.new.out_of_memory) }
        ensures counted { RoseBy 1 self.old.faults.plan.calls
            self.new.faults.plan.calls }
    {
        if self.faults.is_next_write_to_fail() {
            return Err(Stop::Failed);
        }
        match self.take_write(at, part) {
            Ok(()) => Ok(()),
            Err(_) => {
                self.count_out_of_memory();
                Err(Stop::Memory)
            }
        }
    }

    fn cut(&mut self, to: u64) -> Result<(), Stop>
        requires { to ≤ length (held self.old) }
        ensures ok { OnOk result (held self.new ≡ take to (held self.old)) }
        ensures state { OnOk result (self.new ≡ record self.old {
          calls = self.old.calls ++ DiskCall.Cut to ∷ [];
          faults = after_other self.old.faults;
        }) }
        ensures err { IfErr result (λ stop. self.new ≡ record self.old {
          faults = after_other self.old.faults;
          out_of_memory = out_of_memory_with stop self.old.out_of_memory;
        }) }
        ensures due { (result ≡ Err Stop.Failed) ↔ IsTrue (fails self.old.faults) }
        ensures crash { Follows (Cut to) (MayLeaveOf self.old) (MayLeaveOf self.new) }
        ensures time { Elapses (moment_of self.old) (moment_of self.new)
            (LeftSinceOf self.old) (LeftSinceOf self.new) (MayLeaveOf self.new) }
        ensures faults { fault_count self.old.faults ≤ fault_count self.new.faults }
        ensures failed { IfErr result (λ stop. stop ≡ Stop.Failed
            → Rose (fault_count self.old.faults) (fault_count self.new.faults)) }
        ensures memory { self.old.out_of_memory ≤ self.new.out_of_memory }
        ensures out_of_memory { IfErr result (λ stop. stop ≡ Stop.Memory
            → Rose self.old.out_of_memory self.new.out_of_memory) }
        ensures counted { RoseBy 1 self.old.faults.plan.calls
            self.new.faults.plan.calls }
    {
        if self.faults.is_next_to_fail() {
            return Err(Stop::Failed);
        }
        match self.take_cut(to) {
            Ok(()) => Ok(()),
            Err(_) => {
                self.count_out_of_memory();
                Err(Stop::Memory)
            }
        }
    }

    fn sync(&mut self) -> Result<(), Stop>
        ensures ok { OnOk result (Only (held self.new) (MayLeaveOf self.new)) }
        ensures same { held self.new ≡ held self.old }
        ensures state { OnOk result (self.new ≡ record self.old {
          calls = self.old.calls ++ DiskCall.Sync ∷ [];
          faults = after_other self.old.faults;
        }) }
        ensures err { IfErr result (λ stop. self.new ≡ record self.old {
          faults = after_other self.old.faults;
          out_of_memory = out_of_memory_with stop self.old.out_of_memory;
        }) }
        ensures due { (result ≡ Err Stop.Failed) ↔ IsTrue (fails self.old.faults) }
        ensures crash { LeavesNoMore (MayLeaveOf self.old) (MayLeaveOf self.new) }
        ensures time { Elapses (moment_of self.old) (moment_of self.new)
            (LeftSinceOf self.old) (LeftSinceOf self.new) (MayLeaveOf self.new) }
        ensures faults { fault_count self.old.faults ≤ fault_count self.new.faults }
        ensures failed { IfErr result (λ stop. stop ≡ Stop.Failed
            → Rose (fault_count self.old.faults) (fault_count self.new.faults)) }
        ensures memory { self.old.out_of_memory ≤ self.new.out_of_memory }
        ensures out_of_memory { IfErr result (λ stop. stop ≡ Stop.Memory
            → Rose self.old.out_of_memory self.new.out_of_memory) }
        ensures counted { RoseBy 1 self.old.faults.plan.calls
            self.new.faults.plan.calls }
    {
        if self.faults.is_next_to_fail() {
            return Err(Stop::Failed);
        }
        match self.take_sync() {
            Ok(()) => Ok(()),
            Err(_) => {
                self.count_out_of_memory();
                Err(Stop::Memory)
            }
        }
    }
}

/// The first bytes: those that are kept, or those that stand there where no call was taken.
fn first_bytes<'a>(calls: &[DiskCall], kept: &'a [u8], bytes: &'a [u8]) -> &'a [u8]
    ensures { result.now ≡ first_of calls.now kept.now bytes.now }
{
    if calls.is_empty() { bytes } else { kept }
}

/// Keeps the bytes as the first ones, where no call was taken yet.
fn keep_first(
    alloc: Global,
    calls: &[DiskCall],
    first: &mut Vec<u8>,
    bytes: &[u8],
) -> Result<(), AllocError>
    ensures ok { OnOk result (first.new.items ≡ first_of calls.now first.old.items bytes.now) }
    ensures err { OnErr result (first.new.items ≡ first.old.items) }
{
    if calls.is_empty() {
        *first = bytes.to_vec(alloc)?;
    }
    Ok(())
}
