ghost use Rattle.std.specs.Prelude.{◌≡◌, ◌≢◌, ◌⊎◌, ◌↔◌, ◌+◌, ◌*◌, ◌^◌, ◌<◌, ◌≤◌, ◌++◌, [], ℕ, List, true, false, None, Err, length, All, OnOk, IfOk, IsErrOf, alloc_error, is_some};
ghost use Rattle.std.specs.Option.{ForSome};
ghost use Rattle.outer_io.specs.Causes.{Rose};
ghost use Rattle.outer_disk.specs.Disk.{RoseBy};
ghost use Rattle.plain_orders.specs.declared.entry.Entry.{Entry};
ghost use Rattle.plain_orders.specs.Ordered.{IsOrdered};
ghost use Rattle.journal_records.specs.Records.{HasRecordOp};
ghost use Rattle.journal_disk.specs.Staged.{IsStaged};
ghost use Rattle.journal_disk.specs.Parts.{IsInBatches};
ghost use Rattle.journal_disk.specs.Stands.{Stands, StandsAs, AreLow, HasBadGate};
ghost use Rattle.journal_disk.specs.Settled.{IsSettled, EachStands, MayAppend};
ghost use Rattle.journal_disk.specs.Moments.{HasSynced, OnceSynced, IsKept, AppendsWhole};

use crate::batch_writer::{StagedBatches, stage};
use crate::journal_error::JournalError;
use crate::part_writer::write_batches;
use crate::recovery::recover;
use outer_disk::Disk;
use plain_orders::{Entries, Entry};
use std::alloc::{AllocError, Global};
use std::marker::Model;

/// The journal on a disk. Contracts see it as the place of its closed gate, and whether it has to be
/// started anew; the list that the disk stands for is known of the disk alone.
#[derive(Drop)]
pub struct Journal {
    gate: u64,
    needs_start: bool,
}

impl Model for Journal {
    ghost use Rattle.journal_disk.specs.Settled.{JournalState};

    ghost Value = { JournalState };

    ghost view = { λ j. record { gate = j.gate; needs_start = j.needs_start } };
}

impl Journal {
    /// Reads the list that a disk stands for, and repairs the disk's end, with at most six device calls.
    /// After an `Err` the disk stands for what it stood for, and may be started again.
    pub fn start<D: Disk>(alloc: Global, disk: &mut D) -> Result<(Journal, Entries), JournalError>
        ensures stood { IfOk result (λ got.
            ForSome (D.told disk.old) (λ bytes. Stands bytes got.1)) }
        ensures stands { IfOk result (λ got.
            EachStands (D.told disk.new) (D.may_leave disk.new) got.1) }
        ensures settled { IfOk result (λ got.
            IsSettled (D.told disk.new) (D.may_leave disk.new) got.0.gate got.1) }
        ensures ready { IfOk result (λ got. got.0.needs_start ≡ false) }
        ensures ordered { IfOk result (λ got. IsOrdered got.1) }
        ensures low { IfOk result (λ got. AreLow got.1) }

        // What the bytes stood for they stand for after the call, and at each moment from some
        // moment of it on.
        ensures read { ForSome (D.told disk.old) (λ old.
            ForSome (D.told disk.new) (StandsAs old)) }
        ensures any_moment { ForSome (D.told disk.old) (λ old.
            OnceSynced D.moment D.left_since D.may_leave disk.old disk.new (StandsAs old)) }
        ensures synced { OnOk result (ForSome (D.told disk.old) (λ old.
            HasSynced D.moment D.left_since D.may_leave disk.old disk.new (StandsAs old))) }

        // Bytes that are no journal stay as they are.
        ensures kept { ForSome (D.told disk.old) (λ old. (place : ℕ) → HasBadGate old place
            → IsKept D.moment D.left_since D.may_leave D.told disk.old disk.new) }

        ensures not_a_journal { (place : ℕ) → IsErrOf result (JournalError.NotAJournal place)
            → ForSome (D.told disk.old) (λ bytes. HasBadGate bytes place) }
        ensures disk { IsErrOf result JournalError.Disk
            → Rose (D.counts disk.old).faults (D.counts disk.new).faults }
        ensures needs_start { result ≢ Err JournalError.NeedsStart }
        ensures telling { is_some (D.told disk.new) ≡ is_some (D.told disk.old) }
        ensures faults { (D.counts disk.old).faults ≤ (D.counts disk.new).faults }
        ensures few { (D.counts disk.new).calls ≤ (D.counts disk.old).calls + 6 }
    {
        disk.sync()?;
        let read = recover(alloc, disk)?;
        let journal = Journal {
            gate: read.gate,
            needs_start: false,
        };
        Ok((journal, read.entries))
    }

    /// Whether it has to be started anew, since an `append` failed at the disk.
    pub fn needs_start(&self) -> bool
        ensures { result ≡ self.now.needs_start }
    {
        self.needs_start
    }

    /// The batches of a part, where the new end of the journal can be numbered.
    fn stage(&self, alloc: Global, part: &[Entry]) -> Result<StagedBatches, AllocError>
        requires { All HasRecordOp part.now }
        ensures staged { IfOk result (λ staged.
            IsStaged part.now staged.bytes.items staged.sizes.items) }
        ensures room { IfOk result (λ staged.
            self.now.gate + 1 + length staged.bytes.items < 2 ^ 64) }
    {
        let staged = stage(alloc, part)?;
        match self.gate.checked_add(staged.bytes.len() as u64 + 1) {
            Some(_end) => Ok(staged),
            None => Err(AllocError),
        }
    }

    /// Saves the entries of a part, in batches, each with four device calls; an empty part makes none. All
    /// bytes are made before the first device call: where there is no memory for them nothing has changed.
    /// After `Disk`, or where the device ran out of memory, some of the batches may be saved, from the front,
    /// each whole; then the journal has to be started anew, and answers `NeedsStart`.
    pub fn append<D: Disk>(
        &mut self,
        alloc: Global,
        disk: &mut D,
        part: &[Entry],
    ) -> Result<(), JournalError>
        requires ready { self.old.needs_start ≡ false → (list : List Entry)
            × MayAppend (D.told disk.old) (D.may_leave disk.old) self.old.gate list part.now }
        ensures ok { OnOk result ((list : List Entry)
            → MayAppend (D.told disk.old) (D.may_leave disk.old) self.old.gate list part.now
            → IsSettled (D.told disk.new) (D.may_leave disk.new) self.new.gate (list ++ part.now)) }
        ensures stands { OnOk result ((list : List Entry)
            → MayAppend (D.told disk.old) (D.may_leave disk.old) self.old.gate list part.now
            → EachStands (D.told disk.new) (D.may_leave disk.new) (list ++ part.now)) }
        ensures ready { OnOk result (self.new.needs_start ≡ false) }

        // At each moment of the call a crash leaves the list with some of the part's batches, from
        // the front.
        ensures any_moment { self.old.needs_start ≡ false → (list : List Entry)
            → MayAppend (D.told disk.old) (D.may_leave disk.old) self.old.gate list part.now
            → ForSome (D.told disk.old) (λ bytes.
            AppendsWhole D.moment D.left_since D.told disk.old disk.new list part.now) }

        ensures disk { IsErrOf result JournalError.Disk
            → Rose (D.counts disk.old).faults (D.counts disk.new).faults }
        ensures needs_start { IsErrOf result JournalError.NeedsStart
            ↔ (self.old.needs_start ≡ true) }
        ensures not_a_journal { (place : ℕ) → result ≢ Err (JournalError.NotAJournal place) }
        ensures telling { is_some (D.told disk.new) ≡ is_some (D.told disk.old) }
        ensures faults { (D.counts disk.old).faults ≤ (D.counts disk.new).faults }

        // Four device calls for each batch, and after an error at most so many.
        ensures calls { OnOk result ((n : ℕ) × IsInBatches part.now n
            × RoseBy (4 * n) (D.counts disk.old).calls (D.counts disk.new).calls) }
        ensures few { self.old.needs_start ≡ false → (n : ℕ) × IsInBatches part.now n
            × ((D.counts disk.new).calls ≤ (D.counts disk.old).calls + 4 * n) }

        // What stands after an error. Memory for the bytes runs out before the first device call.
        ensures refused { IsErrOf result JournalError.NeedsStart
            → (self.new ≡ self.old) × (disk.new ≡ disk.old) }
        ensures stopped { IsErrOf result JournalError.Disk
            → self.new ≡ record self.old { needs_start = true } }
        ensures memory { IsErrOf result (JournalError.Memory alloc_error)
            → ((self.new ≡ self.old) × (disk.new ≡ disk.old))
            ⊎ ((self.new ≡ record self.old { needs_start = true })
            × Rose (D.counts disk.old).out_of_memory (D.counts disk.new).out_of_memory) }
        ensures empty { part.now ≡ [] → disk.new ≡ disk.old }
    {
        if self.needs_start {
            return Err(JournalError::NeedsStart);
        }
        let staged = self.stage(alloc, part)?;
        match write_batches(disk, self.gate, &staged) {
            Ok(gate) => {
                self.gate = gate;
                Ok(())
            }
            Err(stop) => {
                self.needs_start = true;
                Err(JournalError::from(stop))
            }
        }
    }
}
