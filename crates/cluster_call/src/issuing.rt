//! Sets and kills of a run.
ghost use Rattle.std.specs.Prelude.{◌≡◌, ◌+◌, ◌<◌, ◌≤◌, ◌^◌, ◌-◌, true, [], ◌∷◌, OnOk, IfOk, length};
ghost use Rattle.subscript_keys.specs.declared.limits.TheConstants.{VALUE_LIMIT};
ghost use Rattle.plain_orders.specs.Ordered.{OpMay};
ghost use Rattle.plain_runs.specs.Items.{is_change_op};
ghost use Rattle.cluster_call.specs.Running.{AddsAct, DidCommand, HasJob, IsAtRest, IsHere};

use crate::copies::copy_op;
use crate::script_run::{JOB, SERVER, SESSION, ScriptRun};
use app_job::{Answer, Command, Place, Places, Target};
use plain_orders::{Act, Entry, Item, Op};
use std::alloc::{AllocError, Global};
use subscript_keys::ValueBytes;

impl ScriptRun {
    /// Issues a set or a kill at a line of the script, enters it in the data server's list, and saves that.
    fn issue_op(&mut self, alloc: Global, line: u32, op: Op) -> Result<(), AllocError>
        requires met { self.old.is_connected ≡ true }
        requires stands { IsAtRest self.old }
        requires job { HasJob self.old.recorder.layout }
        requires issues { self.old.issued < 2 ^ 64 - 1 }
        requires enters { self.old.length < 2 ^ 64 - 1 }
        requires change { is_change_op op ≡ true }
        requires within { OpMay 0 op }
        ensures stands { OnOk result (IsAtRest self.new) }
        ensures met { self.new.is_connected ≡ true }
        ensures layout { self.new.recorder.layout ≡ self.old.recorder.layout }
        ensures issued { OnOk result (self.new.issued ≡ self.old.issued + 1) }
        ensures adds { OnOk result (AddsAct self.old.recorder.layout line self.old.recorder.acts self.new.recorder.acts (Act.Issue 0 line 0 (self.old.issued + 1) (Item.Op op))) }
    {
        let w = self.issued + 1;
        let length = self.length + 1;
        self.recorder.note(Act::Issue {
            job: JOB,
            line,
            server: SERVER,
            w,
            item: Item::Op(copy_op(&op)?),
        })?;
        let entry = Entry::Update {
            session: SESSION,
            w,
            job: JOB,
            txn: 0,
            op,
        };
        let _applied = self.store.apply(alloc, &entry)?;
        self.recorder.note(Act::Enter {
            server: SERVER,
            entry,
        })?;
        self.recorder.note(Act::Synced {
            server: SERVER,
            length,
        })?;
        self.issued = w;
        self.length = length;
        Ok(())
    }

    /// The same, where a number at its type's end is answered as out of memory. Answers the update's running
    /// number.
    fn issue(&mut self, alloc: Global, line: u32, op: Op) -> Result<Answer, AllocError>
        requires met { self.old.is_connected ≡ true }
        requires stands { IsAtRest self.old }
        requires job { HasJob self.old.recorder.layout }
        requires change { is_change_op op ≡ true }
        requires within { OpMay 0 op }
        ensures stands { OnOk result (IsAtRest self.new) }
        ensures layout { self.new.recorder.layout ≡ self.old.recorder.layout }
        ensures adds { OnOk result (AddsAct self.old.recorder.layout line self.old.recorder.acts self.new.recorder.acts (Act.Issue 0 line 0 (self.old.issued + 1) (Item.Op op))) }
        ensures answer { IfOk result (λ answer. answer ≡ Answer.Queued (record { server = 0; number = self.old.issued + 1 } ∷ [])) }
    {
        if self.issued == u64::MAX {
            return Err(AllocError);
        }
        if self.length == u64::MAX {
            return Err(AllocError);
        }
        self.issue_op(alloc, line, op)?;
        let mut places = Places::new(alloc);
        places.push(Place {
            server: SERVER,
            number: self.issued,
        })?;
        Ok(Answer::Queued { places })
    }

    /// Sets a node.
    pub fn set(
        &mut self,
        alloc: Global,
        line: u32,
        at: &Target,
        value: &ValueBytes,
    ) -> Result<Answer, AllocError>
        requires met { self.old.is_connected ≡ true }
        requires stands { IsAtRest self.old }
        requires job { HasJob self.old.recorder.layout }
        requires here { IsHere at.now }
        requires within { length value.now ≤ VALUE_LIMIT }
        ensures stands { OnOk result (IsAtRest self.new) }
        ensures layout { self.new.recorder.layout ≡ self.old.recorder.layout }
        ensures did { IfOk result (DidCommand self.old.recorder.layout line (Command.Set at.now value.now) self.old.recorder.acts self.new.recorder.acts) }
    {
        let op = Op::Set {
            key: at.key().clone()?,
            value: value.clone()?,
        };
        self.issue(alloc, line, op)
    }

    /// Removes a node and its descendants.
    pub fn kill(&mut self, alloc: Global, line: u32, at: &Target) -> Result<Answer, AllocError>
        requires met { self.old.is_connected ≡ true }
        requires stands { IsAtRest self.old }
        requires job { HasJob self.old.recorder.layout }
        requires here { IsHere at.now }
        ensures stands { OnOk result (IsAtRest self.new) }
        ensures layout { self.new.recorder.layout ≡ self.old.recorder.layout }
        ensures did { IfOk result (DidCommand self.old.recorder.layout line (Command.Kill at.now) self.old.recorder.acts self.new.recorder.acts) }
    {
        let op = Op::Kill {
            key: at.key().clone()?,
        };
        self.issue(alloc, line, op)
    }
}
