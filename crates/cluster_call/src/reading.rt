//! Reads of a run.
ghost use Rattle.std.specs.Prelude.{◌≡◌, true, [], ◌∷◌, OnOk, IfOk};
ghost use Rattle.app_job.specs.Limits.{NextMay};
ghost use Rattle.cluster_call.specs.Running.{AddsAct, DidCommand, HasJob, IsAnswered, IsAtRest, IsHere, pairs_in};

use crate::copies::{copy_sub, copy_value};
use crate::script_run::{JOB, SERVER, ScriptRun};
use app_job::{Answer, Command, Target};
use plain_orders::{Act, Question, Via};
use std::alloc::{AllocError, Global};
use subscript_keys::Sub;

/// What a next asks and is answered.
fn next_question(
    parent: &Target,
    sub: &Option<Sub>,
    found: Option<Sub>,
) -> Result<Question, AllocError>
    ensures { IfOk result (λ question. question ≡ Question.Next parent.now.key sub.now found) }
{
    Ok(Question::Next {
        parent: parent.key().clone()?,
        sub: copy_sub(sub)?,
        found,
    })
}

impl ScriptRun {
    /// Reads what this question asks, at a line of the script.
    fn read(&mut self, line: u32, question: Question) -> Result<(), AllocError>
        requires met { self.old.is_connected ≡ true }
        requires stands { IsAtRest self.old }
        requires job { HasJob self.old.recorder.layout }
        requires answer { IsAnswered (pairs_in self.old) question }
        ensures stands { OnOk result (IsAtRest self.new) }
        ensures layout { self.new.recorder.layout ≡ self.old.recorder.layout }
        ensures length { self.new.length ≡ self.old.length }
        ensures adds { OnOk result (AddsAct self.old.recorder.layout line self.old.recorder.acts self.new.recorder.acts (Act.Read 0 line 0 self.old.length Via.Fetched question)) }
    {
        let at = self.length;
        self.recorder.note(Act::Read {
            job: JOB,
            line,
            server: SERVER,
            at,
            via: Via::Fetched,
            question,
        })?;
        Ok(())
    }

    /// Answers the value of a node.
    pub fn get(&mut self, line: u32, at: &Target) -> Result<Answer, AllocError>
        requires met { self.old.is_connected ≡ true }
        requires stands { IsAtRest self.old }
        requires job { HasJob self.old.recorder.layout }
        requires here { IsHere at.now }
        ensures stands { OnOk result (IsAtRest self.new) }
        ensures layout { self.new.recorder.layout ≡ self.old.recorder.layout }
        ensures did { IfOk result (DidCommand self.old.recorder.layout line (Command.Get at.now) self.old.recorder.acts self.new.recorder.acts) }
    {
        let found = self.store.get(at.key());
        let value = copy_value(found)?;
        let shown = copy_value(found)?;
        let question = Question::Get {
            key: at.key().clone()?,
            value,
        };
        self.read(line, question)?;
        Ok(Answer::Value {
            value: shown,
            at: self.length,
            via: Via::Fetched,
        })
    }

    /// Answers what stands at and below a node.
    pub fn shape(&mut self, line: u32, at: &Target) -> Result<Answer, AllocError>
        requires met { self.old.is_connected ≡ true }
        requires stands { IsAtRest self.old }
        requires job { HasJob self.old.recorder.layout }
        requires here { IsHere at.now }
        ensures stands { OnOk result (IsAtRest self.new) }
        ensures layout { self.new.recorder.layout ≡ self.old.recorder.layout }
        ensures did { IfOk result (DidCommand self.old.recorder.layout line (Command.Shape at.now) self.old.recorder.acts self.new.recorder.acts) }
    {
        let code = self.store.shape(at.key());
        let question = Question::Shape {
            key: at.key().clone()?,
            code,
        };
        self.read(line, question)?;
        Ok(Answer::Shape {
            code,
            at: self.length,
            via: Via::Fetched,
        })
    }

    /// Answers the next subscript.
    #[tactic(auto, using(crate::proofs::RunSteps::next_answered))]
    pub fn next(
        &mut self,
        alloc: Global,
        line: u32,
        parent: &Target,
        sub: &Option<Sub>,
    ) -> Result<Answer, AllocError>
        requires met { self.old.is_connected ≡ true }
        requires stands { IsAtRest self.old }
        requires job { HasJob self.old.recorder.layout }
        requires here { IsHere parent.now }
        requires may { NextMay parent.now sub.now }
        ensures stands { OnOk result (IsAtRest self.new) }
        ensures layout { self.new.recorder.layout ≡ self.old.recorder.layout }
        ensures did { IfOk result (DidCommand self.old.recorder.layout line (Command.Next parent.now sub.now) self.old.recorder.acts self.new.recorder.acts) }
    {
        let found = self.store.next_sub(alloc, parent.key(), sub.as_ref())?;
        let shown = copy_sub(&found)?;
        let question = next_question(parent, sub, found)?;
        self.read(line, question)?;
        Ok(Answer::Next {
            sub: shown,
            at: self.length,
            via: Via::Fetched,
        })
    }
}
