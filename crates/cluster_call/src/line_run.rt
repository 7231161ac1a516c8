//! A script, line by line.
ghost use Rattle.std.specs.Prelude.{◌≡◌, true, [], ◌∷◌, ◌++◌, OnOk, IfOk};
ghost use Rattle.std.specs.List.{flat_map, AllByRecursion};
ghost use Rattle.std.specs.Option.{option_to_list};
ghost use Rattle.plain_runs.specs.Run.{IsRun};
ghost use Rattle.transcript.specs.PieceText.{CanPrintPiece};
ghost use Rattle.script_fits.specs.Fits.{Fits};
ghost use Rattle.cluster_call.specs.Stage.{IsUndisturbed};
ghost use Rattle.cluster_call.specs.Running.{AllCanPrint, CanRun, CommandRuns, DidCommand, DidTodo, HasJob, IsAtRest, TodoRuns, pieces_of};

use crate::copies::copy_layout;
use crate::script_run::{JOB, ScriptRun};
use app_job::{Answer, Command};
use job_script::{Script, ScriptLine, Todo};
use plain_orders::Trail;
use script_fits::Output;
use std::alloc::{AllocError, Global};
use transcript::{AnswerLine, Piece};

/// An answer after the other pieces, if there is one.
fn put_answer(pieces: &mut Vec<Piece>, answer: Option<AnswerLine>) -> Result<(), AllocError>
    ensures { OnOk result (pieces.new.items ≡ pieces.old.items ++ pieces_of (option_to_list answer)) }
{
    match answer {
        Some(answer) => {
            pieces.push(Piece::Answered(answer))?;
            Ok(())
        }
        None => Ok(()),
    }
}

impl ScriptRun {
    /// Does a command of the job.
    fn do_command(
        &mut self,
        alloc: Global,
        line: u32,
        command: &Command,
    ) -> Result<Answer, AllocError>
        requires met { self.old.is_connected ≡ true }
        requires stands { IsAtRest self.old }
        requires job { HasJob self.old.recorder.layout }
        requires runs { CommandRuns command.now }
        ensures stands { OnOk result (IsAtRest self.new) }
        ensures layout { self.new.recorder.layout ≡ self.old.recorder.layout }
        ensures did { IfOk result (DidCommand self.old.recorder.layout line command.now self.old.recorder.acts self.new.recorder.acts) }
    {
        match command {
            Command::Set { at, value } => self.set(alloc, line, at, value),
            Command::Kill { at } => self.kill(alloc, line, at),
            Command::Get { at } => self.get(line, at),
            Command::Shape { at } => self.shape(line, at),
            Command::Next { parent, sub } => self.next(alloc, line, parent, sub),
            _ => unreachable!(),
        }
    }

    /// Does a command of the job at a line of the script, once the pair is connected.
    fn do_line(
        &mut self,
        alloc: Global,
        line: u32,
        command: &Command,
    ) -> Result<AnswerLine, AllocError>
        requires stands { IsAtRest self.old }
        requires job { HasJob self.old.recorder.layout }
        requires runs { CommandRuns command.now }
        ensures stands { OnOk result (IsAtRest self.new) }
        ensures layout { self.new.recorder.layout ≡ self.old.recorder.layout }
        ensures did { IfOk result (λ answer. DidTodo self.old.recorder.layout line (Todo.Job 0 command.now) self.old.recorder.acts self.new.recorder.acts (answer ∷ [])) }
    {
        self.be_connected(alloc)?;
        let answer = self.do_command(alloc, line, command)?;
        Ok(AnswerLine {
            job: JOB,
            line,
            answer,
        })
    }

    /// Does what a line asks for, and answers it if it is a command.
    fn step(&mut self, alloc: Global, line: &ScriptLine) -> Result<Option<AnswerLine>, AllocError>
        requires stands { IsAtRest self.old }
        requires runs { TodoRuns self.old.recorder.layout line.now.todo }
        ensures stands { OnOk result (IsAtRest self.new) }
        ensures layout { self.new.recorder.layout ≡ self.old.recorder.layout }
        ensures did { IfOk result (λ answer. DidTodo self.old.recorder.layout line.now.line line.now.todo self.old.recorder.acts self.new.recorder.acts (option_to_list answer)) }
    {
        match &line.todo {
            Todo::Job { command, .. } => {
                let answer = self.do_line(alloc, line.line, command)?;
                Ok(Some(answer))
            }
            _ => Ok(None),
        }
    }
}

/// Runs a script to its end.
pub fn run_script(alloc: Global, script: &Script) -> Result<Output, AllocError>
    requires { CanRun script.now }
    ensures run { IfOk result (λ out. IsRun script.now.layout out.trail) }
    ensures fits { IfOk result (λ out. Fits script.now [] out) }
    ensures calm { IfOk result IsUndisturbed }
    ensures printed { IfOk result (λ out. AllCanPrint out.trail) }
    ensures answered { IfOk result (λ out. AllByRecursion CanPrintPiece out.pieces.items) }
{
    if script.layout.servers == 0 {
        return Ok(Output {
            pieces: Vec::new(alloc),
            trail: Trail::new(alloc),
        });
    }
    let mut run = ScriptRun::open(alloc, copy_layout(alloc, &script.layout)?)?;
    let mut pieces = Vec::new(alloc);
    for line in script.lines.as_slice() {
        let answer = run.step(alloc, line)?;
        put_answer(&mut pieces, answer)?;
    }
    let ScriptRun { recorder, .. } = run;
    let (_, trail) = recorder.into_parts();
    Ok(Output { pieces, trail })
}
