ghost use Rattle.fit_examples.specs.TrailExamples.{TrailExamples};
ghost use Rattle.fit_examples.specs.IssueExamples.{ChangeExamples, IncrementExamples};
ghost use Rattle.fit_examples.specs.ReadExamples.{ReadExamples};
ghost use Rattle.fit_examples.specs.LockExamples.{LockEndExamples, LockExamples, UnlockExamples};
ghost use Rattle.fit_examples.specs.LevelExamples.{EmptyEndExamples, HeldBackExamples, StartExamples};
ghost use Rattle.fit_examples.specs.EndExamples.{AwaitedCommitExamples, CommitExamples, RollbackExamples, SyncExamples};
ghost use Rattle.fit_examples.specs.RefusalExamples.{PartExamples, RefusalExamples};
ghost use Rattle.fit_examples.specs.JobExamples.{JobExamples};
ghost use Rattle.fit_examples.specs.LineExamples.{ClockExamples, PieceExamples, RestartExamples};
ghost use Rattle.fit_examples.specs.FitExamples.{DeclaredExamples, FitExamples};
ghost use Rattle.fit_examples.specs.StepExamples.{StepExamples};

/// Examples of trails: those that the others begin with are runs.
pub fn trail_examples()
    ensures { TrailExamples }
{}

/// Examples of a set, and of a kill.
pub fn change_examples()
    ensures { ChangeExamples }
{}

/// Examples of an increment.
pub fn increment_examples()
    ensures { IncrementExamples }
{}

/// Examples of a get, of a data and of a next.
pub fn read_examples()
    ensures { ReadExamples }
{}

/// Examples of a lock that is granted.
pub fn lock_examples()
    ensures { LockExamples }
{}

/// Examples of a lock that is given up.
pub fn lock_end_examples()
    ensures { LockEndExamples }
{}

/// Examples of an unlock.
pub fn unlock_examples()
    ensures { UnlockExamples }
{}

/// Examples of a transaction that begins.
pub fn start_examples()
    ensures { StartExamples }
{}

/// Examples of a commit and of a rollback without updates.
pub fn empty_end_examples()
    ensures { EmptyEndExamples }
{}

/// Examples of an unlock that is given back at a commit.
pub fn held_back_examples()
    ensures { HeldBackExamples }
{}

/// Examples of a commit that nobody waits for.
pub fn commit_examples()
    ensures { CommitExamples }
{}

/// Examples of a commit that waits.
pub fn awaited_commit_examples()
    ensures { AwaitedCommitExamples }
{}

/// Examples of a rollback.
pub fn rollback_examples()
    ensures { RollbackExamples }
{}

/// Examples of a sync.
pub fn sync_examples()
    ensures { SyncExamples }
{}

/// Examples of a command that was begun.
pub fn part_examples()
    ensures { PartExamples }
{}

/// Examples of a command that was refused.
pub fn refusal_examples()
    ensures { RefusalExamples }
{}

/// Examples of a job's commands.
pub fn job_examples()
    ensures { JobExamples }
{}

/// Examples of ticks and deaths.
pub fn clock_examples()
    ensures { ClockExamples }
{}

/// Examples of restarts.
pub fn restart_examples()
    ensures { RestartExamples }
{}

/// Examples of what a line prints.
pub fn piece_examples()
    ensures { PieceExamples }
{}

/// Examples of what is declared.
pub fn declared_examples()
    ensures { DeclaredExamples }
{}

/// Examples of whole outputs.
pub fn fit_examples()
    ensures { FitExamples }
{}

/// Examples of a job that has to roll back first, and of acts of one step.
pub fn step_examples()
    ensures { StepExamples }
{}
