ghost use Rattle.data_examples.specs.AnswerExamples.{AddExamples, EndExamples, SyncExamples};
ghost use Rattle.data_examples.specs.HelloExamples.{HelloExamples};
ghost use Rattle.data_examples.specs.ItemExamples.{FetchExamples, UpdateExamples};
ghost use Rattle.data_examples.specs.LockExamples.{AskExamples, FreeExamples};
ghost use Rattle.data_examples.specs.ResumeExamples.{GoneExamples, ResumeExamples};
ghost use Rattle.data_examples.specs.RoundExamples.{RoundExamples, TickExamples};

/// A start, a Hello, the save of its Open, and its Welcome.
pub fn hello_examples()
    ensures { HelloExamples }
{}

/// A Fetch, and the run that answers it.
pub fn fetch_examples()
    ensures { FetchExamples }
{}

/// An update that drops the run, its save, and numbers that do not follow.
pub fn update_examples()
    ensures { UpdateExamples }
{}

/// A connection that ends, and a Recover in the same epoch.
pub fn resume_examples()
    ensures { ResumeExamples }
{}

/// A Recover of a closed session, and its Reset.
pub fn gone_examples()
    ensures { GoneExamples }
{}

/// A lock that is asked for.
pub fn ask_examples()
    ensures { AskExamples }
{}

/// A lock that is given up, and a request that is cancelled.
pub fn free_examples()
    ensures { FreeExamples }
{}

/// An increment, and its answer.
pub fn add_examples()
    ensures { AddExamples }
{}

/// A Commit and a Rollback, and their answers.
pub fn end_examples()
    ensures { EndExamples }
{}

/// A Sync, and its answer.
pub fn sync_examples()
    ensures { SyncExamples }
{}

/// A start with a live session, and its round.
pub fn round_examples()
    ensures { RoundExamples }
{}

/// Ticks that close sessions.
pub fn tick_examples()
    ensures { TickExamples }
{}
