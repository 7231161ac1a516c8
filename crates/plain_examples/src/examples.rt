ghost use Rattle.plain_examples.specs.FirstRun.{FirstRunIsRun};
ghost use Rattle.plain_examples.specs.EntryExamples.{EntryExamples};
ghost use Rattle.plain_examples.specs.OrderExamples.{BackExamples, CrashExamples, EnterExamples, OpenedExamples, SyncedExamples};
ghost use Rattle.plain_examples.specs.EndExamples.{BrokeExamples, FreeActExamples, LoseExamples, MendedExamples, MetExamples, ShutExamples, ToldExamples};
ghost use Rattle.plain_examples.specs.LockExamples.{FreeExamples, GiveUpExamples, GrantExamples, GrantedExamples, QuitExamples, ReleaseExamples};
ghost use Rattle.plain_examples.specs.JobExamples.{DoneExamples, IssueExamples, LevelExamples, ReadExamples, RefusedExamples, TooDeepExamples};
ghost use Rattle.plain_examples.specs.AnswerExamples.{CommittedExamples, CountedExamples, NotWholeExamples, RangeExamples, ReachedExamples, RolledBackExamples};
ghost use Rattle.plain_examples.specs.ChangeExamples.{NewsExamples, RoomExamples, SeenExamples, UnclaimedExamples};

/// The trail of the worked first run is a run.
pub fn first_run_is_run()
    ensures { FirstRunIsRun }
{}

/// Examples of entries that no server opens with.
pub fn entry_examples()
    ensures { EntryExamples }
{}

/// Examples of a server that opens.
pub fn opened_examples()
    ensures { OpenedExamples }
{}

/// Examples of an entry that enters.
pub fn enter_examples()
    ensures { EnterExamples }
{}

/// Examples of entries that are synced.
pub fn synced_examples()
    ensures { SyncedExamples }
{}

/// Examples of a crash.
pub fn crash_examples()
    ensures { CrashExamples }
{}

/// Examples of the end of a recovery round.
pub fn back_examples()
    ensures { BackExamples }
{}

/// Examples of a session that is closed.
pub fn shut_examples()
    ensures { ShutExamples }
{}

/// Examples of a session that is met.
pub fn met_examples()
    ensures { MetExamples }
{}

/// Examples of a session that is told of an epoch.
pub fn told_examples()
    ensures { ToldExamples }
{}

/// Examples of a connection that breaks.
pub fn broke_examples()
    ensures { BrokeExamples }
{}

/// Examples of a connection that is whole again.
pub fn mended_examples()
    ensures { MendedExamples }
{}

/// Examples of a session that is lost.
pub fn lose_examples()
    ensures { LoseExamples }
{}

/// Examples of the clock and deaths.
pub fn free_act_examples()
    ensures { FreeActExamples }
{}

/// Examples of the release of a session's locks.
pub fn release_examples()
    ensures { ReleaseExamples }
{}

/// Examples of a lock that is granted.
pub fn grant_examples()
    ensures { GrantExamples }
{}

/// Examples of a grant that reaches its job.
pub fn granted_examples()
    ensures { GrantedExamples }
{}

/// Examples of a lock that is given up.
pub fn give_up_examples()
    ensures { GiveUpExamples }
{}

/// Examples of a request that is given up.
pub fn quit_examples()
    ensures { QuitExamples }
{}

/// Examples of a lock that goes once it was given up.
pub fn free_examples()
    ensures { FreeExamples }
{}

/// Examples of an item that is issued.
pub fn issue_examples()
    ensures { IssueExamples }
{}

/// Examples of a read.
pub fn read_examples()
    ensures { ReadExamples }
{}

/// Examples of a transaction level.
pub fn level_examples()
    ensures { LevelExamples }
{}

/// Examples of a line that is done.
pub fn done_examples()
    ensures { DoneExamples }
{}

/// Examples of a line that is refused.
pub fn refused_examples()
    ensures { RefusedExamples }
{}

/// Examples of a transaction that is too deep.
pub fn too_deep_examples()
    ensures { TooDeepExamples }
{}

/// Examples of an increment that is answered.
pub fn counted_examples()
    ensures { CountedExamples }
{}

/// Examples of an increment of a value that is no whole number.
pub fn not_whole_examples()
    ensures { NotWholeExamples }
{}

/// Examples of an increment past 18 digits.
pub fn range_examples()
    ensures { RangeExamples }
{}

/// Examples of a Commit that is answered.
pub fn committed_examples()
    ensures { CommittedExamples }
{}

/// Examples of a Rollback that is answered.
pub fn rolled_back_examples()
    ensures { RolledBackExamples }
{}

/// Examples of all that a job issued being reached.
pub fn reached_examples()
    ensures { ReachedExamples }
{}

/// Examples of a release and of a free that make room for another lock.
pub fn room_examples()
    ensures { RoomExamples }
{}

/// Examples of a grant that was not answered, before and after the end of a recovery round.
pub fn unclaimed_examples()
    ensures { UnclaimedExamples }
{}

/// Examples of a failed connect that a job is told of until it acts.
pub fn news_examples()
    ensures { NewsExamples }
{}

/// Examples of a read below what was seen, before and after the news of an epoch.
pub fn seen_examples()
    ensures { SeenExamples }
{}
