ghost use Rattle.cluster_examples.specs.CachedRead.{CachedReadLeads};
ghost use Rattle.cluster_examples.specs.Crash.{CrashIsMended};
ghost use Rattle.cluster_examples.specs.CrossingCancel.{CancelCrossesGrant};
ghost use Rattle.cluster_examples.specs.EndRefusals.{AppRefusals, BeginRefusals, ServerRefusals};
ghost use Rattle.cluster_examples.specs.FirstRun.{FirstRunIsReached};
ghost use Rattle.cluster_examples.specs.JobRefusals.{LookRefusals, StepRefusals};
ghost use Rattle.cluster_examples.specs.SentAgain.{RecoverSendsAgain};

/// A job sets a node on a fresh server and reads it: from the beginning, sixteen moves, whose trail is a run.
pub fn first_run()
    ensures { FirstRunIsReached }
{}

/// A get is answered from a cached run, with what was there before, after a Drop for it was put and has not arrived.
pub fn cached_read()
    ensures { CachedReadLeads }
{}

/// The time of a lock is over, and its Cancel crosses its Grant: the hold ends, and the next has it.
pub fn crossing_cancel()
    ensures { CancelCrossesGrant }
{}

/// A connection breaks, and the Recover in the same epoch sends again what either end lacks.
pub fn sent_again()
    ensures { RecoverSendsAgain }
{}

/// A data server crashes before it saved an item: a round, the Claim of a lock, and the item again.
pub fn crash()
    ensures { CrashIsMended }
{}

/// Steps of a job that are refused: the moment, the line, the job and the command are each as they mustn't be.
pub fn step_refusals()
    ensures { StepRefusals }
{}

/// A look that may be made, and looks that are refused.
pub fn look_refusals()
    ensures { LookRefusals }
{}

/// Steps of an application server's ends that are refused, and ends of an application server.
pub fn app_refusals()
    ensures { AppRefusals }
{}

/// Steps of a data server that are refused.
pub fn server_refusals()
    ensures { ServerRefusals }
{}

/// Starts and halts of a data server that are refused; a tick never is.
pub fn begin_refusals()
    ensures { BeginRefusals }
{}
