ghost use Rattle.app_rules.specs.Laws.{FewEndsStay, JobStepIsThere, JobStepsAlike, JobStepsKeep, StepIsThere, StepsAlike, StepsAlone, StepsAtOneEnd, UpsAgainAreFirsts};
ghost use Rattle.app_rules.specs.Waiting.{WaitsForTheFirst};

/// A step of an application server's ends leaves all of them but that with the data server which its input names.
pub fn a_step_changes_one_end()
    ensures { StepsAtOneEnd }
{}

/// What a step puts, writes and leaves at the end with the data server which its input names is decided by that end
/// alone.
pub fn a_step_reads_one_end()
    ensures { StepsAlone }
{}

/// An application server of fewer than 256 data servers has as few ends, after any step.
pub fn ends_stay_few()
    ensures { FewEndsStay }
{}

/// A job's step keeps its application server, how many ends that has, and how many data servers the job counts.
pub fn a_job_step_keeps_what_it_stands_on()
    ensures { JobStepsKeep }
{}

/// The state, the moment and the input decide what a step puts, writes and leaves: a block's run is known by its
/// bytes.
pub fn a_step_is_determined()
    ensures { StepsAlike }
{}

/// The states, the moment, the line and the command decide what a job's step puts, writes, leaves and answers: the
/// subscript that a next finds is known by the key that it stands in.
pub fn a_job_step_is_determined()
    ensures { JobStepsAlike }
{}

/// A command that isn't refused waits with the first of its reasons that holds of its application server's ends and
/// of its job, and is over where none does.
pub fn a_command_waits_for_the_first_reason()
    ensures { WaitsForTheFirst }
{}

/// An input that may come has an outcome.
pub fn a_step_is_there()
    ensures { StepIsThere }
{}

/// A command that may come is answered; a next is where the runs in which it looks have nodes' keys.
pub fn a_job_step_is_there()
    ensures { JobStepIsThere }
{}

/// What a session sends again are messages that were put in it, each with its first number.
pub fn what_is_sent_again_was_sent()
    ensures { UpsAgainAreFirsts }
{}
