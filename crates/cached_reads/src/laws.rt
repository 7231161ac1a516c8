ghost use Rattle.cached_reads.specs.Laws.{OwnUpdatesDecide, RunsAnswerGets};
ghost use Rattle.cached_reads.specs.Reads.{GetsMay, NextsMay, ShapesMay};
ghost use Rattle.cached_reads.specs.StepReads.{StepsReadsMay};
ghost use Rattle.cached_reads.specs.Walks.{WalksTellNext, WalksTellShapes};

/// Where none of the job's own updates touches a node, the first cached run that covers it has its value; where one does,
/// they decide it.
pub fn gets_are_answered()
    ensures runs { RunsAnswerGets }
    ensures own { OwnUpdatesDecide }
{}

/// A walk from run to run that ends tells what a node holds, or which subscript comes next on its level.
pub fn walks_tell_what_is_there()
    ensures shapes { WalksTellShapes }
    ensures nexts { WalksTellNext }
{}

/// Where a job's reads stand on a session whose cached runs are true at its front, each read that a get, a shape or a next
/// writes may come in the plain machine; and a whole step of one that isn't refused writes no other act.
pub fn reads_may_come()
    ensures gets { GetsMay }
    ensures shapes { ShapesMay }
    ensures nexts { NextsMay }
    ensures steps { StepsReadsMay }
{}
