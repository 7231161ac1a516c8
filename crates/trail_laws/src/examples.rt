ghost use Rattle.trail_laws.specs.DurableLaw.{DurableExample};
ghost use Rattle.trail_laws.specs.IncrementLaw.{IncrementExample};
ghost use Rattle.trail_laws.specs.LockLaw.{LockExample};
ghost use Rattle.trail_laws.specs.OrderLaw.{OrderExample};
ghost use Rattle.trail_laws.specs.PrefixLaw.{PrefixExample};
ghost use Rattle.trail_laws.specs.RollbackLaw.{RollbackExample};

/// For each law a run on which what it asks for holds.
pub fn the_laws_speak_of_runs()
    ensures order { OrderExample }
    ensures durable { DurableExample }
    ensures prefixes { PrefixExample }
    ensures increments { IncrementExample }
    ensures locks { LockExample }
    ensures rollback { RollbackExample }
{}
