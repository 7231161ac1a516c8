ghost use Rattle.hold_laws.specs.HoldExamples.{HoldExample};

/// A run on which what the laws ask for holds.
pub fn the_laws_speak_of_holds()
    ensures { HoldExample }
{}
