ghost use Rattle.std.specs.Prelude.{List};
ghost use Rattle.ecp_frames.specs.Reading.{Call, SameAsWhole};

/// Over every list of feeds and looks for a frame, the frames given, with those that are still to be given,
/// and the length that is refused are those of all the fed bytes together.
pub fn same_for_any_cut()
    ensures { (calls : List Call) → SameAsWhole calls }
{}
