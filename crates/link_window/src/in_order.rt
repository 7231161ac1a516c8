ghost use Rattle.std.specs.Prelude.{List};
ghost use Rattle.link_window.specs.Link.{At, KeepsOrder, run, start};

/// Over every list of happenings at two ends, what each took is a front of what the other sent, and neither
/// refused a number.
pub fn taken_in_order()
    ensures { (happenings : List At) → KeepsOrder (run happenings start) }
{}
