ghost use Rattle.cluster_invariant.specs.Stays.{EachGoesOn, FrontStays, StaysSynced};

/// In every run each order is an ordered list and goes on from the one before it by the next Epoch; what stays of it is
/// synced, and is the front of each later order.
pub fn what_stays_of_an_order_stands()
    ensures orders { EachGoesOn }
    ensures synced { StaysSynced }
    ensures front { FrontStays }
{}
