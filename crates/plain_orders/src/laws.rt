ghost use Rattle.plain_orders.specs.Keys.{OrderHasKeys, UnderIsAtOrBelow};
ghost use Rattle.plain_orders.specs.Laws.{MapRises, OrderGoesOn, FoldGoesOn, LastSum};

/// Whatever entries there are, the pairs that they make rise by their keys.
pub fn map_rises()
    ensures { MapRises }
{}

/// An ordered list goes on ordered by exactly the entries that may follow.
pub fn order_goes_on()
    ensures { OrderGoesOn }
{}

/// One entry more is one step more of the fold.
pub fn fold_goes_on()
    ensures { FoldGoesOn }
{}

/// What the last entry of a list does as an increment is the sum at its position.
pub fn last_sum()
    ensures { LastSum }
{}

/// The pairs that an ordered list of entries makes have nodes' keys alone.
pub fn order_has_keys()
    ensures { OrderHasKeys }
{}

/// On keys of nodes, to begin with a key is to be its node or one of its descendants.
pub fn under_is_at_or_below()
    ensures { UnderIsAtOrBelow }
{}
