ghost use Rattle.items_server.specs.Laws.{StepsEnterItems};

/// Where the items hold, each item that enters as a data server steps may come in its turn: its session is live and told of the
/// order, its number is the next, and it is what was issued with that number.
pub fn each_item_enters_in_its_turn()
    ensures { StepsEnterItems }
{}
