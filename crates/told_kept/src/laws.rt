ghost use Rattle.told_kept.specs.Laws.{MovesKeepTold};
ghost use Rattle.told_kept.specs.TableLaws.{MovesKeepTables};

/// Where the invariant holds, each move keeps what the living application ends were told: sessions that are synced, the
/// newest one that they have, and the order that it is told of, whose Epoch stays.
pub fn what_ends_were_told_is_kept()
    ensures { MovesKeepTold }
{}

/// Where the invariant holds, each move keeps that the tables of application ends are the plain pairs': session, break,
/// and how far the connection is.
pub fn the_tables_stay()
    ensures { MovesKeepTables }
{}
