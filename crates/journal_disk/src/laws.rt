ghost use Rattle.journal_disk.specs.Laws.{OneList, BadGateNoList, OneBadGate};

/// Bytes stand for at most one list.
pub fn bytes_stand_for_one_list()
    ensures { OneList }
{}

/// Bytes with a bad gate stand for no list that a journal may be started with.
pub fn a_bad_gate_is_in_no_journal()
    ensures { BadGateNoList }
{}

/// Bytes have at most one first bad gate.
pub fn the_first_bad_gate_is_one()
    ensures { OneBadGate }
{}
