ghost use Rattle.std.specs.Prelude.{◌≡◌};
ghost use Rattle.std.specs.List.{filter};
ghost use Rattle.lock_index.specs.TicketWords.{has_other_ticket, is_elsewhere};

use crate::ticketed::Ticketed;

/// Those with this ticket go, out of a list that is short or gone through anyway.
pub fn drop_ticket<T: Ticketed>(rows: &mut Vec<T>, session: u64, ticket: u32)
    ensures { rows.new.items ≡ filter (has_other_ticket T.session T.ticket session ticket) rows.old.items }
{
    rows.retain(|row| !(row.session() == session && row.ticket() == ticket));
}

/// Those of this session go.
pub fn drop_session<T: Ticketed>(rows: &mut Vec<T>, session: u64)
    ensures { rows.new.items ≡ filter (is_elsewhere T.session session) rows.old.items }
{
    rows.retain(|row| row.session() != session);
}
