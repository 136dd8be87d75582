//! The rule of the table.
ghost use Rattle.std.specs.Prelude.{Some};
ghost use Rattle.lx_caplock.specs.Serving.{LegalFrom, Leaves};
ghost use Rattle.lx_caplock.specs.Tickets.{TicketRule};
ghost use Rattle.lx_caplock.specs.Views.{first_view};

use crate::knowledge::View;
use crate::part::Part;
use atomic_table::TableRule;
use std::snapshot::Snapshot;

/// What holds of the table between any two steps: turns go by tickets, and there is one legal history.
pub(crate) struct Turns;

/// What the lock is opened with. The rule speaks of it, and a play cannot read it: so a view keeps it too.
#[derive(Drop)]
pub(crate) struct Opening<T> {
    pub(crate) part: Snapshot<T>,
    pub(crate) seats: u64,
}

impl<T: Part> TableRule<T, View<T>, Opening<T>> for Turns {
    ghost holds = { λ key. TicketRule (Leaves T.program T.stands) (LegalFrom T.program T.stands) (Some key.part.value) key.seats };

    ghost first = { λ key. first_view (Some key.part.value) key.seats };
}
