//! What each step of the table tells its seat. No value of these types is made: they are for the proofs alone.
ghost use Rattle.std.specs.Prelude.{List, []};
ghost use Rattle.lx_caplock.specs.declared.knowledge.Entry.{Entry};
ghost use Rattle.lx_caplock.specs.Serving.{LegalFrom, Leaves};
ghost use Rattle.lx_caplock.specs.Views.{without_drawn, drawn_view, merged, spent_view};
ghost use Rattle.lx_caplock.specs.Telling.{TellsTicket, TellsTurn, TellsRelease, TellsCount, TellsDraw, TellsSettle};

use crate::knowledge::View;
use crate::part::Part;
use atomic_table::{Join, Play, Split};
use std::marker::{Brand, PhantomData};

/// The entries that a release adds to the history.
pub(crate) trait Adds {
    ghost added: { List Entry };
}

impl Adds for Brand {
    ghost added = { [] };
}

/// No entry is added.
pub(crate) struct Nothing;

impl Adds for Nothing {
    ghost added = { [] };
}

/// Takes the next ticket.
pub(crate) struct TakeTicket;

impl<T> Play<T, View<T>> for TakeTicket {
    ghost then = { TellsTicket };
}

/// Looks whose turn it is, and takes the part where it is the seat's own.
pub(crate) struct LookAtServing;

impl<T: Part> Play<T, View<T>> for LookAtServing {
    ghost then = { TellsTurn (Leaves T.program T.stands) (LegalFrom T.program T.stands) };
}

/// Ends the turn, with the entries that `W` adds.
pub(crate) struct Release<W> {
    marker: PhantomData<W>,
}

impl<T, W: Adds> Play<T, View<T>> for Release<W> {
    ghost then = { TellsRelease W.added };
}

/// Looks how many numbers are out.
pub(crate) struct CountNumbers;

impl<T> Play<T, View<T>> for CountNumbers {
    ghost then = { TellsCount };
}

/// Draws the next number.
pub(crate) struct DrawNumber;

impl<T> Play<T, View<T>> for DrawNumber {
    ghost then = { TellsDraw };
}

/// Settles the numbers of a seat that was taken in.
pub(crate) struct Settle;

impl<T> Play<T, View<T>> for Settle {
    ghost then = { TellsSettle };
}

/// Splits off a seat for the number that was drawn.
pub(crate) struct SplitOff;

impl<T> Split<View<T>> for SplitOff {
    ghost left = { without_drawn };

    ghost right = { drawn_view };
}

/// Takes in another seat.
pub(crate) struct TakeIn;

impl<T> Join<View<T>> for TakeIn {
    ghost both = { merged };

    ghost spent = { spent_view };
}
