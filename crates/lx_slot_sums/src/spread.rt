//! Spreads: of a type, the sums of the fields that begin at each of its offsets. They stand in a list, each behind those of its parts.
ghost use Rattle.std.specs.Prelude.{◌≡◌, ◌<◌, ◌≤◌, ◌/◌, ◌%◌, ◌&&◌, nat_eq, nat_le, nat_lt, Some, length, option_copied, slice_get, take};
ghost use Rattle.lx_slot_sums.specs.Rows.{AreRising};
ghost use Rattle.lx_slot_sums.specs.Spreads.{Answers, HasAnswer, IsOrdered, SumRow, said, said_in_repeat, said_in_row, touching};

use crate::rows::{Edge, edge_at};
use crate::sums::{SlotSum, no_sum};

/// The elements of an array, which have bytes.
#[derive(Clone, Copy)]
pub(crate) struct Repeated {
    /// How many bytes an element takes.
    pub size: u64,
    pub count: u64,
    /// The sum of the fields that begin where an element begins.
    pub begin: SlotSum,
    /// That of those that begin where one element ends and the next begins.
    pub between: SlotSum,
    /// That of those that begin where an element ends.
    pub end: SlotSum,
    /// The number of the spread of an element.
    pub inside: Option<u32>,
}

/// What is kept of a type.
#[derive(Drop)]
pub(crate) enum Spread {
    /// The edges of a struct's fields.
    Row(Vec<Edge>),
    Repeat(Repeated),
}

/// What a spread says of an offset.
#[derive(Clone, Copy)]
pub(crate) enum Said {
    /// The sum of the fields that begin there.
    Sum(SlotSum),
    /// They are those of the part with this spread, at this offset of it.
    Inside(Option<u32>, u64),
}

/// Whether an offset lies in an element of so many bytes.
fn is_in_element(size: u64, count: u64, offset: u64) -> bool
    requires { 0 < size }
    ensures { result ≡ nat_lt (offset / size) count }
{
    offset / size < count
}

/// Whether an element of so many bytes ends at an offset.
fn is_at_end(size: u64, count: u64, offset: u64) -> bool
    requires { 0 < size }
    ensures { result ≡ (nat_lt 0 offset && (nat_eq (offset % size) 0 && nat_le (offset / size) count)) }
{
    offset > 0 && offset % size == 0 && offset / size <= count
}

/// The sum where an element begins, or ends, or both.
fn touching(elements: &Repeated, begins: bool, ends: bool) -> SlotSum
    ensures { result ≡ touching elements.now begins ends }
{
    match (begins, ends) {
        (true, true) => elements.between,
        (true, false) => elements.begin,
        (false, true) => elements.end,
        (false, false) => no_sum(),
    }
}

/// What an array says of an offset.
fn said_in_repeat(elements: &Repeated, offset: u64) -> Said
    requires { 0 < elements.now.size }
    ensures { result ≡ said_in_repeat elements.now offset }
{
    let begins = is_in_element(elements.size, elements.count, offset);
    let rest = offset % elements.size;
    if rest == 0 {
        let ends = is_at_end(elements.size, elements.count, offset);
        return Said::Sum(touching(elements, begins, ends));
    }
    if begins {
        Said::Inside(elements.inside, rest)
    } else {
        Said::Sum(no_sum())
    }
}

/// What the edges of a struct say of an offset.
fn said_in_row(edges: &[Edge], offset: u64) -> Said
    requires { AreRising edges.now }
    ensures { result ≡ said_in_row edges.now offset }
{
    match edge_at(edges, offset) {
        Some(edge) => {
            if edge.offset == offset {
                Said::Sum(edge.sum)
            } else {
                Said::Inside(edge.inside, offset - edge.offset)
            }
        }
        None => Said::Sum(no_sum()),
    }
}

/// What a spread says of an offset.
fn ask(spread: &Spread, offset: u64) -> Said
    requires { IsOrdered spread.now }
    ensures { result ≡ said spread.now offset }
{
    match spread {
        Spread::Row(edges) => said_in_row(edges, offset),
        Spread::Repeat(elements) => said_in_repeat(elements, offset),
    }
}

/// The spread with a number.
fn spread_at(spreads: &[Spread], number: u32) -> Option<&Spread>
    ensures { option_copied result ≡ slice_get spreads.now number }
{
    spreads.get(number as usize)
}

/// The spreads before the one with a number.
fn spreads_before(spreads: &[Spread], number: u32) -> &[Spread]
    requires { number ≤ length spreads.now }
    ensures { result.now ≡ take number spreads.now }
{
    spreads.split_at(number as usize).0
}

/// The sum of the fields that begin at an offset of the type with this spread.
#[cycle(asking)]
pub(crate) fn sum_at(spreads: &[Spread], spread: Option<u32>, offset: u64) -> SlotSum
    requires { HasAnswer spreads.now spread offset }
    ensures { (s : SumRow) → Answers spreads.now spread offset s → result ≡ s }
{
    match spread {
        Some(number) => sum_of(spreads, number, offset),
        None => no_sum(),
    }
}

/// The same, of the type whose spread has this number.
#[cycle(asking)]
fn sum_of(spreads: &[Spread], number: u32, offset: u64) -> SlotSum
    requires { HasAnswer spreads.now (Some number) offset }
    ensures { (s : SumRow) → Answers spreads.now (Some number) offset s → result ≡ s }
{
    match spread_at(spreads, number) {
        Some(spread) => match ask(spread, offset) {
            Said::Sum(sum) => sum,
            Said::Inside(inside, rest) => sum_at(spreads_before(spreads, number), inside, rest),
        },
        None => no_sum(),
    }
}
