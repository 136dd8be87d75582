//! Sums of the slot types that a list of fields gets.
ghost use Rattle.std.specs.Prelude.{◌≡◌, Some};
ghost use Rattle.lx_slot_sums.specs.Classes.{class_among, class_differs};
ghost use Rattle.lx_slot_sums.specs.Sums.{joined, lesser, no_sum, other_for, single, sum_or_none};

/// Of the slot types that fields get: the first in interface order, and the first whose annotation has another canonical text than
/// that one's.
#[derive(Clone, Copy)]
pub struct SlotSum {
    pub first: Option<u32>,
    pub other: Option<u32>,
}

/// The class of a slot type.
fn class_among(classes: &[usize], slot: u32) -> usize
    ensures { result ≡ class_among classes.now slot }
{
    match classes.get(slot as usize).copied() {
        Some(class) => class,
        None => 0,
    }
}

/// Whether two slot types are of different classes.
fn class_differs(classes: &[usize], a: u32, b: u32) -> bool
    ensures { result ≡ class_differs classes.now a b }
{
    class_among(classes, a) != class_among(classes, b)
}

/// What a list adds to the first slot type that differs from `first`.
fn other_for(classes: &[usize], first: u32, own: u32, other: Option<u32>) -> Option<u32>
    ensures { result ≡ other_for (class_differs classes.now) first own other }
{
    if class_differs(classes, first, own) {
        Some(own)
    } else {
        other
    }
}

/// The lesser of two numbers, where there are any.
fn lesser(a: Option<u32>, b: Option<u32>) -> Option<u32>
    ensures { result ≡ lesser a b }
{
    match (a, b) {
        (None, _) => b,
        (Some(_), None) => a,
        (Some(a), Some(b)) => Some(a.min(b)),
    }
}

/// The sum of two lists whose firsts are these.
fn join_firsts(classes: &[usize], a: SlotSum, b: SlotSum, x: u32, y: u32) -> SlotSum
    requires first { a.first ≡ Some x }
    requires second { b.first ≡ Some y }
    ensures { result ≡ joined (class_differs classes.now) a b }
{
    let first = x.min(y);
    let other = other_for(classes, first, x, a.other);
    let another = other_for(classes, first, y, b.other);
    SlotSum {
        first: Some(first),
        other: lesser(other, another),
    }
}

/// The sum of two lists.
pub(crate) fn join(classes: &[usize], a: SlotSum, b: SlotSum) -> SlotSum
    ensures { result ≡ joined (class_differs classes.now) a b }
{
    match a.first {
        None => b,
        Some(x) => match b.first {
            None => a,
            Some(y) => join_firsts(classes, a, b, x, y),
        },
    }
}

/// The sum of no fields.
pub(crate) fn no_sum() -> SlotSum
    ensures { result ≡ no_sum }
{
    SlotSum {
        first: None,
        other: None,
    }
}

/// The sum that is there, or that of no fields.
pub(crate) fn sum_or_none(sum: Option<SlotSum>) -> SlotSum
    ensures { result ≡ sum_or_none sum }
{
    match sum {
        Some(sum) => sum,
        None => no_sum(),
    }
}

/// The sum of a field that gets one slot type, of so many; a number past them stands for none.
pub(crate) fn single(count: usize, slot: u32) -> SlotSum
    ensures { result ≡ single count slot }
{
    let first = if (slot as usize) < count {
        Some(slot)
    } else {
        None
    };
    SlotSum { first, other: None }
}
