//! Tables from numbers, of functions or of registers, to what the slot types of their fields come to.

ghost use Rattle.std.specs.Prelude.{◌≡◌, ℕ, Some, List, cond, nat_eq, option_to_list, OnOk};
ghost use Rattle.lx_slot_sums.specs.Sums.{sum_of};
ghost use Rattle.lx_slot_types.specs.Sites.{FieldName, sites_at};
ghost use Rattle.lx_propagate.specs.Tables.{Adds, sum_at};

use indexmap::IndexMap;
use lx_slot_sums::{FieldName, SlotSum, SlotSums};
use lx_words::Memory;

/// What the fields of each number come to; a number that the table lacks has none.
pub(crate) type Table = IndexMap<usize, SlotSum>;

/// What a table has for a number.
pub(crate) fn sum_at(table: &Table, number: usize) -> SlotSum
    ensures { result ≡ sum_at table.now.entries number }
{
    match table.get(&number) {
        Some(sum) => *sum,
        None => SlotSum {
            first: None,
            other: None,
        },
    }
}

/// Puts a sum in the place of a number's.
fn put_sum(table: &mut Table, number: usize, sum: SlotSum) -> Result<(), Memory>
    ensures { OnOk result ((n : ℕ) → sum_at table.new.entries n ≡ cond (nat_eq number n) sum (sum_at table.old.entries n)) }
{
    table.insert(number, sum)?;
    Ok(())
}

/// Adds fields of a number, by what their slot types come to.
pub(crate) fn add_sum(
    table: &mut Table,
    sums: &SlotSums,
    number: u32,
    sum: SlotSum,
) -> Result<(), Memory>
    ensures { OnOk result ((names : List FieldName) → sum ≡ sum_of sums.now.interface sums.now.text names → Adds sums.now.interface sums.now.text (sites_at names (Some number)) table.old.entries table.new.entries) }
{
    let joined = sums.join(sum_at(table, number as usize), sum);
    put_sum(table, number as usize, joined)?;
    Ok(())
}

/// Adds a field of a number, where there are both.
#[tactic(auto, using(crate::proofs::Adding::adds_nothing, crate::proofs::Adding::adds_nowhere))]
pub(crate) fn add_field(
    table: &mut Table,
    sums: &SlotSums,
    at: Option<FieldName>,
    number: Option<u32>,
) -> Result<(), Memory>
    ensures { OnOk result (Adds sums.now.interface sums.now.text (sites_at (option_to_list at) number) table.old.entries table.new.entries) }
{
    match number {
        None => Ok(()),
        Some(number) => match at {
            None => Ok(()),
            Some(at) => add_sum(table, sums, number, sums.of_field(at)),
        },
    }
}
