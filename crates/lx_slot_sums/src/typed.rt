//! The sums of the fields that an interface types, by the numbers of the names of their structs and their own numbers there. The number
//! of a name is the place of the first statement with it, so that a name is gone over once for each type and each statement that has
//! it, and not once for each field.
ghost use Rattle.std.specs.Prelude.{◌≡◌, max, ℕ, Some, List, cond, IfOk, OnOk, map};
ghost use Rattle.lx_annot.specs.declared.interface.Field.{Field as Statement};
ghost use Rattle.lx_slot_sums.specs.Classes.{IsClassed, at_text, class_differs};
ghost use Rattle.lx_slot_sums.specs.Sums.{joined, single};
ghost use Rattle.lx_slot_sums.specs.Fields.{AreShort, HasFields, HasNames, at_field, is_key, number_among, sum_at};

use crate::classes::{class_of, put_text};
use crate::sums::{SlotSum, join, single, sum_or_none};
use indexmap::IndexMap;
use lx_annot::interface::{Field, Interface};
use lx_ir::module::Module;
use lx_words::{Items, Memory};
use std::alloc::Global;

/// The number of a struct's name, and the number of a field there.
pub(crate) type Key = (usize, u64);

/// The numbers of the names in statements. They are put from the last to the first, so that of equal names the first stays.
pub(crate) fn name_numbers<'a>(
    alloc: Global,
    fields: &'a [Field],
) -> Result<IndexMap<&'a [u8], usize>, Memory>
    ensures { IfOk result (λ numbers. HasNames fields.now numbers.entries) }
{
    let mut numbers = IndexMap::new(alloc);
    let mut left = fields.len();
    while left > 0 {
        left -= 1;
        put_text(&mut numbers, &fields[left].name, left)?;
    }
    Ok(numbers)
}

/// The greater of two numbers.
fn greater(a: usize, b: usize) -> usize
    ensures { result ≡ max a b }
{
    a.max(b)
}

/// The bytes of the longest name of a struct of which an interface types a field.
fn longest_name(i: &Interface) -> usize
    ensures { AreShort i.now.fields result }
{
    let mut longest = 0;
    for field in i.fields.as_slice() {
        longest = greater(longest, field.name.as_slice().len());
    }
    longest
}

/// The number of a name, if there is one.
fn number_at(numbers: &IndexMap<&[u8], usize>, name: &[u8]) -> Option<usize>
    ensures { result ≡ at_text numbers.now.entries name.now }
{
    numbers.get(name).copied()
}

/// The number of a name, if a statement has it. A name that is longer than those of all statements is not gone over.
fn number_of_name(numbers: &IndexMap<&[u8], usize>, longest: usize, name: &[u8]) -> Option<usize>
    ensures { (fields : List Statement) → HasNames fields numbers.now.entries → AreShort fields longest → result ≡ number_among fields name.now }
{
    if name.len() > longest {
        None
    } else {
        number_at(numbers, name)
    }
}

/// The numbers of the names of a module's types, for those of which an interface types a field.
pub(crate) fn type_numbers(
    alloc: Global,
    i: &Interface,
    numbers: &IndexMap<&[u8], usize>,
    m: &Module,
) -> Result<Items<Option<usize>>, Memory>
    requires { HasNames i.now.fields numbers.now.entries }
    ensures { IfOk result (λ types. types ≡ map (λ t. number_among i.now.fields t.name) m.now.types) }
{
    let longest = longest_name(i);
    let mut types = Items::new(alloc);
    for named in m.types.as_slice() {
        types.push(number_of_name(numbers, longest, named.name.as_slice()))?;
    }
    Ok(types)
}

/// The sum of the field with a number, of the struct whose name has a number.
pub(crate) fn sum_at(table: &IndexMap<Key, SlotSum>, name: usize, index: u64) -> SlotSum
    ensures { result ≡ sum_at table.now.entries name index }
{
    sum_or_none(table.get(&(name, index)).copied())
}

/// Puts the sum of the field that a statement types, whose struct's name has a number.
fn put_sum(
    table: &mut IndexMap<Key, SlotSum>,
    name: usize,
    index: u32,
    sum: SlotSum,
) -> Result<(), Memory>
    ensures { OnOk result ((n k : ℕ) → at_field table.new.entries n k ≡ cond (is_key name index n k) (Some sum) (at_field table.old.entries n k)) }
{
    table.insert((name, u64::from(index)), sum)?;
    Ok(())
}

/// The sum of the field that a statement types, with the statement's slot type.
fn with_slot(
    table: &IndexMap<Key, SlotSum>,
    classes: &[usize],
    count: usize,
    name: usize,
    field: &Field,
) -> SlotSum
    ensures { result ≡ joined (class_differs classes.now) (sum_at table.now.entries name field.now.index) (single count field.now.slot) }
{
    let old = sum_at(table, name, u64::from(field.index));
    join(classes, old, single(count, field.slot))
}

/// The sums of the fields that an interface types.
pub(crate) fn typed_sums(
    alloc: Global,
    i: &Interface,
    classes: &[usize],
    numbers: &IndexMap<&[u8], usize>,
) -> Result<IndexMap<Key, SlotSum>, Memory>
    requires classed { IsClassed i.now classes.now }
    requires named { HasNames i.now.fields numbers.now.entries }
    ensures { IfOk result (λ table. HasFields i.now table.entries) }
{
    let mut table = IndexMap::new(alloc);
    let count = i.slots.len();
    let fields = i.fields.as_slice();
    for field in fields {
        let name = class_of(numbers, field.name.as_slice());
        let sum = with_slot(&table, classes, count, name, field);
        put_sum(&mut table, name, field.index, sum)?;
    }
    Ok(table)
}
