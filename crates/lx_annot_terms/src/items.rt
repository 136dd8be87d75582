//! Reading the items of an iterator.

ghost use Rattle.std.specs.Prelude.{◌≡◌, ◌≤◌, ◌&&◌, nat_lt, length, codes};
ghost use Rattle.lx_annot_expressions.specs.Reading.{Gives, Leaves, adding_at, behind, has, steps_at};
ghost use Rattle.lx_annot_terms.specs.ItemReading.{guarded_item_at, item_at, item_behind, items_at, most_further_items, plain_item_at};

use crate::lists::{Known, item_list};
use lx_annot::interface::{Item, ItemList};
use lx_annot_expressions::{ReadError, Reader, Scope};
use std::alloc::Global;

/// How many items an iterator has at most behind the first.
const MOST_FURTHER_ITEMS: u32 = 15;

/// An item with a condition.
fn guarded_item(
    alloc: Global,
    reader: &mut Reader<'_>,
    scope: &Scope<'_>,
    known: &Known<'_>,
) -> Result<Item, ReadError>
    ensures reads { Gives result reader.new (guarded_item_at scope.now known.now reader.old) }
    ensures shrinks { length reader.new ≤ length reader.old }
{
    reader.skip();
    let condition = reader.bracketed(alloc, scope)?;
    let cap = item_list(alloc, reader, scope, known)?;
    Ok(Item {
        cond: Some(condition),
        cap,
    })
}

/// An item without condition.
fn plain_item(
    alloc: Global,
    reader: &mut Reader<'_>,
    scope: &Scope<'_>,
    known: &Known<'_>,
) -> Result<Item, ReadError>
    ensures reads { Gives result reader.new (plain_item_at scope.now known.now reader.old) }
    ensures shrinks { length reader.new ≤ length reader.old }
{
    let cap = item_list(alloc, reader, scope, known)?;
    Ok(Item { cond: None, cap })
}

/// An item.
#[tactic(auto, unfolding(crate::specs::ItemReading::item_at))]
fn item(
    alloc: Global,
    reader: &mut Reader<'_>,
    scope: &Scope<'_>,
    known: &Known<'_>,
) -> Result<Item, ReadError>
    ensures reads { Gives result reader.new (item_at scope.now known.now reader.old) }
    ensures shrinks { length reader.new ≤ length reader.old }
{
    if reader.has(b"if") {
        let item = guarded_item(alloc, reader, scope, known)?;
        return Ok(item);
    }
    let item = plain_item(alloc, reader, scope, known)?;
    Ok(item)
}

/// A `;`, and an item behind those that stand already.
fn add_item(
    alloc: Global,
    reader: &mut Reader<'_>,
    scope: &Scope<'_>,
    known: &Known<'_>,
    items: &mut ItemList,
) -> Result<(), ReadError>
    ensures reads { Leaves items.new result reader.new (adding_at (item_behind scope.now known.now) items.old reader.old) }
    ensures shrinks { length reader.new ≤ length (behind reader.old) }
{
    reader.skip();
    let item = item(alloc, reader, scope, known)?;
    items.push(item)?;
    Ok(())
}

/// Whether a `;` stands next, and so many items may stand there still.
fn has_further(reader: &Reader<'_>, room: u32) -> bool
    ensures { result ≡ (nat_lt 0 room && has (codes ";") reader.now) }
{
    room > 0 && reader.has(b";")
}

/// Items behind the first, each behind a `;`.
fn further_items(
    alloc: Global,
    reader: &mut Reader<'_>,
    scope: &Scope<'_>,
    known: &Known<'_>,
    first: ItemList,
) -> Result<ItemList, ReadError>
    ensures reads { Gives result reader.new (steps_at (has (codes ";")) (adding_at (item_behind scope.now known.now)) most_further_items first reader.old) }
    ensures shrinks { length reader.new ≤ length reader.old }
{
    let mut items = first;
    let mut room = MOST_FURTHER_ITEMS;
    while has_further(reader, room) {
        add_item(alloc, reader, scope, known, &mut items)?;
        room -= 1;
    }
    Ok(items)
}

/// The items of an iterator: 1 to 16, with `;` between them.
#[tactic(auto, unfolding(crate::specs::ItemReading::items_at))]
pub fn read_items(
    alloc: Global,
    reader: &mut Reader<'_>,
    scope: &Scope<'_>,
    known: &Known<'_>,
) -> Result<ItemList, ReadError>
    ensures reads { Gives result reader.new (items_at scope.now known.now reader.old) }
    ensures shrinks { length reader.new ≤ length reader.old }
{
    let item = item(alloc, reader, scope, known)?;
    let mut first = ItemList::new(alloc);
    first.push(item)?;
    let items = further_items(alloc, reader, scope, known, first)?;
    Ok(items)
}
