//! Reading the lists of capabilities that actions and items name.

ghost use Rattle.std.specs.Prelude.{◌≡◌, ◌≤◌, length};
ghost use Rattle.lx_annot_expressions.specs.Reading.{Gives, Passes, behind};
ghost use Rattle.lx_annot_terms.specs.Lists.{call_at, each_at, ends, item_list_at, list_at, range_at, ref_at, ref_item_at, reference_at, size_mark_at, target_at, write_at};

use lx_annot::action::CapSpec;
use lx_annot_expressions::{FaultKind, NameTable, ReadError, Reader, Scope};
use std::alloc::Global;
use std::marker::Model;

/// What an action may use: the names of reference types and iterators, and whether it may lend.
#[derive(Drop)]
pub struct Known<'a> {
    pub reftypes: &'a NameTable<'a>,
    pub iterators: &'a NameTable<'a>,
    pub lends: bool,
}

impl<'a> Model for Known<'a> {
    ghost use Rattle.lx_annot_terms.specs.Lists.{Known as Meaning};

    ghost Value = { Meaning };

    ghost view = { λ k. record { reftypes = k.reftypes.now; iterators = k.iterators.now; lends = k.lends } };
}

/// In what a list stands.
#[derive(Clone, Copy)]
pub enum Within {
    /// In an action, in brackets.
    Action,
    /// In an iterator, as an item.
    Iterator,
}

/// Whether the mark that ends a list, or an item, stands next.
fn ends(reader: &Reader<'_>, place: Within) -> bool
    ensures { result ≡ ends place reader.now }
{
    match place {
        Within::Action => reader.has(b")"),
        Within::Iterator => reader.has(b";") || reader.has(b"}"),
    }
}

/// The comma before the size of a `write`, which has this many tokens from its word on.
fn size_mark(reader: &mut Reader<'_>, place: Within, write: &Reader<'_>) -> Result<(), ReadError>
    ensures reads { Passes result reader.new (size_mark_at place write.now reader.old) }
    ensures shrinks { length reader.new ≤ length reader.old }
{
    if reader.takes(b",") {
        return Ok(());
    }
    if ends(reader, place) {
        return Err(write.fault(FaultKind::NeedsSize));
    }
    Err(reader.fault(FaultKind::Statement))
}

/// An address and a size, of the `write` at which `write` stands.
fn range(
    alloc: Global,
    reader: &mut Reader<'_>,
    place: Within,
    scope: &Scope<'_>,
    write: &Reader<'_>,
) -> Result<CapSpec, ReadError>
    ensures reads { Gives result reader.new (range_at place scope.now write.now reader.old) }
    ensures shrinks { length reader.new ≤ length reader.old }
{
    let at = reader.expr(alloc, scope)?;
    size_mark(reader, place, write)?;
    let size = reader.expr(alloc, scope)?;
    Ok(CapSpec::Write(at, size))
}

/// The address of a function.
fn target(alloc: Global, reader: &mut Reader<'_>, scope: &Scope<'_>) -> Result<CapSpec, ReadError>
    ensures reads { Gives result reader.new (target_at scope.now reader.old) }
    ensures shrinks { length reader.new ≤ length reader.old }
{
    let at = reader.expr(alloc, scope)?;
    Ok(CapSpec::Call(at))
}

/// A comma, and an address of a reference type.
fn reference(
    alloc: Global,
    reader: &mut Reader<'_>,
    ty: u32,
    scope: &Scope<'_>,
) -> Result<CapSpec, ReadError>
    ensures reads { Gives result reader.new (reference_at ty scope.now reader.old) }
    ensures shrinks { length reader.new ≤ length reader.old }
{
    reader.expect(b",")?;
    let at = reader.expr(alloc, scope)?;
    Ok(CapSpec::Ref(ty, at))
}

/// A `write` in an action.
fn write(alloc: Global, reader: &mut Reader<'_>, scope: &Scope<'_>) -> Result<CapSpec, ReadError>
    ensures reads { Gives result reader.new (write_at scope.now reader.old) }
    ensures shrinks { length reader.new ≤ length reader.old }
{
    let write = reader.here();
    reader.skip();
    reader.expect(b",")?;
    let range = range(alloc, reader, Within::Action, scope, &write)?;
    Ok(range)
}

/// A `call` in an action.
fn call(alloc: Global, reader: &mut Reader<'_>, scope: &Scope<'_>) -> Result<CapSpec, ReadError>
    ensures reads { Gives result reader.new (call_at scope.now reader.old) }
    ensures shrinks { length reader.new ≤ length reader.old }
{
    reader.skip();
    reader.expect(b",")?;
    let target = target(alloc, reader, scope)?;
    Ok(target)
}

/// A `ref` in an action.
fn reference_list(
    alloc: Global,
    reader: &mut Reader<'_>,
    scope: &Scope<'_>,
    known: &Known<'_>,
) -> Result<CapSpec, ReadError>
    ensures reads { Gives result reader.new (ref_at scope.now known.now reader.old) }
    ensures shrinks { length reader.new ≤ length reader.old }
{
    reader.skip();
    reader.expect(b"(")?;
    let ty = reader.known(known.reftypes)?;
    reader.expect(b")")?;
    let reference = reference(alloc, reader, ty, scope)?;
    Ok(reference)
}

/// The items of an iterator.
fn each(
    alloc: Global,
    reader: &mut Reader<'_>,
    scope: &Scope<'_>,
    known: &Known<'_>,
) -> Result<CapSpec, ReadError>
    ensures reads { Gives result reader.new (each_at scope.now known.now reader.old) }
    ensures shrinks { length reader.new ≤ length reader.old }
{
    let iterator = reader.known(known.iterators)?;
    let of = reader.bracketed(alloc, scope)?;
    Ok(CapSpec::Each(iterator, of))
}

/// The list of an action: `write, E, E`, `call, E`, `ref(NAME), E` or `NAME(E)`.
#[tactic(auto, unfolding(crate::specs::Lists::list_at))]
pub fn list(
    alloc: Global,
    reader: &mut Reader<'_>,
    scope: &Scope<'_>,
    known: &Known<'_>,
) -> Result<CapSpec, ReadError>
    ensures reads { Gives result reader.new (list_at scope.now known.now reader.old) }
    ensures shrinks { length reader.new ≤ length reader.old }
{
    let list = if reader.has(b"write") {
        write(alloc, reader, scope)?
    } else if reader.has(b"call") {
        call(alloc, reader, scope)?
    } else if reader.has(b"ref") {
        reference_list(alloc, reader, scope, known)?
    } else {
        each(alloc, reader, scope, known)?
    };
    Ok(list)
}

/// A `write` that is an item.
fn write_item(
    alloc: Global,
    reader: &mut Reader<'_>,
    scope: &Scope<'_>,
) -> Result<CapSpec, ReadError>
    ensures reads { Gives result reader.new (range_at Within.Iterator scope.now reader.old (behind reader.old)) }
    ensures shrinks { length reader.new ≤ length reader.old }
{
    let write = reader.here();
    reader.skip();
    let range = range(alloc, reader, Within::Iterator, scope, &write)?;
    Ok(range)
}

/// A `ref` that is an item.
fn reference_item(
    alloc: Global,
    reader: &mut Reader<'_>,
    scope: &Scope<'_>,
    known: &Known<'_>,
) -> Result<CapSpec, ReadError>
    ensures reads { Gives result reader.new (ref_item_at scope.now known.now reader.old) }
    ensures shrinks { length reader.new ≤ length reader.old }
{
    reader.skip();
    let ty = reader.known(known.reftypes)?;
    let reference = reference(alloc, reader, ty, scope)?;
    Ok(reference)
}

/// What an item names: `write E, E`, `call E` or `ref NAME, E`.
#[tactic(auto, unfolding(crate::specs::Lists::item_list_at))]
pub fn item_list(
    alloc: Global,
    reader: &mut Reader<'_>,
    scope: &Scope<'_>,
    known: &Known<'_>,
) -> Result<CapSpec, ReadError>
    ensures reads { Gives result reader.new (item_list_at scope.now known.now reader.old) }
    ensures shrinks { length reader.new ≤ length reader.old }
{
    if reader.has(b"write") {
        let list = write_item(alloc, reader, scope)?;
        return Ok(list);
    }
    if reader.takes(b"call") {
        let list = target(alloc, reader, scope)?;
        return Ok(list);
    }
    if reader.has(b"ref") {
        let list = reference_item(alloc, reader, scope, known)?;
        return Ok(list);
    }
    Err(reader.fault(FaultKind::Statement))
}
