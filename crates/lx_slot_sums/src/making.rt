//! Spreads are made here: of the types of globals, and of each named type in them once.
ghost use Rattle.std.specs.Prelude.{◌≡◌, ◌<◌, ◌≤◌, ◌++◌, ◌∷◌, [], ℕ, None, Some, List, IfOk, IsTrue, OnOk, if◌then◌else◌, length, nat_lt, option_map, slice_get};
ghost use Rattle.lx_ir.specs.IrType.{Named};
ghost use Rattle.lx_ir.specs.Layout.{is_lawful_type, is_type_within, layout, size_of};
ghost use Rattle.lx_ir.specs.TypeNodes.{types_of_list};
ghost use Rattle.lx_slot_types.specs.Sites.{FieldName, array_fields_at, entry_fields, fields_at, names_of, start_of, struct_fields_at};
ghost use Rattle.lx_slot_sums.specs.Known.{AreGlobals, AreNamed, IsMade, Joins, named_fields};
ghost use Rattle.lx_slot_sums.specs.Rows.{edge, edges};
ghost use Rattle.lx_slot_sums.specs.Spreads.{HasAnswer, IsRepeated, IsSpread, Puts, Says};
ghost use Rattle.lx_slot_sums.specs.Sums.{sum_in};
ghost use Rattle.lx_slot_sums.specs.Within.{AreFields, IsEntry};

use crate::field_sums::FieldSums;
use crate::fields::FieldName;
use crate::known::{keep, known, named_type, nothing_known};
use crate::rows::{Edge, Row};
use crate::spread::{Repeated, Spread, sum_at};
use crate::sums::SlotSum;
use lx_ir::module::Module;
use lx_ir::types::{IrType, TypeNode};
use lx_ir::{MOST_NAMES, align_of, size_of};
use lx_words::{Memory, number_of};
use std::alloc::Global;

/// The spreads of a module's types.
#[derive(Drop)]
pub(crate) struct Spreads {
    /// All of them, each behind those of its parts.
    pub all: Vec<Spread>,
    /// The numbers of the spreads of named types, where they are made.
    pub named: Vec<Option<u32>>,
}

/// How a struct is written: its number, where it has a name, and whether it is packed.
#[derive(Clone, Copy)]
struct Form {
    name: Option<u32>,
    packed: bool,
}

impl Form {
    /// Without a name.
    fn unnamed(packed: bool) -> Form
        ensures { result ≡ record { name = None; packed = packed } }
    {
        Form { name: None, packed }
    }

    /// With a name.
    fn named(number: u32, packed: bool) -> Form
        ensures { result ≡ record { name = Some number; packed = packed } }
    {
        Form {
            name: Some(number),
            packed,
        }
    }
}

/// Where a field begins and ends, and its spread.
#[derive(Clone, Copy)]
pub(crate) struct Laid {
    pub start: u64,
    pub end: u64,
    pub inside: Option<u32>,
}

/// Where a field begins behind fields that take so many bytes; a packed struct leaves no room before it.
fn start_of(m: &Module, packed: bool, taken: u64, field: &IrType) -> u64
    requires lawful { IsTrue (is_lawful_type m.now.types field.now) }
    requires fits { start_of m.now.types packed field.now (layout taken 1) ≤ 4294967296 }
    ensures { result ≡ start_of m.now.types packed field.now (layout taken 1) }
{
    if packed {
        taken
    } else {
        taken.next_multiple_of(align_of(m, field))
    }
}

/// The sum of the field with a number, where its struct has a name.
fn name_sum(sums: &FieldSums<'_>, name: Option<u32>, index: usize) -> SlotSum
    ensures { result ≡ sum_in sums.now (names_of name index) }
{
    match name {
        Some(struct_number) => sums.of_field(FieldName {
            struct_number,
            index: index as u64,
        }),
        None => sums.empty(),
    }
}

/// Puts a further spread behind the others.
fn push(all: &mut Vec<Spread>, spread: Spread) -> Result<u32, Memory>
    ensures number { IfOk result (λ n. n ≡ length all.old.items) }
    ensures list { IfOk result (λ n. all.new.items ≡ all.old.items ++ spread ∷ []) }
{
    let number = number_of(all.len())?;
    all.push(spread)?;
    Ok(number)
}

/// Puts the spread of a type behind the others.
fn put_spread(spreads: &mut Spreads, spread: Spread) -> Result<u32, Memory>
    ensures { IfOk result (λ n. Joins spreads.old.all.items spreads.new.all.items spreads.old.named.items spreads.new.named.items spread n) }
{
    let number = push(&mut spreads.all, spread)?;
    Ok(number)
}

/// Puts a field behind the others. Several may begin at one offset, where fields take no bytes.
fn put_field(
    sums: &FieldSums<'_>,
    all: &[Spread],
    row: &mut Row,
    named: SlotSum,
    field: Laid,
) -> Result<(), Memory>
    requires ordered { field.start ≤ field.end }
    requires answers { (o : ℕ) → HasAnswer all.now field.inside o }
    ensures { OnOk result (Puts sums.now all.now (edges row.old.done.items row.old.last) (edges row.new.done.items row.new.last) named field) }
{
    row.move_to(field.start)?;
    let before = sums.join(row.last.sum, named);
    let sum = sums.join(before, sum_at(all, field.inside, 0));
    let end = Edge {
        offset: field.end,
        sum: sum_at(all, field.inside, field.end - field.start),
        inside: None,
    };
    row.put(sum, field.inside, end)?;
    Ok(())
}

/// The sum at an offset of a type with a spread, where a test holds.
fn sum_if(sums: &FieldSums<'_>, all: &[Spread], holds: bool, spread: Option<u32>) -> SlotSum
    requires { HasAnswer all.now spread 0 }
    ensures { (f : ℕ → List FieldName) → IsSpread sums.now all.now spread f → result ≡ sum_in sums.now (if holds then f 0 else []) }
{
    if holds {
        sum_at(all, spread, 0)
    } else {
        sums.empty()
    }
}

/// One edge, at the beginning.
fn point(alloc: Global, sum: SlotSum) -> Result<Vec<Edge>, Memory>
    ensures { IfOk result (λ es. es.items ≡ edge 0 sum None ∷ []) }
{
    let mut edges = Vec::new(alloc);
    edges.push(Edge {
        offset: 0,
        sum,
        inside: None,
    })?;
    Ok(edges)
}

/// What is kept of an array whose elements take so many bytes, with the spread of an element.
fn repeated(
    sums: &FieldSums<'_>,
    all: &[Spread],
    size: u64,
    count: u64,
    inside: Option<u32>,
) -> Repeated
    requires positive { 0 < size }
    requires answers { (o : ℕ) → HasAnswer all.now inside o }
    ensures { (f : ℕ → List FieldName) → IsSpread sums.now all.now inside f → IsRepeated sums.now result f size count inside }
{
    let begin = sum_at(all, inside, 0);
    let end = sum_at(all, inside, size);
    Repeated {
        size,
        count,
        begin,
        between: sums.join(begin, end),
        end,
        inside,
    }
}

/// What is kept of an array.
fn array_spread(
    sums: &FieldSums<'_>,
    all: &Vec<Spread>,
    size: u64,
    count: u64,
    inside: Option<u32>,
) -> Result<Spread, Memory>
    requires { (o : ℕ) → HasAnswer all.now.items inside o }
    ensures { IfOk result (λ s. (f : ℕ → List FieldName) → IsSpread sums.now all.now.items inside f → Says sums.now all.now.items s (array_fields_at f count size)) }
{
    if size == 0 {
        let begin = sum_if(sums, all, count > 0, inside);
        let edges = point(*all.allocator(), begin)?;
        return Ok(Spread::Row(edges));
    }
    Ok(Spread::Repeat(repeated(sums, all, size, count, inside)))
}

/// Makes the spread of a type, which nests at most so deep; none where no fields begin in it.
#[cycle(making)]
fn spread_of(
    sums: &FieldSums<'_>,
    spreads: &mut Spreads,
    depth: u32,
    t: &IrType,
) -> Result<Option<u32>, Memory>
    requires within { IsTrue (is_type_within sums.now.text.types depth t.now) }
    requires few { depth ≤ 64 }
    requires known { AreNamed sums.now spreads.old.all.items spreads.old.named.items }
    ensures { IfOk result (λ n. IsMade sums.now spreads.old.all.items spreads.new.all.items spreads.new.named.items n (fields_at sums.now.text.types (named_fields sums.now.text) t.now)) }
{
    match &t.node {
        TypeNode::Scalar(_) => Ok(None),
        TypeNode::Array(count, element) => {
            let number = spread_array(sums, spreads, depth - 1, element, *count)?;
            Ok(Some(number))
        }
        TypeNode::Struct(fields) => {
            let number = spread_struct(sums, spreads, depth - 1, Form::unnamed(false), fields)?;
            Ok(Some(number))
        }
        TypeNode::Packed(fields) => {
            let number = spread_struct(sums, spreads, depth - 1, Form::unnamed(true), fields)?;
            Ok(Some(number))
        }
        TypeNode::Named(number) => {
            let spread = spread_named(sums, spreads, depth, *number)?;
            Ok(spread)
        }
    }
}

/// That of an array.
#[cycle(making)]
fn spread_array(
    sums: &FieldSums<'_>,
    spreads: &mut Spreads,
    depth: u32,
    element: &IrType,
    count: u64,
) -> Result<u32, Memory>
    requires within { IsTrue (is_type_within sums.now.text.types depth element.now) }
    requires few { depth ≤ 64 }
    requires known { AreNamed sums.now spreads.old.all.items spreads.old.named.items }
    ensures { IfOk result (λ n. IsMade sums.now spreads.old.all.items spreads.new.all.items spreads.new.named.items (Some n) (array_fields_at (fields_at sums.now.text.types (named_fields sums.now.text) element.now) count (size_of sums.now.text.types element.now))) }
{
    let inside = spread_of(sums, spreads, depth, element)?;
    let size = size_of(sums.module(), element);
    let spread = array_spread(sums, &spreads.all, size, count, inside)?;
    let number = put_spread(spreads, spread)?;
    Ok(number)
}

/// That of a struct.
#[cycle(making)]
fn spread_struct(
    sums: &FieldSums<'_>,
    spreads: &mut Spreads,
    depth: u32,
    form: Form,
    fields: &[IrType],
) -> Result<u32, Memory>
    requires within { AreFields sums.now.text.types depth form.packed fields.now }
    requires few { depth ≤ 64 }
    requires known { AreNamed sums.now spreads.old.all.items spreads.old.named.items }
    ensures { IfOk result (λ n. IsMade sums.now spreads.old.all.items spreads.new.all.items spreads.new.named.items (Some n) (struct_fields_at sums.now.text.types (named_fields sums.now.text) form.name form.packed (types_of_list fields.now) 0 (layout 0 1))) }
{
    let m = sums.module();
    let mut row = Row::new(*spreads.all.allocator());
    let mut taken = 0;
    for (k, field) in fields.iter().enumerate() {
        let start = start_of(m, form.packed, taken, field);
        let size = size_of(m, field);
        let end = start + size;
        let inside = spread_of(sums, spreads, depth, field)?;
        let named = name_sum(sums, form.name, k);
        put_field(
            sums,
            &spreads.all,
            &mut row,
            named,
            Laid { start, end, inside },
        )?;
        taken = end;
    }
    let edges = row.into_edges()?;
    let number = put_spread(spreads, Spread::Row(edges))?;
    Ok(number)
}

/// That of the named type with a number, unless it is made.
#[cycle(making)]
fn spread_named(
    sums: &FieldSums<'_>,
    spreads: &mut Spreads,
    depth: u32,
    number: u32,
) -> Result<Option<u32>, Memory>
    requires within { IsTrue (is_type_within sums.now.text.types depth (Named number)) }
    requires few { depth ≤ 64 }
    requires known { AreNamed sums.now spreads.old.all.items spreads.old.named.items }
    ensures { IfOk result (λ n. IsMade sums.now spreads.old.all.items spreads.new.all.items spreads.new.named.items n (named_fields sums.now.text number)) }
{
    match known(&spreads.named, number) {
        Some(spread) => Ok(Some(spread)),
        None => match named_type(sums.module(), number) {
            Some(t) => {
                let spread = spread_entry(sums, spreads, depth - 1, number, t)?;
                keep(&mut spreads.named, number, spread);
                Ok(spread)
            }
            None => Ok(None),
        },
    }
}

/// That of a struct that has this number.
#[cycle(making)]
fn spread_entry(
    sums: &FieldSums<'_>,
    spreads: &mut Spreads,
    depth: u32,
    number: u32,
    t: &IrType,
) -> Result<Option<u32>, Memory>
    requires within { IsEntry sums.now.text.types depth t.now }
    requires few { depth ≤ 64 }
    requires known { AreNamed sums.now spreads.old.all.items spreads.old.named.items }
    ensures { IfOk result (λ n. IsMade sums.now spreads.old.all.items spreads.new.all.items spreads.new.named.items n (entry_fields sums.now.text.types (named_fields sums.now.text) number t.now)) }
{
    match &t.node {
        TypeNode::Struct(fields) => {
            let form = Form::named(number, false);
            let spread = spread_struct(sums, spreads, depth, form, fields)?;
            Ok(Some(spread))
        }
        TypeNode::Packed(fields) => {
            let form = Form::named(number, true);
            let spread = spread_struct(sums, spreads, depth, form, fields)?;
            Ok(Some(spread))
        }
        _ => Ok(None),
    }
}

/// Makes the spreads of the types of globals, and gives their numbers; none where no fields begin.
pub(crate) fn spread_globals(
    sums: &FieldSums<'_>,
    spreads: &mut Spreads,
) -> Result<Vec<Option<u32>>, Memory>
    requires { AreNamed sums.now spreads.old.all.items spreads.old.named.items }
    ensures { IfOk result (λ globals. AreGlobals sums.now spreads.new.all.items globals.items) }
{
    sums.lawful();
    let mut globals = Vec::new(*spreads.all.allocator());
    for global in sums.module().globals.as_slice() {
        let spread = spread_of(sums, spreads, MOST_NAMES, &global.ty)?;
        globals.push(spread)?;
    }
    Ok(globals)
}

/// No spreads yet.
pub(crate) fn no_spreads(alloc: Global, sums: &FieldSums<'_>) -> Result<Spreads, Memory>
    ensures { IfOk result (λ spreads. AreNamed sums.now spreads.all.items spreads.named.items) }
{
    let named = nothing_known(alloc, sums.module().types.len())?;
    Ok(Spreads {
        all: Vec::new(alloc),
        named,
    })
}
