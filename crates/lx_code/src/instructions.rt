//! The tables of instructions, by where these stand.
ghost use Rattle.std.specs.Prelude.{◌≡◌, ℕ, Some, List, option_map, slice_get, true, IfOk, IfSome, IsSome, IsTrue, OnOk};
ghost use Rattle.lx_ir.specs.declared.instr.Op.{Op};
ghost use Rattle.lx_ir.specs.declared.instr.Op.TheVariants as op;
ghost use Rattle.lx_ir.specs.declared.module.Block.{Block};
ghost use Rattle.lx_ir.specs.declared.module.Value.{Value};
ghost use Rattle.lx_ir.specs.declared.types.Scalar.{Scalar};
ghost use Rattle.lx_ir.specs.declared.types.NamedType.{NamedType};
ghost use Rattle.lx_ir.specs.Layout.{is_lawful_type};
ghost use Rattle.lx_code.specs.Firsts.{Numbers};
ghost use Rattle.lx_code.specs.Fits.{at_place, op_at, wants_table, FitsAt, FitsOp, HasEachLarge, HasIfLarge, HasTables, KeepsEach};
ghost use Rattle.lx_code.specs.Sized.{is_sized, are_sized, are_sized_instrs};

use crate::names::edges_of;
use crate::numbers::{are_fixed, cases_of};
use crate::routes::{Room, Route, room_of, route_of};
use crate::text::PlacedText;
use indexmap::IndexMap;
use lx_ir::instr::{Argument, Edge, Instr, Op, SwitchCase};
use lx_ir::module::{Block, Module};
use lx_ir::types::IrType;
use lx_words::Memory;
use std::alloc::Global;

/// The number of a block, and the place of an instruction there.
pub(crate) type Place = (usize, usize);

/// So many cases or edges are searched sooner than a table is asked.
const FEW: usize = 8;

/// What is known of an instruction before it runs: the places of a switch's first cases by their numbers, or of a phi's first
/// edges by their labels, the room of what an `alloca` allocates, or the route of a `getelementptr`.
#[derive(Drop)]
pub(crate) enum Table {
    Cases(IndexMap<u64, usize>),
    Edges(IndexMap<Vec<u8>, usize>),
    Room(Room),
    Route(Route),
}

// The table of a switch, which is made if it has more than a few cases and each is a constant.
fn table_of_cases<C: PlacedText>(
    alloc: Global,
    text: &C,
    cases: &[SwitchCase],
) -> Result<Option<Table>, Memory>
    ensures fits { IfOk result (λ found. IfSome found (λ table. (types : List NamedType) → (ty : Scalar) → (v : Value) → (otherwise : List ℕ) → FitsOp types (C.comes_to text.now) (op.Switch ty v otherwise cases.now) table)) }
    ensures large { IfOk result (λ found. (ty : Scalar) → (v : Value) → (otherwise : List ℕ) → wants_table (op.Switch ty v otherwise cases.now) ≡ true → IsSome found) }
{
    if cases.len() <= FEW || !are_fixed(cases) {
        return Ok(None);
    }
    let numbers = cases_of(alloc, text, cases)?;
    Ok(Some(Table::Cases(numbers)))
}

// The table of a phi, which is made if it has more than a few edges.
fn table_of_edges(alloc: Global, edges: &[Edge]) -> Result<Option<Table>, Memory>
    ensures fits { IfOk result (λ found. IfSome found (λ table. (types : List NamedType) → (numbers : Numbers) → (to : ℕ) → (ty : Scalar) → FitsOp types numbers (op.Phi to ty edges.now) table)) }
    ensures large { IfOk result (λ found. (to : ℕ) → (ty : Scalar) → wants_table (op.Phi to ty edges.now) ≡ true → IsSome found) }
{
    if edges.len() <= FEW {
        return Ok(None);
    }
    let labels = edges_of(alloc, edges)?;
    Ok(Some(Table::Edges(labels)))
}

// The room of a type, if it is given one.
fn table_of_room(text: &Module, ty: &IrType) -> Option<Table>
    requires { IsTrue (is_lawful_type text.now.types ty.now) }
    ensures { IfSome result (λ table. (numbers : Numbers) → (to : ℕ) → FitsOp text.now.types numbers (op.Alloca to ty.now) table) }
{
    match room_of(text, ty) {
        Some(room) => Some(Table::Room(room)),
        None => None,
    }
}

// The route of indices, if they are given one.
fn table_of_route(
    alloc: Global,
    text: &Module,
    ty: &IrType,
    indices: &[Argument],
) -> Result<Option<Table>, Memory>
    requires { IsTrue (is_lawful_type text.now.types ty.now) }
    ensures { IfOk result (λ found. IfSome found (λ table. (numbers : Numbers) → (to : ℕ) → (base : Value) → FitsOp text.now.types numbers (op.GetElementPtr to ty.now base indices.now) table)) }
{
    match route_of(alloc, text, ty, indices)? {
        Some(route) => Ok(Some(Table::Route(route))),
        None => Ok(None),
    }
}

// The table of an instruction, if it is given one.
fn table_of<C: PlacedText>(alloc: Global, text: &C, op: &Op) -> Result<Option<Table>, Memory>
    requires { IsTrue (is_sized (C.has text.now).types op.now) }
    ensures fits { IfOk result (λ found. FitsAt (C.has text.now).types (C.comes_to text.now) (Some op.now) found) }
    ensures large { IfOk result (λ found. wants_table op.now ≡ true → IsSome found) }
{
    match op {
        Op::Switch { cases, .. } => {
            let table = table_of_cases(alloc, text, cases.as_slice())?;
            Ok(table)
        }
        Op::Phi { edges, .. } => {
            let table = table_of_edges(alloc, edges.as_slice())?;
            Ok(table)
        }
        Op::Alloca { ty, .. } => Ok(table_of_room(text.text(), ty)),
        Op::GetElementPtr { ty, indices, .. } => {
            let table = table_of_route(alloc, text.text(), ty, indices.as_slice())?;
            Ok(table)
        }
        _ => Ok(None),
    }
}

// Puts the table of an instruction at its place, if it is given one.
fn put_op<C: PlacedText>(
    alloc: Global,
    text: &C,
    tables: &mut IndexMap<Place, Table>,
    at: Place,
    op: &Op,
) -> Result<(), Memory>
    requires { IsTrue (is_sized (C.has text.now).types op.now) }
    ensures large { OnOk result (wants_table op.now ≡ true → IsSome (at_place tables.new.entries at.0 at.1)) }
    ensures kept { OnOk result (KeepsEach tables.old.entries tables.new.entries) }
    ensures fits { OnOk result ((blocks : List Block) → op_at blocks at.0 at.1 ≡ Some op.now → HasTables (C.has text.now).types (C.comes_to text.now) blocks tables.old.entries → HasTables (C.has text.now).types (C.comes_to text.now) blocks tables.new.entries) }
{
    let found = table_of(alloc, text, op)?;
    match found {
        Some(table) => {
            tables.insert(at, table)?;
            Ok(())
        }
        None => Ok(()),
    }
}

// Puts the tables of a block's instructions at their places.
fn put_block<C: PlacedText>(
    alloc: Global,
    text: &C,
    tables: &mut IndexMap<Place, Table>,
    number: usize,
    instrs: &[Instr],
) -> Result<(), Memory>
    requires { IsTrue (are_sized_instrs (C.has text.now).types instrs.now) }
    ensures large { OnOk result ((k : ℕ) → HasIfLarge (option_map (λ i. i.op) (slice_get instrs.now k)) (at_place tables.new.entries number k)) }
    ensures kept { OnOk result (KeepsEach tables.old.entries tables.new.entries) }
    ensures fits { OnOk result ((blocks : List Block) → (b : Block) → slice_get blocks number ≡ Some b → b.instrs ≡ instrs.now → HasTables (C.has text.now).types (C.comes_to text.now) blocks tables.old.entries → HasTables (C.has text.now).types (C.comes_to text.now) blocks tables.new.entries) }
{
    for place in 0..instrs.len() {
        put_op(alloc, text, tables, (number, place), &instrs[place].op)?;
    }
    Ok(())
}

/// The tables of the instructions of blocks.
pub(crate) fn tables_of<C: PlacedText>(
    alloc: Global,
    text: &C,
    blocks: &[Block],
) -> Result<IndexMap<Place, Table>, Memory>
    requires { IsTrue (are_sized (C.has text.now).types blocks.now) }
    ensures fits { IfOk result (λ tables. HasTables (C.has text.now).types (C.comes_to text.now) blocks.now tables.entries) }
    ensures large { IfOk result (λ tables. HasEachLarge blocks.now tables.entries) }
{
    let mut tables = IndexMap::new(alloc);
    for number in 0..blocks.len() {
        put_block(
            alloc,
            text,
            &mut tables,
            number,
            blocks[number].instrs.as_slice(),
        )?;
    }
    Ok(tables)
}
