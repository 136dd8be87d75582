//! The tables of the functions that run: where their jumps go, and how their types are laid out.
ghost use Rattle.std.specs.Prelude.{◌≡◌, Some, bytes_eq, option_copied, position, slice_get, IfOk, IfSome};
ghost use Rattle.lx_code.specs.Fits.{AreTablesOf};
ghost use Rattle.lx_model.specs.Program.{module_of};
ghost use Rattle.lx_images.specs.Image.{Code, image_of_entry, image_routine};
ghost use Rattle.lx_image_code.specs.Jumps.{blocks_or_none, home_in_entry, numbers_at, op_at, text_of_entry, HasJumps, IsCaseAt, IsEdgeAt, IsPhiDecided, IsRoomAt, IsRouteAt, IsSwitchDecided};
ghost use Rattle.lx_image_code.specs.Reach.{AreWithinReach};
ghost use Rattle.lx_image_code.specs.Code.{code_of};

use crate::functions::{function_named, home_named};
use lx_code::{Code as ProgramCode, CodeTables, PlacedText, Room, Route, constant_of};
use lx_ir::module::{Block, Constant, Module};
use lx_ir_uses::blocks_of;
use lx_ir_verify::Verified;
use lx_model::program::{Program, ProgramFunction};
use lx_words::{Items, Memory};
use std::alloc::Global;

// The blocks that run of an entry of the program's list; none, where no text defines it.
fn blocks_named<'a>(
    program: &'a Program,
    images: &'a [Verified],
    entry: &ProgramFunction,
) -> &'a [Block]
    ensures { result.now ≡ blocks_or_none (image_of_entry (code_of program.now images.now) (Some entry.now)) }
{
    match function_named(program, images, entry) {
        Some(function) => blocks_of(function),
        None => &[],
    }
}

// A text of a program, by which images are reckoned with, and whose it is.
#[derive(Clone, Copy)]
struct TextOf<'a> {
    code: &'a ProgramCode,
    home: Option<u32>,
}

impl PlacedText for TextOf<'_> {
    ghost has = { λ t. module_of t.code.now t.home };

    ghost comes_to = { λ t. numbers_at t.code.now t.home };

    fn text(&self) -> &Module {
        self.code.text(self.home)
    }

    fn number(&self, constant: &Constant) -> u64 {
        constant_of(self.code, self.home, constant).bits
    }
}

// The tables of the blocks that run of an entry of the program's list.
fn tables_named(
    alloc: Global,
    code: &ProgramCode,
    images: &[Verified],
    entry: &ProgramFunction,
) -> Result<CodeTables, Memory>
    requires { AreWithinReach code.now images.now }
    ensures { IfOk result (λ t. AreTablesOf (text_of_entry code.now (Some entry.now)).types (numbers_at code.now (home_in_entry (Some entry.now))) (blocks_or_none (image_of_entry (code_of code.now images.now) (Some entry.now))) t) }
{
    let text = TextOf {
        code,
        home: home_named(entry),
    };
    let blocks = blocks_named(code.program(), images, entry);
    let tables = CodeTables::new(alloc, &text, blocks)?;
    Ok(tables)
}

/// The tables of each function of a program, by their numbers.
pub(crate) fn jumps_of(
    alloc: Global,
    code: &ProgramCode,
    images: &[Verified],
) -> Result<Items<CodeTables>, Memory>
    requires { AreWithinReach code.now images.now }
    ensures { IfOk result (λ tables. HasJumps (code_of code.now images.now) tables) }
{
    let mut tables = Items::new(alloc);
    for entry in code.program().functions.as_slice() {
        let jumps = tables_named(alloc, code, images, entry)?;
        tables.push(jumps)?;
    }
    Ok(tables)
}

fn tables_at(jumps: &[CodeTables], number: u32) -> Option<&CodeTables>
    ensures { option_copied result ≡ slice_get jumps.now number }
{
    jumps.get(number as usize)
}

/// The number of a function's first block with a label.
pub(crate) fn first_block(jumps: &[CodeTables], number: u32, label: &[u8]) -> Option<usize>
    ensures { (c : Code) → HasJumps c jumps.now → result ≡ position (λ b. bytes_eq b.label label.now) (image_routine c number).blocks }
{
    match tables_at(jumps, number) {
        Some(tables) => tables.block_named(label),
        None => None,
    }
}

/// The place of the first case that is equal to a number, if one is, in the switch at a place of a function's block, where
/// that has a table.
pub(crate) fn first_case(
    jumps: &[CodeTables],
    number: u32,
    block: usize,
    place: usize,
    bits: u64,
) -> Option<Option<usize>>
    ensures quick { (c : Code) → HasJumps c jumps.now → IsSwitchDecided (op_at (image_routine c number).blocks block place) result }
    ensures first { (c : Code) → HasJumps c jumps.now → IfSome result (λ found. IsCaseAt c.program number (op_at (image_routine c number).blocks block place) bits found) }
{
    match tables_at(jumps, number) {
        Some(tables) => tables.case(block, place, bits),
        None => None,
    }
}

/// The place of the first edge from a label, if one is, in the phi at a place of a function's block, where that has a table.
pub(crate) fn first_edge(
    jumps: &[CodeTables],
    number: u32,
    block: usize,
    place: usize,
    label: &[u8],
) -> Option<Option<usize>>
    ensures quick { (c : Code) → HasJumps c jumps.now → IsPhiDecided (op_at (image_routine c number).blocks block place) result }
    ensures first { (c : Code) → HasJumps c jumps.now → IfSome result (λ found. IsEdgeAt (op_at (image_routine c number).blocks block place) label.now found) }
{
    match tables_at(jumps, number) {
        Some(tables) => tables.edge(block, place, label),
        None => None,
    }
}

/// The room that the `alloca` at a place of a function's block asks for, where that has a table.
pub(crate) fn room_at(jumps: &[CodeTables], number: u32, block: usize, place: usize) -> Option<Room>
    ensures { (c : Code) → HasJumps c jumps.now → IfSome result (λ room. IsRoomAt c.program number (op_at (image_routine c number).blocks block place) room) }
{
    match tables_at(jumps, number) {
        Some(tables) => tables.room(block, place),
        None => None,
    }
}

/// How far the indices of the `getelementptr` at a place of a function's block go, where that has a table.
pub(crate) fn route_at(
    jumps: &[CodeTables],
    number: u32,
    block: usize,
    place: usize,
) -> Option<&Route>
    ensures { (c : Code) → HasJumps c jumps.now → IfSome result (λ route. IsRouteAt c.program number (op_at (image_routine c number).blocks block place) route.now) }
{
    match tables_at(jumps, number) {
        Some(tables) => tables.route(block, place),
        None => None,
    }
}
