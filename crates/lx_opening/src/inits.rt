//! Initialisers of globals in memory.
ghost use Rattle.std.specs.Prelude.{◌≡◌, ◌+◌, ◌≤◌, true, IsTrue, option_copied};
ghost use Rattle.lx_actions.specs.Shown.{IsShownBy};
ghost use Rattle.lx_caps.specs.Memory.{Memory as Writes};
ghost use Rattle.lx_ir.specs.InitNodes.{inits_of_list};
ghost use Rattle.lx_ir.specs.Layout.{is_lawful_type, layout};
ghost use Rattle.lx_link_texts.specs.Placing.{last_end};
ghost use Rattle.lx_link_texts.specs.WellFormed.{IsWellFormed};
ghost use Rattle.lx_model.specs.Opening.{global_of, is_packed, with_global, with_globals, with_init, with_items};
ghost use Rattle.lx_opening.specs.Placed.{IsGlobalPlaced, are_items_placed, end_behind, fits_item, is_init_placed, start_behind};

use crate::bytes::write_bytes;
use crate::space::write;
use lx_code::{Code, constant_of};
use lx_ir::module::{Brackets, GlobalVar, Init, InitNode, Module};
use lx_ir::types::IrType;
use lx_ir::{align_of, size_of};
use lx_memory::Space;
use lx_model::program::ProgramGlobal;

/// Where an item of a group begins, and where it ends, counted from the group's address.
#[derive(Clone, Copy)]
struct Extent {
    start: u64,
    end: u64,
}

/// Whether the items of a group leave no room between them.
fn is_packed(brackets: Brackets) -> bool
    ensures { result ≡ is_packed brackets }
{
    !matches!(brackets, Brackets::Struct)
}

/// Where a further item of a group begins, behind items that take so many bytes.
#[tactic(auto, unfolding(crate::specs::Placed::start_behind))]
fn start_behind(text: &Module, packed: bool, taken: u64, ty: &IrType) -> u64
    requires lawful { IsTrue (is_lawful_type text.now.types ty.now) }
    requires near { start_behind text.now.types packed taken ty.now ≤ last_end }
    ensures { result ≡ start_behind text.now.types packed taken ty.now }
{
    if packed {
        taken
    } else {
        taken.next_multiple_of(align_of(text, ty))
    }
}

/// The extent of a further item of a group at an address, behind items that take so many bytes.
#[tactic(auto, using(crate::proofs::Items::fit_lawful, crate::proofs::Items::fit_start))]
fn extent_of(text: &Module, at: u64, packed: bool, taken: u64, ty: &IrType) -> Extent
    requires { fits_item text.now.types at packed taken ty.now ≡ true }
    ensures start { result.start ≡ start_behind text.now.types packed taken ty.now }
    ensures end { result.end ≡ end_behind text.now.types packed taken ty.now }
    ensures ordered { result.start ≤ result.end }
    ensures near { at + result.end ≤ last_end }
{
    let start = start_behind(text, packed, taken, ty);
    Extent {
        start,
        end: start + size_of(text, ty),
    }
}

/// Writes an initialiser at an address.
#[cycle(init)]
fn put_init(space: &mut Space, code: &Code, home: Option<u32>, at: u64, init: &Init)
    requires { is_init_placed code.now home at init.now ≡ true }
    ensures { (m : Writes) → IsShownBy space.old m → IsShownBy space.new (with_init code.now home at init.now m) }
{
    match &init.node {
        InitNode::Plain(constant) => write(space, at, constant_of(code, home, constant)),
        InitNode::Blank(_) => {}
        InitNode::Bytes(bytes) => write_bytes(space, at, bytes.as_slice()),
        InitNode::Group(brackets, types, items) => put_items(
            space,
            code,
            home,
            at,
            is_packed(*brackets),
            types.as_slice(),
            items,
        ),
    }
}

/// Writes the items of a group that begins at an address.
#[cycle(init)]
fn put_items(
    space: &mut Space,
    code: &Code,
    home: Option<u32>,
    at: u64,
    packed: bool,
    types: &[IrType],
    items: &[Init],
)
    requires { are_items_placed code.now home at packed 0 types.now (inits_of_list items.now) ≡ true }
    ensures { (m : Writes) → IsShownBy space.old m → IsShownBy space.new (with_items code.now home at packed (layout 0 1) types.now (inits_of_list items.now) m) }
{
    let text = code.text(home);
    let mut taken = 0;
    for i in 0..types.len().min(items.len()) {
        let (ty, item) = (&types[i], &items[i]);
        let extent = extent_of(text, at, packed, taken, ty);
        put_init(space, code, home, at + extent.start, item);
        taken = extent.end;
    }
}

/// The global of a text.
pub(crate) fn global_of<'a>(code: &'a Code, global: &ProgramGlobal) -> Option<&'a GlobalVar>
    ensures { option_copied result ≡ global_of code.now global.now }
{
    code.text(global.module)
        .globals
        .items
        .get(global.global as usize)
}

/// Writes what a global begins as.
#[tactic(auto, using(crate::proofs::Globals::placed_init))]
fn put_global(space: &mut Space, code: &Code, global: &ProgramGlobal)
    requires { IsGlobalPlaced code.now global.now }
    ensures { (m : Writes) → IsShownBy space.old m → IsShownBy space.new (with_global code.now global.now (global_of code.now global.now) m) }
{
    if let Some(variable) = global_of(code, global) {
        put_init(space, code, global.module, global.at, &variable.init);
    }
}

/// Writes what the globals begin as.
pub(crate) fn put_globals(space: &mut Space, code: &Code)
    requires { IsWellFormed code.now }
    ensures { (m : Writes) → IsShownBy space.old m → IsShownBy space.new (with_globals code.now code.now.globals m) }
{
    for global in code.program().globals.as_slice() {
        put_global(space, code, global);
    }
}
