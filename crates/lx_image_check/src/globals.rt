//! Globals and imports that no image has.
ghost use Rattle.std.specs.Prelude.{◌≡◌};
ghost use Rattle.lx_ir.specs.Faults.{first_some};
ghost use Rattle.lx_ir.specs.InitNodes.{inits_of_list};
ghost use Rattle.lx_image_texts.specs.ImageFaults.{global_fault, import_fault, init_mentions, inits_mention};
ghost use Rattle.lx_image_marks.specs.Told.{Gives};

use lx_image_marks::{FaultKind, Refusal, constant_mentions, is_own_name, refuse};
use lx_ir::module::{Function, GlobalVar, Init, InitNode, Module};
use std::alloc::Global;

/// Whether an initialiser names a function or global with a name that images alone have.
#[cycle(inits)]
fn init_mentions(m: &Module, init: &Init) -> bool
    ensures { result ≡ init_mentions m.now init.now }
{
    match &init.node {
        InitNode::Plain(constant) => constant_mentions(m, *constant),
        InitNode::Blank(_) => false,
        InitNode::Bytes(_) => false,
        InitNode::Group(_, _, items) => inits_mention(m, items),
    }
}

/// Whether some item of a group does.
#[cycle(inits)]
#[tactic(auto, using(crate::proofs::Mentioned::inits_step, crate::proofs::Mentioned::inits_end))]
fn inits_mention(m: &Module, items: &[Init]) -> bool
    ensures { result ≡ inits_mention m.now (inits_of_list items.now) }
{
    for i in 0..items.len() {
        if init_mentions(m, &items[i]) {
            return true;
        }
    }
    false
}

fn check_global(alloc: Global, m: &Module, global: &GlobalVar) -> Result<(), Refusal>
    ensures { Gives (global_fault m.now global.now) result }
{
    if is_own_name(global.name.as_slice()) || init_mentions(m, &global.init) {
        Err(refuse(
            alloc,
            FaultKind::WrapperDiffers,
            global.line,
            global.name.as_slice(),
            0,
        ))
    } else {
        Ok(())
    }
}

/// Finds the first global with a name that images alone have, or whose initialiser mentions one.
#[tactic(auto, using(lx_ir_verify::proofs::Passes::first_step, lx_ir_verify::proofs::Passes::first_end, lx_image_marks::proofs::Passes::first_answer))]
pub(crate) fn check_globals(alloc: Global, m: &Module) -> Result<(), Refusal>
    ensures { Gives (first_some (global_fault m.now) m.now.globals) result }
{
    for global in m.globals.as_slice() {
        check_global(alloc, m, global)?;
    }
    Ok(())
}

fn check_import(alloc: Global, f: &Function) -> Result<(), Refusal>
    ensures { Gives (import_fault f.now) result }
{
    if f.blocks.is_none() && is_own_name(f.name.as_slice()) {
        Err(refuse(
            alloc,
            FaultKind::WrapperDiffers,
            f.line,
            f.name.as_slice(),
            0,
        ))
    } else {
        Ok(())
    }
}

/// Finds the first import with a name that images alone have.
#[tactic(auto, using(lx_ir_verify::proofs::Passes::first_step, lx_ir_verify::proofs::Passes::first_end, lx_image_marks::proofs::Passes::first_answer))]
pub(crate) fn check_imports(alloc: Global, m: &Module) -> Result<(), Refusal>
    ensures { Gives (first_some import_fault m.now.functions) result }
{
    for f in m.functions.as_slice() {
        check_import(alloc, f)?;
    }
    Ok(())
}
