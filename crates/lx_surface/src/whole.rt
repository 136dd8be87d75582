//! The bound of a linked program.
ghost use Rattle.std.specs.Prelude.{◌≡◌, IfOk};
ghost use Rattle.lx_annotation_tables.specs.Entries.{all_annotated};
ghost use Rattle.lx_ir.specs.Lawful.{IsLawful};
ghost use Rattle.lx_link_texts.specs.WellFormed.{IsWellFormed};
ghost use Rattle.lx_propagate.specs.Slots.{annotated_of};
ghost use Rattle.lx_surface.specs.Bound.{IsExact};

use crate::{Bound, bound_of};
use lx_annot::interface::Interface;
use lx_annotation_tables::sources_of;
use lx_ir::module::Module;
use lx_link::Linked;
use lx_model::program::Program;
use lx_propagate::annotated;
use lx_slot_types::Annotated;
use lx_words::Memory;
use std::alloc::Global;

#[tactic(auto, using(lx_propagate::proofs::Within::lawful_types))]
fn annotated_in(alloc: Global, i: &Interface, text: &Module) -> Result<Annotated, Memory>
    requires { IsLawful text.now }
    ensures { IfOk result (λ list. list ≡ annotated_of i.now text.now) }
{
    let list = annotated(alloc, i, text)?;
    Ok(list)
}

/// The functions of each module that get a slot type.
#[tactic(auto, using(crate::proofs::MarkLemmas::lawful_at))]
fn all_annotated(alloc: Global, program: &Program) -> Result<Vec<Annotated>, Memory>
    requires { IsWellFormed program.now }
    ensures { IfOk result (λ lists. lists.items ≡ all_annotated program.now) }
{
    let mut lists = Vec::new(alloc);
    for entry in program.modules.as_slice() {
        let list = annotated_in(alloc, &program.interface, &entry.module)?;
        lists.push(list)?;
    }
    Ok(lists)
}

/// What each module of a program can come to hold. `annotated` has the functions of each module that get a slot type.
///
/// # Errors
/// Want of memory.
#[tactic(auto, using(crate::proofs::MarkLemmas::few))]
pub fn bound_by(alloc: Global, program: &Program, annotated: &[Annotated]) -> Result<Bound, Memory>
    requires well_formed { IsWellFormed program.now }
    requires annotated { annotated.now ≡ all_annotated program.now }
    ensures { IfOk result (λ bound. IsExact program.now bound) }
{
    let sources = sources_of(alloc, program, annotated)?;
    let bound = bound_of(alloc, program, sources.as_slice())?;
    Ok(bound)
}

/// What each module of a linked program can come to hold.
///
/// # Errors
/// Want of memory.
pub fn bound(alloc: Global, linked: &Linked) -> Result<Bound, Memory>
    ensures { IfOk result (λ bound. IsExact linked.now.program bound) }
{
    let program = linked.program();
    let annotated = all_annotated(alloc, program)?;
    let bound = bound_by(alloc, program, annotated.as_slice())?;
    Ok(bound)
}
