//! Which functions of a module get which slot types.

ghost use Rattle.std.specs.Prelude.{◌≡◌, IfOk, ⊤};
ghost use Rattle.lx_ir.specs.Lawful.{IsLawful};
ghost use Rattle.lx_propagate.specs.Answers.{GivesOr, Propagates, PropagatesOr};
ghost use Rattle.lx_propagate.specs.Within.{HasLawfulTypes};
ghost use Rattle.lx_propagate.specs.Told.{HasSlotTypes};
ghost use Rattle.lx_slot_types.specs.Gets.{slot_of};
ghost use Rattle.lx_propagate.specs.Slots.{annotated_of, conflict_of};

use crate::decide::{check_functions, marked_in};
use crate::fault::PropagateFault;
use crate::means::Means;
use crate::slots::SlotTypes;
use lx_annot::interface::Interface;
use lx_ir::module::Module;
use lx_slot_types::Annotated;
use lx_words::Memory;
use std::alloc::Global;

/// Finds the first function of a module with a conflict.
fn check_module<M: Means>(
    means: &M,
    i: &Interface,
    m: &Module,
    types: &SlotTypes,
) -> Result<(), PropagateFault>
    requires { HasSlotTypes i.now m.now types.now }
    ensures { GivesOr (M.lacks means.now) (conflict_of i.now m.now) result }
{
    check_functions(means, i, m.functions.as_slice(), types)
}

/// The functions of a module with their slot types.
pub fn annotated_of(
    alloc: Global,
    i: &Interface,
    m: &Module,
    types: &SlotTypes,
) -> Result<Annotated, Memory>
    requires lawful { HasLawfulTypes m.now }
    requires types { HasSlotTypes i.now m.now types.now }
    ensures { IfOk result (λ list. list ≡ annotated_of i.now m.now) }
{
    let list = marked_in(alloc, m.functions.as_slice(), types)?;
    Ok(Annotated::from_vec(list))
}

/// Hands on slot types over any means.
#[tactic(auto, using(crate::proofs::Passes::wanted))]
fn propagate_by<M: Means>(means: &M, i: &Interface, m: &Module) -> Result<Annotated, PropagateFault>
    requires { HasLawfulTypes m.now }
    ensures { PropagatesOr (M.lacks means.now) i.now m.now result }
{
    let types = means.slot_types(i, m)?;
    match check_module(means, i, m, &types) {
        Ok(()) => {
            let list = means.annotated_of(i, m, &types)?;
            Ok(list)
        }
        Err(fault) => Err(fault),
    }
}

/// The functions that a module defines and that get a slot type, in order, each with the first slot type in
/// interface order that it gets. A function gets a slot type where it stands as the value of a field that the
/// interface types: in an initialiser, or as the value of a store to the field.
///
/// # Errors
/// `PropagateFault::Conflict` comes exactly where some function gets two slot types whose annotations have not the
/// same canonical text; it names the first such function. `PropagateFault::Memory` comes only where there was no memory
/// for the tables, for the texts of annotations in them or for the names in the fault: a conflict is looked for in those
/// tables, so that one may go unseen for want of them, but none that was found is told as want of memory.
#[tactic(auto, using(crate::proofs::Passes::any_want, crate::proofs::Within::lawful_types))]
pub fn propagate(alloc: Global, i: &Interface, m: &Module) -> Result<Annotated, PropagateFault>
    requires { IsLawful m.now }
    ensures { Propagates i.now m.now result }
{
    let list = propagate_by(&alloc, i, m)?;
    Ok(list)
}

/// The functions that a module defines and that get a slot type, in order, each with the first slot type in interface
/// order that it gets, whether functions have conflicts or not. Nothing is asked of the module's functions.
///
/// # Errors
/// Want of memory.
pub fn annotated(alloc: Global, i: &Interface, m: &Module) -> Result<Annotated, Memory>
    requires { HasLawfulTypes m.now }
    ensures { IfOk result (λ list. list ≡ annotated_of i.now m.now) }
{
    let types = SlotTypes::new(alloc, i, m)?;
    let list = annotated_of(alloc, i, m, &types)?;
    Ok(list)
}

/// Finds the first function with a conflict. Nothing is asked of the module's functions.
///
/// # Errors
/// `PropagateFault::Conflict` comes exactly where some function gets two slot types whose annotations have not the same canonical
/// text; it names the first such function.
#[tactic(auto, using(crate::proofs::Passes::wanted))]
pub fn check_conflicts(alloc: Global, i: &Interface, m: &Module) -> Result<(), PropagateFault>
    requires { HasLawfulTypes m.now }
    ensures { GivesOr ⊤ (conflict_of i.now m.now) result }
{
    let types = SlotTypes::new(alloc, i, m)?;
    check_module(&alloc, i, m, &types)?;
    Ok(())
}

/// The first slot type in interface order that a function of a module gets, if it gets one. Want of memory is the only error.
#[tactic(auto, using(crate::proofs::Within::lawful_types))]
pub fn slot_of(
    alloc: Global,
    i: &Interface,
    m: &Module,
    function: usize,
) -> Result<Option<u32>, Memory>
    requires { IsLawful m.now }
    ensures { IfOk result (λ slot. slot ≡ slot_of i.now m.now function) }
{
    let types = SlotTypes::new(alloc, i, m)?;
    Ok(types.slot_of(function))
}
