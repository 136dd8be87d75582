//! Checks of the modules that were read, each in the order of the case.

ghost use Rattle.std.specs.Prelude.{◌≡◌, ◌++◌, ◌∷◌, [], All, IfOk, OnOk, length, map, slice_get};
ghost use Rattle.lx_ir.specs.Lawful.{IsLawful};
ghost use Rattle.lx_link.specs.Answers.{module_file};
ghost use Rattle.lx_propagate.specs.Slots.{annotated_of};
ghost use Rattle.lx_files.specs.Sound.{IsSoundModule};
ghost use Rattle.lx_input.specs.Checks.{EachModule, PropagateTurn, VerifyTurn, passed};
ghost use Rattle.lx_input.specs.Laws.{HasNoConflict};

use crate::stop::{propagate_stop, verify_stop};
use lx_annot::interface::Interface;
use lx_files::InputStop;
use lx_ir::module::Module;
use lx_ir_verify::{Verified, verify};
use lx_propagate::propagate;
use lx_script::CaseModule;
use lx_slot_types::Annotated;
use lx_words::Items;
use std::alloc::Global;

/// The module of a file, where it has no fault.
#[tactic(auto, using(crate::proofs::Told::verify_told))]
pub fn verify_module(alloc: Global, file: &[u8], read: Module) -> Result<Verified, InputStop>
    requires { IsLawful read }
    ensures turn { VerifyTurn file.now read result }
    ensures same { IfOk result (λ verified. verified ≡ read) }
{
    match verify(alloc, read) {
        Ok(verified) => Ok(verified),
        Err(fault) => Err(verify_stop(alloc, file, fault)),
    }
}

/// Verifies one module more.
fn verify_next(
    alloc: Global,
    list: &mut Vec<Verified>,
    file: &[u8],
    read: Module,
) -> Result<(), InputStop>
    requires { IsLawful read }
    ensures turn { VerifyTurn file.now read result }
    ensures items { OnOk result (list.new.items ≡ list.old.items ++ read ∷ []) }
{
    let verified = verify_module(alloc, file, read)?;
    list.push(verified)?;
    Ok(())
}

/// The name of the file of the module with this number; empty where the case has none.
fn file_at(names: &[CaseModule], number: usize) -> &[u8]
    ensures { result.now ≡ module_file (slice_get names.now number) }
{
    match names.get(number) {
        Some(name) => name.file.as_slice(),
        None => &[],
    }
}

/// Verifies each module.
#[tactic(auto, using(crate::proofs::Each::starts))]
pub fn verify_modules(
    alloc: Global,
    names: &[CaseModule],
    modules: Vec<Module>,
) -> Result<Vec<Verified>, InputStop>
    requires sound { All IsSoundModule modules.items }
    requires as_many { length modules.items ≡ length names.now }
    ensures turn { EachModule VerifyTurn names.now modules.items (passed result) }
    ensures same { IfOk result (λ list. list.items ≡ modules.items) }
{
    let mut list = Vec::new(alloc);
    for read in modules {
        let file = file_at(names, list.len());
        verify_next(alloc, &mut list, file, read)?;
    }
    Ok(list)
}

/// The functions of a file's module that have a slot type, where no function gets two.
#[tactic(auto, using(crate::proofs::Told::propagate_told))]
fn annotated_of(
    alloc: Global,
    interface: &Interface,
    file: &[u8],
    read: &Module,
) -> Result<Annotated, InputStop>
    requires { IsLawful read.now }
    ensures turn { PropagateTurn interface.now file.now read.now result }
    ensures same { IfOk result (λ list. list ≡ annotated_of interface.now read.now) }
{
    match propagate(alloc, interface, read) {
        Ok(list) => Ok(list),
        Err(fault) => Err(propagate_stop(alloc, file, fault)),
    }
}

/// Hands on slot types in one module more.
fn annotate_next(
    alloc: Global,
    list: &mut Items<Annotated>,
    interface: &Interface,
    file: &[u8],
    verified: &Verified,
) -> Result<(), InputStop>
    ensures turn { PropagateTurn interface.now file.now verified.now result }
    ensures items { OnOk result (list.new ≡ list.old ++ annotated_of interface.now verified.now ∷ []) }
{
    let annotated = annotated_of(alloc, interface, file, verified.module())?;
    list.push(annotated)?;
    Ok(())
}

/// Hands on slot types in each module.
#[tactic(auto, using(crate::proofs::Each::starts))]
pub fn annotate_modules(
    alloc: Global,
    interface: &Interface,
    names: &[CaseModule],
    modules: &[Verified],
) -> Result<Items<Annotated>, InputStop>
    requires { length modules.now ≡ length names.now }
    ensures turn { EachModule (PropagateTurn interface.now) names.now modules.now (passed result) }
    ensures same { IfOk result (λ list. list ≡ map (annotated_of interface.now) modules.now) }
    ensures agree { IfOk result (λ _. All (HasNoConflict interface.now) modules.now) }
{
    let mut list = Items::new(alloc);
    for verified in modules {
        let file = file_at(names, list.len());
        annotate_next(alloc, &mut list, interface, file, verified)?;
    }
    Ok(list)
}
