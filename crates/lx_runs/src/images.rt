//! The images of a program's modules, made and checked.
ghost use Rattle.std.specs.Prelude.{◌≡◌, All, IfOk, OnOk, None, []};
ghost use Rattle.lx_ir.specs.Lawful.{IsPlain};
ghost use Rattle.lx_ir.specs.Verified.{IsVerified};
ghost use Rattle.lx_propagate.specs.Slots.{annotated_of, conflict_of};
ghost use Rattle.lx_annotation_tables.specs.Entries.{all_annotated};
ghost use Rattle.lx_input.specs.Laws.{HasNoConflict};
ghost use Rattle.lx_link_texts.specs.WellFormed.{IsWellFormed};
ghost use Rattle.lx_model.specs.declared.program.ProgramModule.{ProgramModule};
ghost use Rattle.lx_runs.specs.Images.{AreMadeOf, HasPushed, IsInstrumented, IsMadeOf};

use lx_annot::interface::Interface;
use lx_image_check::{Checked, Refusal, check};
use lx_instrument::{instrument_module, instrument_module_full};
use lx_ir::module::Module;
use lx_ir_verify::Verified;
use lx_model::program::Program;
use lx_simulation::accepted_laws;
use lx_slot_types::Annotated;
use lx_words::Memory;
use std::alloc::Global;

/// Which stores of an image have a guard.
#[derive(Clone, Copy)]
pub enum Guarding {
    /// Each but those that are spared.
    Spared,
    /// Each.
    Full,
}

/// What the instrumenter makes of a module.
fn instrumented(
    alloc: Global,
    i: &Interface,
    module: &Module,
    annotated: &Annotated,
    guarding: Guarding,
) -> Result<Verified, Memory>
    requires verified { IsVerified module.now }
    requires plain { IsPlain module.now }
    requires annotated { annotated.now ≡ annotated_of i.now module.now }
    requires agrees { conflict_of i.now module.now ≡ None }
    ensures image { IfOk result (IsInstrumented guarding i.now module.now) }
    ensures verified { IfOk result IsVerified }
{
    match guarding {
        Guarding::Spared => instrument_module(alloc, i, module, annotated),
        Guarding::Full => instrument_module_full(alloc, i, module, annotated),
    }
}

/// The image of a module. The checker finds no fault in it.
fn image_of(
    alloc: Global,
    i: &Interface,
    module: &Module,
    annotated: &Annotated,
    guarding: Guarding,
) -> Result<Checked, Memory>
    requires verified { IsVerified module.now }
    requires plain { IsPlain module.now }
    requires annotated { annotated.now ≡ annotated_of i.now module.now }
    requires agrees { conflict_of i.now module.now ≡ None }
    ensures { IfOk result (IsMadeOf guarding i.now module.now) }
{
    accepted_laws();
    let image = instrumented(alloc, i, module, annotated, guarding)?;
    match check(alloc, i, image) {
        Ok(checked) => Ok(checked),
        Err(Refusal::Memory) => Err(Memory),
        Err(Refusal::Fault(_)) => unreachable!(),
    }
}

/// Adds the image of a module to those before it.
fn push_image(
    alloc: Global,
    images: &mut Vec<Checked>,
    i: &Interface,
    module: &Module,
    annotated: &Annotated,
    guarding: Guarding,
) -> Result<(), Memory>
    requires verified { IsVerified module.now }
    requires plain { IsPlain module.now }
    requires annotated { annotated.now ≡ annotated_of i.now module.now }
    requires agrees { conflict_of i.now module.now ≡ None }
    ensures { OnOk result (HasPushed guarding i.now module.now images.old.items images.new.items) }
{
    let image = image_of(alloc, i, module, annotated, guarding)?;
    images.push(image)?;
    Ok(())
}

/// Adds the image of each module of a program.
#[tactic(auto, using(crate::proofs::Made::made_none, crate::proofs::Made::made_all, lx_annotation_tables::proofs::ImageTables::annotated_long))]
fn push_images(
    alloc: Global,
    images: &mut Vec<Checked>,
    program: &Program,
    annotated: &[Annotated],
    guarding: Guarding,
) -> Result<(), Memory>
    requires empty { images.old.items ≡ [] }
    requires formed { IsWellFormed program.now }
    requires annotated { annotated.now ≡ all_annotated program.now }
    requires agree { All (λ (m : ProgramModule). HasNoConflict program.now.interface m.«module») program.now.modules }
    ensures { OnOk result (AreMadeOf guarding program.now.interface program.now.modules images.new.items) }
{
    for (number, entry) in program.modules.as_slice().iter().enumerate() {
        push_image(
            alloc,
            images,
            &program.interface,
            &entry.module,
            &annotated[number],
            guarding,
        )?;
    }
    Ok(())
}

/// The image of each module of a program, none of whose functions gets two slot types. `annotated` has the functions of each
/// module that get one.
///
/// # Errors
/// Want of memory; a module whose image no text can say is that too.
pub fn images_of_program(
    alloc: Global,
    program: &Program,
    annotated: &[Annotated],
    guarding: Guarding,
) -> Result<Vec<Checked>, Memory>
    requires formed { IsWellFormed program.now }
    requires annotated { annotated.now ≡ all_annotated program.now }
    requires agree { All (λ (m : ProgramModule). HasNoConflict program.now.interface m.«module») program.now.modules }
    ensures { IfOk result (λ images. AreMadeOf guarding program.now.interface program.now.modules images.items) }
{
    let mut images = Vec::new(alloc);
    match push_images(alloc, &mut images, program, annotated, guarding) {
        Ok(()) => Ok(images),
        Err(why) => {
            drop(images);
            Err(why)
        }
    }
}
