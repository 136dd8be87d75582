//! The code of a program and of the images of its modules.
ghost use Rattle.std.specs.Prelude.{◌≡◌, ℕ, IfOk, IsErrOf, IsTrue, length};
ghost use Rattle.std.specs.Arc.{arc_value};
ghost use Rattle.lx_simulation.specs.Accepted.{AreAccepted, AreOfTexts};
ghost use Rattle.lx_annotation_tables.specs.Entries.{all_annotated};
ghost use Rattle.lx_code.specs.Reach.{CountsActions, IsWithinReach};
ghost use Rattle.lx_image_code.specs.Code.{code_of};
ghost use Rattle.lx_image_code.specs.Reach.{AreWithinReach};
ghost use Rattle.lx_images.specs.WrapperForm.{have_formed_wrappers};
ghost use Rattle.lx_link_texts.specs.WellFormed.{IsWellFormed};
ghost use Rattle.lx_opening.specs.Differing.{IsFirstDifferent};
ghost use Rattle.lx_opening.specs.declared.fault.OpenFault.{OpenFault};
ghost use Rattle.lx_serve.specs.Sources.{Knows};
ghost use Rattle.lx_simulation.specs.Images.{AreImages};

use crate::differing::compare_images;
use crate::fault::OpenFault;
use lx_annotation_tables::{action_counts, reach_laws, sources_of};
use lx_code::ActionCounts;
use lx_image_check::Checked;
use lx_image_code::{Code, CodeFault};
use lx_ir_verify::Verified;
use lx_model::program::Program;
use lx_serve::Source;
use lx_simulation::{accepted_laws, simulation_laws};
use lx_slot_types::Annotated;
use lx_words::Memory;
use std::alloc::Global;
use std::sync::Arc;

/// A program, and where the annotation of each of its functions stands.
#[derive(Drop)]
pub(crate) struct Annotations {
    pub(crate) program: Arc<Program>,
    pub(crate) sources: Vec<Option<Source>>,
}

/// What is reckoned of a program: where annotations stand, and how many actions each function has.
#[derive(Drop)]
struct Reckoning {
    sources: Vec<Option<Source>>,
    counts: Vec<ActionCounts>,
}

fn reckoned(alloc: Global, program: &Program, annotated: &[Annotated]) -> Result<Reckoning, Memory>
    requires well_formed { IsWellFormed program.now }
    requires annotated { annotated.now ≡ all_annotated program.now }
    ensures known { IfOk result (λ reckoning. Knows program.now reckoning.sources.items) }
    ensures counted { IfOk result (λ reckoning. CountsActions program.now reckoning.counts.items) }
{
    let sources = sources_of(alloc, program, annotated)?;
    let counts = action_counts(alloc, program, sources.as_slice())?;
    Ok(Reckoning { sources, counts })
}

/// A program with two owners.
fn owned_twice(alloc: Global, program: Program) -> Result<(Arc<Program>, Arc<Program>), Memory>
    ensures { IfOk result (λ owners. (arc_value owners.0 ≡ program) × (arc_value owners.1 ≡ program)) }
{
    match Arc::new(alloc, program) {
        Ok(first) => match Arc::try_clone(&first) {
            Ok(second) => Ok((first, second)),
            Err(_) => {
                drop(first);
                Err(Memory)
            }
        },
        Err(failed) => {
            drop(failed);
            Err(Memory)
        }
    }
}

/// The images by themselves.
fn verified_images(alloc: Global, images: Vec<Checked>) -> Result<Vec<Verified>, Memory>
    ensures { IfOk result (λ list. list.items ≡ images.items) }
{
    let mut list = Vec::new(alloc);
    for image in images {
        list.push(image.into_image())?;
    }
    Ok(list)
}

/// The code of a program and of the images of its modules, in which each wrapper has the form of one. Of the program one owner goes
/// in.
#[tactic(auto, using(crate::proofs::Formed::never_told))]
fn image_code(
    alloc: Global,
    program: Arc<Program>,
    images: Vec<Checked>,
    counts: Vec<ActionCounts>,
) -> Result<Code, Memory>
    requires reach { IsWithinReach (arc_value program) }
    requires images { AreWithinReach (arc_value program) images.items }
    requires formed { IsTrue (have_formed_wrappers images.items) }
    requires counted { CountsActions (arc_value program) counts.items }
    ensures { IfOk result (λ code. code ≡ code_of (arc_value program) images.items) }
{
    simulation_laws();
    match verified_images(alloc, images) {
        Ok(images) => match Code::new(alloc, program, images, counts) {
            Ok(code) => Ok(code),
            Err(CodeFault::Memory) => Err(Memory),
            Err(CodeFault::Wrapper { .. }) => unreachable!(), // each has the form
        },
        Err(why) => {
            drop(program);
            drop(counts);
            Err(why)
        }
    }
}

/// The code of a program of which this was reckoned, and of the images of its modules.
fn reckoned_code(
    alloc: Global,
    program: Program,
    images: Vec<Checked>,
    reckoning: Reckoning,
) -> Result<(Code, Annotations), Memory>
    requires reach { IsWithinReach program }
    requires images { AreWithinReach program images.items }
    requires formed { IsTrue (have_formed_wrappers images.items) }
    requires known { Knows program reckoning.sources.items }
    requires counted { CountsActions program reckoning.counts.items }
    ensures code { IfOk result (λ parts. parts.0 ≡ code_of program images.items) }
    ensures same { IfOk result (λ parts. arc_value parts.1.program ≡ program) }
    ensures known { IfOk result (λ parts. Knows program parts.1.sources.items) }
{
    let Reckoning { sources, counts } = reckoning;
    match owned_twice(alloc, program) {
        Ok((program, first)) => match image_code(alloc, first, images, counts) {
            Ok(code) => Ok((code, Annotations { program, sources })),
            Err(why) => {
                drop(program);
                drop(sources);
                Err(why)
            }
        },
        Err(why) => {
            drop(images);
            drop(counts);
            drop(sources);
            Err(why)
        }
    }
}

/// The code of a well-formed program and of images of its modules' texts, and where the program's annotations stand.
#[tactic(auto, using(crate::proofs::Accepted::accepted_reach, crate::proofs::Accepted::accepted_formed))]
fn checked_code(
    alloc: Global,
    program: Program,
    images: Vec<Checked>,
    annotated: &[Annotated],
) -> Result<(Code, Annotations), Memory>
    requires well_formed { IsWellFormed program }
    requires annotated { annotated.now ≡ all_annotated program }
    requires count { length images.items ≡ length program.modules }
    requires accepted { AreAccepted program images.items }
    requires texts { AreOfTexts program images.items }
    ensures code { IfOk result (λ parts. parts.0 ≡ code_of program images.items) }
    ensures same { IfOk result (λ parts. arc_value parts.1.program ≡ program) }
    ensures known { IfOk result (λ parts. Knows program parts.1.sources.items) }
    ensures images { AreImages program images.items }
{
    reach_laws();
    accepted_laws();
    simulation_laws();
    match reckoned(alloc, &program, annotated) {
        Ok(reckoning) => reckoned_code(alloc, program, images, reckoning),
        Err(why) => {
            drop(program);
            drop(images);
            Err(why)
        }
    }
}

/// The code of a well-formed program and of checked images, one for each of its modules, and where the program's annotations
/// stand.
///
/// # Errors
/// `ImageDiffers` names the first module whose image is not that of its text; or want of memory.
pub(crate) fn compared_code(
    alloc: Global,
    program: Program,
    images: Vec<Checked>,
    annotated: &[Annotated],
) -> Result<(Code, Annotations), OpenFault>
    requires well_formed { IsWellFormed program }
    requires annotated { annotated.now ≡ all_annotated program }
    requires count { length images.items ≡ length program.modules }
    requires accepted { AreAccepted program images.items }
    ensures code { IfOk result (λ parts. parts.0 ≡ code_of program images.items) }
    ensures program { IfOk result (λ parts. arc_value parts.1.program ≡ program) }
    ensures known { IfOk result (λ parts. Knows program parts.1.sources.items) }
    ensures images { IfOk result (λ parts. AreImages program images.items) }
    ensures same { IfOk result (λ parts. AreOfTexts program images.items) }
    ensures differs { (n : ℕ) → IsErrOf result (OpenFault.ImageDiffers n) → IsFirstDifferent program images.items n }
{
    match compare_images(alloc, &program, images.as_slice()) {
        Ok(()) => match checked_code(alloc, program, images, annotated) {
            Ok(parts) => Ok(parts),
            Err(why) => Err(OpenFault::from(why)),
        },
        Err(why) => {
            drop(program);
            drop(images);
            Err(why)
        }
    }
}
