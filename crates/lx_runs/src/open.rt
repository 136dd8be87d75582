//! Inputs that are opened.
ghost use Rattle.std.specs.Prelude.{◌≡◌, ◌≤◌, [], All, IfOk, length};
ghost use Rattle.lx_annotation_tables.specs.Entries.{all_annotated};
ghost use Rattle.lx_input.specs.Laws.{HasNoConflict, IsReady};
ghost use Rattle.lx_link_texts.specs.WellFormed.{FitsCalls, IsWellFormed};
ghost use Rattle.lx_model.specs.declared.program.ProgramModule.{ProgramModule};
ghost use Rattle.lx_runs.specs.Images.{AreMadeOf};
ghost use Rattle.lx_runs.specs.declared.images.Guarding.{Guarding};
ghost use Rattle.lx_runs.specs.Opened.{IsFullOver, IsOpened, IsOpenedWith};
ghost use Rattle.lx_runs.specs.Runs.{images_of};

use crate::images::{Guarding, images_of_program};
use lx_annotation_tables::image_counts;
use lx_caps::CapStore;
use lx_image_check::Checked;
use lx_input::{Besides, Input};
use lx_model::account::ImageCount;
use lx_model::program::{Calls, Program};
use lx_opening::{OpenFault, open_world};
use lx_simulation::simulation_laws;
use lx_slot_types::Annotated;
use lx_words::{Items, Memory, Schedule};
use lx_world::World;
use std::alloc::Global;

/// The images of a program's modules, and what they have beyond the modules.
struct Made {
    images: Vec<Checked>,
    counts: Items<ImageCount>,
}

fn made_of(
    alloc: Global,
    program: &Program,
    annotated: &[Annotated],
    guarding: Guarding,
) -> Result<Made, Memory>
    requires formed { IsWellFormed program.now }
    requires annotated { annotated.now ≡ all_annotated program.now }
    requires agree { All (λ (m : ProgramModule). HasNoConflict program.now.interface m.«module») program.now.modules }
    ensures made { IfOk result (λ made. AreMadeOf guarding program.now.interface program.now.modules made.images.items) }
    ensures counts { IfOk result (λ made. made.counts ≡ images_of program.now) }
{
    let counts = image_counts(alloc, program, annotated)?;
    match images_of_program(alloc, program, annotated, guarding) {
        Ok(images) => Ok(Made { images, counts }),
        Err(why) => {
            drop(counts);
            Err(why)
        }
    }
}

/// The world of an input before its first event, the schedule that is asked for, and what the images of its modules have beyond the modules.
pub struct Opened<C: CapStore + Drop> {
    pub world: World<C>,
    pub schedule: Option<Schedule>,
    pub images: Items<ImageCount>,
}

/// The world of a program's images over a store of capabilities. That an image differs from its module never comes.
fn open_images<C: CapStore + Drop>(
    alloc: Global,
    program: Program,
    images: Vec<Checked>,
    script: &[Calls],
    annotated: &[Annotated],
    caps: C,
) -> Result<World<C>, Memory>
    requires formed { IsWellFormed program }
    requires few { length script.now ≤ 16 }
    requires fits { FitsCalls program script.now }
    requires annotated { annotated.now ≡ all_annotated program }
    requires made { (g : Guarding) × AreMadeOf g program.interface program.modules images.items }
    requires new { C.stands caps [] }
    ensures opened { IfOk result (IsOpened C.stands program script.now) }
    ensures full { IfOk result (IsFullOver images.items C.stands program script.now) }
{
    simulation_laws();
    match open_world(alloc, program, images, script, annotated, caps) {
        Ok(world) => Ok(world),
        Err(OpenFault::Memory) => Err(Memory),
        Err(OpenFault::ImageDiffers { .. }) => unreachable!(),
    }
}

/// Opens an input, whose images are made, over a store of capabilities.
fn open_made<C: CapStore + Drop>(
    alloc: Global,
    input: Input,
    made: Made,
    caps: C,
) -> Result<Opened<C>, Memory>
    requires ready { IsReady input }
    requires made { (g : Guarding) × AreMadeOf g input.program.interface input.program.modules made.images.items }
    requires counts { made.counts ≡ images_of input.program }
    requires new { C.stands caps [] }
    ensures opened { IfOk result (λ opened. IsOpened C.stands input.program input.script opened.world) }
    ensures full { IfOk result (λ opened. IsFullOver made.images.items C.stands input.program input.script opened.world) }
    ensures schedule { IfOk result (λ opened. opened.schedule ≡ input.besides.schedule) }
    ensures images { IfOk result (λ opened. opened.images ≡ images_of input.program) }
{
    let Input {
        program,
        script,
        annotated,
        besides,
    } = input;
    let Besides {
        number: _,
        schedule,
        image,
    } = besides;
    drop(image);
    let Made { images, counts } = made;
    let opened = open_images(
        alloc,
        program,
        images,
        script.as_slice(),
        annotated.as_slice(),
        caps,
    );
    drop(script);
    drop(annotated);
    match opened {
        Ok(world) => Ok(Opened {
            world,
            schedule,
            images: counts,
        }),
        Err(why) => {
            drop(schedule);
            drop(counts);
            Err(why)
        }
    }
}

/// Opens an input over a new store of capabilities: an image is made of each of its modules, in which those stores have a guard.
///
/// # Errors
/// Want of memory; a module whose image no text can say is that too.
pub fn open_input<C: CapStore + Drop>(
    alloc: Global,
    input: Input,
    guarding: Guarding,
    caps: C,
) -> Result<Opened<C>, Memory>
    requires ready { IsReady input }
    requires new { C.stands caps [] }
    ensures opened { IfOk result (λ opened. IsOpened C.stands input.program input.script opened.world) }
    ensures full { IfOk result (λ opened. IsOpenedWith guarding C.stands input.program input.script opened.world) }
    ensures schedule { IfOk result (λ opened. opened.schedule ≡ input.besides.schedule) }
    ensures images { IfOk result (λ opened. opened.images ≡ images_of input.program) }
{
    match made_of(alloc, &input.program, input.annotated.as_slice(), guarding) {
        Ok(made) => open_made(alloc, input, made, caps),
        Err(why) => {
            drop(input);
            drop(caps);
            Err(why)
        }
    }
}
