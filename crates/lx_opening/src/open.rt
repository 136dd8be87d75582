//! The world of a program before the first call.
ghost use Rattle.std.specs.Prelude.{◌≡◌, ◌≤◌, ℕ, [], IfOk, IsErrOf, length};
ghost use Rattle.std.specs.Arc.{arc_value};
ghost use Rattle.lx_simulation.specs.Accepted.{AreAccepted, AreOfTexts};
ghost use Rattle.lx_annotation_tables.specs.Entries.{all_annotated};
ghost use Rattle.lx_image_code.specs.Code.{code_of};
ghost use Rattle.lx_world.specs.Exact.{IsExact};
ghost use Rattle.lx_world.specs.Worlds.{HasEndsRoom, HasRoom, StandsForWorld, script_events, code_of as code_in};
ghost use Rattle.lx_images.specs.ImageWorld.{image_opening};
ghost use Rattle.lx_link_texts.specs.WellFormed.{IsWellFormed};
ghost use Rattle.lx_opening.specs.Differing.{IsFirstDifferent};
ghost use Rattle.lx_opening.specs.declared.fault.OpenFault.{OpenFault};
ghost use Rattle.lx_serve.specs.Room.{journal_room};
ghost use Rattle.lx_serve.specs.Sources.{Knows};
ghost use Rattle.lx_serve.specs.Stands.{StandsForState};
ghost use Rattle.lx_simulation.specs.Images.{AreImages};
ghost use Rattle.lx_model.specs.Opening.{opening_state};

use crate::code::{Annotations, compared_code};
use crate::events::script_events;
use crate::fault::OpenFault;
use crate::part::open_part;
use lx_annotation_tables::sources_of;
use lx_caps::CapStore;
use lx_code::Code as ProgramCode;
use lx_image_check::Checked;
use lx_image_code::Code;
use lx_model::program::{Calls, Program};
use lx_serve::SharedPart;
use lx_slot_types::Annotated;
use lx_words::Memory;
use lx_world::World;
use std::alloc::Global;
use std::sync::Arc;

/// What threads share before the first call of a script.
fn open_shared<C: CapStore + Drop>(
    alloc: Global,
    code: &ProgramCode,
    annotations: Annotations,
    script: &[Calls],
    caps: C,
) -> Result<SharedPart<C>, Memory>
    requires same { arc_value annotations.program ≡ code.now }
    requires well_formed { IsWellFormed code.now }
    requires known { Knows code.now annotations.sources.items }
    requires new { C.stands caps [] }
    ensures opens { IfOk result (λ part. StandsForState C.stands code.now part (opening_state code.now)) }
    ensures room { IfOk result (λ part. script_events script.now ≤ journal_room part) }
{
    let Annotations { program, sources } = annotations;
    match script_events(script) {
        Ok(events) => open_part(alloc, code, program, caps, sources, events),
        Err(why) => {
            drop(program);
            drop(sources);
            drop(caps);
            Err(why)
        }
    }
}

/// The opening of a script over code of whose program is known where the annotations stand.
fn open_annotated<C: CapStore + Drop>(
    alloc: Global,
    code: Code,
    annotations: Annotations,
    script: &[Calls],
    caps: C,
) -> Result<World<C>, Memory>
    requires same { arc_value annotations.program ≡ code.program }
    requires well_formed { IsWellFormed code.program }
    requires known { Knows code.program annotations.sources.items }
    requires threads { length script.now ≤ 16 }
    requires new { C.stands caps [] }
    ensures opens { IfOk result (λ world. StandsForWorld C.stands code world (image_opening code script.now)) }
    ensures exact { IfOk result (λ world. IsExact code world (image_opening code script.now)) }
    ensures code { IfOk result (λ world. code_in world ≡ code) }
    ensures room { IfOk result (λ world. HasRoom world) }
    ensures ends { IfOk result (λ world. HasEndsRoom C.spare world) }
{
    match open_shared(alloc, code.program_code(), annotations, script, caps) {
        Ok(shared) => World::open(alloc, code, script, shared),
        Err(why) => {
            drop(code);
            Err(why)
        }
    }
}

/// The opening of a script, a list of calls for each thread, over any code, also over images that a checker refuses: each wrapper
/// of a code has the form of one, whichever actions it does, and what runs of a crossing is its lines. `program` is that of the code,
/// `annotated` has the functions of each of its modules that get a slot type, and `caps` is new. The world has room in its journal for
/// every event that the fuel of the script allows, and in its store for the end of each call.
///
/// # Errors
/// Want of memory; more modules or functions of a module than a number of 32 bits counts are that too, and so are more events
/// than a `usize` counts.
pub fn open_code<C: CapStore + Drop>(
    alloc: Global,
    code: Code,
    program: Arc<Program>,
    annotated: &[Annotated],
    script: &[Calls],
    caps: C,
) -> Result<World<C>, Memory>
    requires same { arc_value program ≡ code.program }
    requires well_formed { IsWellFormed code.program }
    requires annotated { annotated.now ≡ all_annotated code.program }
    requires threads { length script.now ≤ 16 }
    requires new { C.stands caps [] }
    ensures opens { IfOk result (λ world. StandsForWorld C.stands code world (image_opening code script.now)) }
    ensures exact { IfOk result (λ world. IsExact code world (image_opening code script.now)) }
    ensures code { IfOk result (λ world. code_in world ≡ code) }
    ensures room { IfOk result (λ world. HasRoom world) }
    ensures ends { IfOk result (λ world. HasEndsRoom C.spare world) }
{
    match sources_of(alloc, code.program(), annotated) {
        Ok(sources) => open_annotated(alloc, code, Annotations { program, sources }, script, caps),
        Err(why) => {
            drop(code);
            drop(program);
            drop(caps);
            Err(why)
        }
    }
}

/// The opening of a script, a list of calls for each thread, over a well-formed program and checked images of its modules, one
/// for each in the modules' order. `annotated` has the functions of each module that get a slot type, and `caps` is new. The
/// world has room in its journal for every event that the fuel of the script allows, and in its store for the end of each call.
///
/// # Errors
/// `ImageDiffers` where the program of an image is not the module whose image it is to be, lines apart; it names the first such
/// module, and nothing has been opened. Want of memory; more modules, functions of a module or actions of a function than a
/// number of 32 bits counts are that too, and so are more events than a `usize` counts.
pub fn open_world<C: CapStore + Drop>(
    alloc: Global,
    program: Program,
    images: Vec<Checked>,
    script: &[Calls],
    annotated: &[Annotated],
    caps: C,
) -> Result<World<C>, OpenFault>
    requires well_formed { IsWellFormed program }
    requires annotated { annotated.now ≡ all_annotated program }
    requires threads { length script.now ≤ 16 }
    requires new { C.stands caps [] }
    requires count { length images.items ≡ length program.modules }
    requires accepted { AreAccepted program images.items }
    ensures opens { IfOk result (λ world. StandsForWorld C.stands (code_of program images.items) world (image_opening (code_of program images.items) script.now)) }
    ensures exact { IfOk result (λ world. IsExact (code_of program images.items) world (image_opening (code_of program images.items) script.now)) }
    ensures images { IfOk result (λ world. AreImages program images.items) }
    ensures code { IfOk result (λ world. code_in world ≡ code_of program images.items) }
    ensures room { IfOk result (λ world. HasRoom world) }
    ensures ends { IfOk result (λ world. HasEndsRoom C.spare world) }
    ensures same { IfOk result (λ world. AreOfTexts program images.items) }
    ensures differs { (n : ℕ) → IsErrOf result (OpenFault.ImageDiffers n) → IsFirstDifferent program images.items n }
{
    match compared_code(alloc, program, images, annotated) {
        Ok((code, annotations)) => match open_annotated(alloc, code, annotations, script, caps) {
            Ok(world) => Ok(world),
            Err(why) => Err(OpenFault::from(why)),
        },
        Err(why) => {
            drop(caps);
            Err(why)
        }
    }
}
