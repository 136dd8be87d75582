//! Worlds of images that were opened, and what is reported of them.
ghost use Rattle.std.specs.Prelude.{◌≡◌, [], IfOk, length};
ghost use Rattle.lx_simulation.specs.Accepted.{AreAccepted};
ghost use Rattle.lx_input.specs.Laws.{IsReady};
ghost use Rattle.lx_opened_tests.specs.Opened.{IsOpened};

use crate::images::{Image, checked_images};
use lx_annotation_tables::image_counts;
use lx_caps::{CapStore, PlainCaps};
use lx_image_check::Checked;
use lx_input::Input;
use lx_model::account::ImageCount;
use lx_opening::{OpenFault, open_world};
use lx_report::report;
use lx_words::{Items, Memory};
use lx_world::World;
use std::alloc::Global;
use std::test::Fail;

/// A world, and what the images of its modules have beyond the modules.
#[derive(Drop)]
pub struct Opened<C: CapStore + Drop> {
    pub world: World<C>,
    pub counts: Items<ImageCount>,
}

/// The world of an input over images that the checker took.
#[tactic(auto, using(crate::proofs::Worlds::opened))]
fn open_checked<C: CapStore + Drop>(
    alloc: Global,
    input: Input,
    images: Vec<Checked>,
    caps: C,
) -> Result<Opened<C>, OpenFault>
    requires ready { IsReady input }
    requires count { length images.items ≡ length input.program.modules }
    requires accepted { AreAccepted input.program images.items }
    requires new { C.stands caps [] }
    ensures { IfOk result (λ o. IsOpened C.stands o.world o.counts) }
{
    let Input {
        program,
        script,
        annotated,
        besides,
    } = input;
    drop(besides);
    match image_counts(alloc, &program, annotated.as_slice()) {
        Ok(counts) => {
            let (calls, marked) = (script.as_slice(), annotated.as_slice());
            let world = open_world(alloc, program, images, calls, marked, caps);
            drop(script);
            drop(annotated);
            match world {
                Ok(world) => Ok(Opened { world, counts }),
                Err(why) => {
                    drop(counts);
                    Err(why)
                }
            }
        }
        Err(_) => {
            drop(program);
            drop(script);
            drop(annotated);
            drop(images);
            drop(caps);
            Err(OpenFault::Memory)
        }
    }
}

/// What opening the world of an input over images answers, where the checker takes each image and there is one for each module.
pub fn open_over(
    alloc: Global,
    input: Input,
    images: &[Image<'_>],
) -> Result<Result<Opened<PlainCaps>, OpenFault>, Fail>
    requires { IsReady input }
    ensures { IfOk result (λ opened. IfOk opened (λ o. IsOpened ⟦<PlainCaps as CapStore>⟧.stands o.world o.counts)) }
{
    match checked_images(alloc, &input.program, images) {
        Ok(images) => Ok(open_checked(alloc, input, images, PlainCaps::new(alloc))),
        Err(why) => {
            drop(input);
            Err(why)
        }
    }
}

/// Whether a world that has no work left is reported so.
pub fn is_reported<C: CapStore + Drop>(
    alloc: Global,
    world: &World<C>,
    counts: Items<ImageCount>,
    wanted: &str,
) -> Result<bool, Memory>
    requires { IsOpened C.stands world.now counts }
{
    let account = world.account(alloc, counts)?;
    let text = report(alloc, &account, world.program());
    drop(account);
    let text = text?;
    Ok(world.done() && text.as_slice() == wanted.as_bytes())
}
