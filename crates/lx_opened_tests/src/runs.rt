//! Runs of worlds under a schedule.
ghost use Rattle.std.specs.Prelude.{◌≡◌, List, IfOk};
ghost use Rattle.lx_input.specs.Laws.{IsReady};
ghost use Rattle.lx_model.specs.declared.account.ImageCount.{ImageCount};
ghost use Rattle.lx_opened_tests.specs.Opened.{IsOpened};

use crate::images::Image;
use crate::opened::{Opened, is_reported, open_over};
use lx_caps::CapStore;
use lx_input::Input;
use lx_world::{EventFault, World};
use std::alloc::Global;
use std::test::Fail;

/// A schedule, and what is reported behind its events, where they leave no work.
#[derive(Clone, Copy)]
pub struct Told {
    pub schedule: &'static [u32],
    pub report: &'static str,
}

/// One event.
pub fn act<C: CapStore + Drop>(world: &mut World<C>, thread: u32) -> Result<(), EventFault>
    ensures { (counts : List ImageCount) → IsOpened C.stands world.old counts → IsOpened C.stands world.new counts }
{
    match world.event(thread) {
        Ok(()) => Ok(()),
        Err(why) => Err(why),
    }
}

/// The events of a schedule.
pub fn act_all<C: CapStore + Drop>(world: &mut World<C>, schedule: &[u32]) -> Result<(), EventFault>
    ensures { (counts : List ImageCount) → IsOpened C.stands world.old counts → IsOpened C.stands world.new counts }
{
    for thread in schedule {
        act(world, *thread)?;
    }
    Ok(())
}

/// Whether a world is told so behind its run.
pub fn is_told<C: CapStore + Drop>(
    alloc: Global,
    opened: Opened<C>,
    told: Told,
) -> Result<bool, Fail>
    requires { IsOpened C.stands opened.world opened.counts }
{
    let Opened { mut world, counts } = opened;
    let went = act_all(&mut world, told.schedule);
    let reported = is_reported(alloc, &world, counts, told.report);
    drop(world);
    went?;
    let reported = reported?;
    Ok(reported)
}

/// Whether an input's run over images that the checker takes is told so.
pub fn is_told_over(
    alloc: Global,
    input: Input,
    images: &[Image<'_>],
    told: Told,
) -> Result<bool, Fail>
    requires { IsReady input }
{
    match open_over(alloc, input, images)? {
        Ok(opened) => is_told(alloc, opened, told),
        Err(why) => {
            drop(why);
            Err(Fail::new("the world is not opened"))
        }
    }
}
