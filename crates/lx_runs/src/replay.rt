//! Schedules that are replayed.
ghost use Rattle.std.specs.Prelude.{◌≡◌, IfOk, None};
ghost use Rattle.lx_images.specs.Image.{Code};
ghost use Rattle.lx_images.specs.ImageWorld.{ImageWorld, image_run};
ghost use Rattle.lx_world.specs.Worlds.{StandsForWorld};
ghost use Rattle.lx_runs.specs.Replays.{image_broken_at};

use lx_caps::CapStore;
use lx_words::Memory;
use lx_world::{EventFault, World};

/// Runs the threads in the order of a schedule. Where it is not whole, the answer is its first entry, counted from 0,
/// that names a thread without work, or its length where work remains behind it.
pub(crate) fn replay<C: CapStore + Drop>(
    world: &mut World<C>,
    schedule: &[u32],
) -> Result<Option<u64>, Memory>
    ensures broken { IfOk result (λ broken. (c : Code) (v : ImageWorld) → StandsForWorld C.stands c world.old v → broken ≡ image_broken_at c schedule.now v) }
    ensures whole { IfOk result (λ broken. (c : Code) (v : ImageWorld) → StandsForWorld C.stands c world.old v → broken ≡ None
        → StandsForWorld C.stands c world.new (image_run c schedule.now v)) }
{
    for (entry, thread) in schedule.iter().enumerate() {
        match world.event(*thread) {
            Ok(()) => {}
            Err(EventFault::NoWork { .. }) => return Ok(Some(entry as u64)),
            Err(EventFault::Memory) => return Err(Memory),
        }
    }
    if world.done() {
        Ok(None)
    } else {
        Ok(Some(schedule.len() as u64))
    }
}
