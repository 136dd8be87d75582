//! Threads of images that run beside each other.
ghost use Rattle.std.specs.Prelude.{◌≡◌, IfOk, true};
ghost use Rattle.lx_model.specs.World.{is_done};
ghost use Rattle.lx_images.specs.Image.{Code};
ghost use Rattle.lx_images.specs.ImageWorld.{ImageWorld};
ghost use Rattle.lx_images.specs.Shown.{shown};
ghost use Rattle.lx_world.specs.Worlds.{StandsForWorld};
ghost use Rattle.lx_threads.specs.Running.{AreRun};

use crate::laws::image_monitor_laws;
use crate::run_workers;
use crate::runner::ThreadCode;
use lx_caps::CapStore;
use lx_outside::Gate;
use lx_simulation::simulation_laws;
use lx_words::Memory;
use lx_world::{Runners, World};
use std::alloc::Global;
use std::sync::Wait;
use std::thread::Threads;

/// The world, where no thread of it has work left; else it is given up.
fn without_work<C: CapStore + Drop>(world: World<C>) -> Result<World<C>, Memory>
    ensures same { IfOk result (λ done. done ≡ world) }
    ensures done { IfOk result (λ done. (c : Code) (v : ImageWorld) → StandsForWorld C.stands c done v → is_done (shown v) ≡ true) }
{
    if world.done() {
        Ok(world)
    } else {
        drop(world);
        Err(Memory)
    }
}

/// Runs the threads of a world of images beside each other, until none has work. The world that comes back is the run of the one
/// handed in by the machine of images, under its own schedule, which goes on from that of the one handed in: an event for each
/// request that was served, in the order in which the lock served them. Where the world handed in stands for a monitor's world of
/// the program without guards, whatever the schedule, it is the monitor's run of that world under the same schedule: each event's
/// thread and reply are the monitor's at its place. Register steps and gates stand outside the lock. Work that no thread took is
/// done by the caller.
///
/// # Errors
/// Want of memory: the world is given up.
pub fn run_threads<C: CapStore + Drop + Send, G: Gate + Sync, R: Threads + Wait + Sync>(
    rt: &R,
    alloc: Global,
    world: World<C>,
    gate: &G,
) -> Result<World<C>, Memory>
    requires stands { (c : Code) × (v : ImageWorld) × StandsForWorld C.stands c world v }
    ensures runs { IfOk result (λ done. AreRun C.stands world done) }
{
    image_monitor_laws();
    simulation_laws();
    let (shared, runners, code) = world.into_parts();
    let text = ThreadCode { code };
    match run_workers(rt, alloc, shared, &text, gate, runners.into_list()) {
        Ok((part, list)) => {
            let ThreadCode { code } = text;
            let done = without_work(World::from_parts(part, Runners::of_list(list), code))?;
            Ok(done)
        }
        Err(why) => {
            drop(text);
            Err(why)
        }
    }
}
