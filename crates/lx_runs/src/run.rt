//! Runs of an opened world.
ghost use Rattle.std.specs.Prelude.{◌≡◌, List, IfOk, None, Some};
ghost use Rattle.lx_model.specs.declared.program.Program.{Program};
ghost use Rattle.lx_model.specs.declared.program.ScriptCall.{ScriptCall};
ghost use Rattle.lx_runs.specs.Opened.{IsOpened};
ghost use Rattle.lx_runs.specs.Reports.{IsAccountOfRun, TellsRun};
ghost use Rattle.lx_runs.specs.Runs.{images_of};

use crate::replay::replay;
use crate::report::report_of;
use crate::told::Told;
use lx_caps::CapStore;
use lx_linked::linked_laws;
use lx_model::account::{Account, ImageCount};
use lx_outside::Gate;
use lx_run_laws::run_laws;
use lx_simulation::simulation_laws;
use lx_threads::run_threads;
use lx_words::{Items, Memory, Schedule};
use lx_world::World;
use std::alloc::Global;
use std::sync::Wait;
use std::thread::Threads;

/// Where a run takes place: the handle by which threads are made and wait, the allocator, and the gate that threads pass.
#[derive(Drop)]
pub struct Host<'a, R, G> {
    pub rt: &'a R,
    pub alloc: Global,
    pub gate: &'a G,
}

/// Runs the threads beside each other, and reports.
fn run_world<C: CapStore + Drop + Send, R: Threads + Wait + Sync, G: Gate + Sync>(
    host: &Host<'_, R, G>,
    world: World<C>,
    images: Items<ImageCount>,
) -> Result<Told, Memory>
    requires { (p : Program) × (script : List (List ScriptCall)) × IsOpened C.stands p script world × (images ≡ images_of p) }
    ensures { IfOk result (λ told. (p : Program) (script : List (List ScriptCall)) → IsOpened C.stands p script world → TellsRun p script None told) }
{
    run_laws();
    linked_laws();
    simulation_laws();
    match run_threads(host.rt, host.alloc, world, host.gate) {
        Ok(done) => {
            let told = report_of(host.alloc, &done, images);
            drop(done);
            told
        }
        Err(why) => {
            drop(images);
            Err(why)
        }
    }
}

/// Runs the threads in the order of a schedule, and reports where it is whole.
fn replay_world<C: CapStore + Drop>(
    alloc: Global,
    world: &mut World<C>,
    schedule: &[u32],
    images: Items<ImageCount>,
) -> Result<Told, Memory>
    requires { (p : Program) × (script : List (List ScriptCall)) × IsOpened C.stands p script world.old × (images ≡ images_of p) }
    ensures { IfOk result (λ told. (p : Program) (script : List (List ScriptCall)) → IsOpened C.stands p script world.old → TellsRun p script (Some schedule.now) told) }
{
    run_laws();
    linked_laws();
    simulation_laws();
    match replay(world, schedule)? {
        Some(entry) => Ok(Told::Broken(entry)),
        None => report_of(alloc, world, images),
    }
}

/// The same of a world that is given up behind it.
fn replay_opened<C: CapStore + Drop>(
    alloc: Global,
    mut world: World<C>,
    schedule: Schedule,
    images: Items<ImageCount>,
) -> Result<Told, Memory>
    requires { (p : Program) × (script : List (List ScriptCall)) × IsOpened C.stands p script world × (images ≡ images_of p) }
    ensures { IfOk result (λ told. (p : Program) (script : List (List ScriptCall)) → IsOpened C.stands p script world → TellsRun p script (Some schedule) told) }
{
    let told = replay_world(alloc, &mut world, schedule.as_slice(), images);
    drop(world);
    drop(schedule);
    told
}

/// Runs the threads under the schedule that is replayed, or else beside each other, and reports.
pub(crate) fn run_opened<C: CapStore + Drop + Send, R: Threads + Wait + Sync, G: Gate + Sync>(
    host: &Host<'_, R, G>,
    world: World<C>,
    schedule: Option<Schedule>,
    images: Items<ImageCount>,
) -> Result<Told, Memory>
    requires { (p : Program) × (script : List (List ScriptCall)) × IsOpened C.stands p script world × (images ≡ images_of p) }
    ensures { IfOk result (λ told. (p : Program) (script : List (List ScriptCall)) → IsOpened C.stands p script world → TellsRun p script schedule told) }
{
    match schedule {
        None => run_world(host, world, images),
        Some(schedule) => replay_opened(host.alloc, world, schedule, images),
    }
}

/// Runs the threads beside each other, and gives the account.
pub(crate) fn account_opened<C: CapStore + Drop + Send, R: Threads + Wait + Sync, G: Gate + Sync>(
    host: &Host<'_, R, G>,
    world: World<C>,
    images: Items<ImageCount>,
) -> Result<Account, Memory>
    requires { (p : Program) × (script : List (List ScriptCall)) × IsOpened C.stands p script world × (images ≡ images_of p) }
    ensures { IfOk result (λ account. (p : Program) (script : List (List ScriptCall)) → IsOpened C.stands p script world → IsAccountOfRun p script account) }
{
    simulation_laws();
    match run_threads(host.rt, host.alloc, world, host.gate) {
        Ok(done) => {
            let told = done.account(host.alloc, images);
            drop(done);
            told
        }
        Err(why) => {
            drop(images);
            Err(why)
        }
    }
}
