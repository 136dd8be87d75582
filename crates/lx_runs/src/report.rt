//! Accounts of worlds, and their reports.
ghost use Rattle.std.specs.Prelude.{◌≡◌, IfOk};
ghost use Rattle.lx_images.specs.Image.{Code};
ghost use Rattle.lx_images.specs.ImageWorld.{ImageWorld};
ghost use Rattle.lx_world.specs.Worlds.{StandsForWorld};
ghost use Rattle.lx_link_texts.specs.WellFormed.{IsWellFormed};
ghost use Rattle.lx_report.specs.Laws.{IsSchedule};
ghost use Rattle.lx_runs.specs.Reports.{is_returned, all_returned};
ghost use Rattle.lx_runs.specs.Runs.{ReportsOf, images_of};

use crate::told::Told;
use lx_caps::CapStore;
use lx_model::account::{CallOutcome, ImageCount};
use lx_model::request::Outcome;
use lx_report::{report, report_laws};
use lx_simulation::simulation_laws;
use lx_words::{Items, Memory, Name};
use lx_world::World;
use std::alloc::Global;

/// Whether every one of these calls returned: none was refused, trapped or ran out of fuel.
pub fn all_returned(calls: &[CallOutcome]) -> bool
    ensures { result ≡ all_returned calls.now }
{
    calls.iter().all(|call| is_returned(call.outcome))
}

fn is_returned(outcome: Outcome) -> bool
    ensures { result ≡ is_returned outcome }
{
    matches!(outcome, Outcome::Returned(_))
}

/// The numbers of threads are those of a schedule.
fn see_schedule(schedule: &[u32])
    ensures { IsSchedule schedule.now }
{
    let _ = schedule.len();
}

/// What the world did, and whether every call returned: for each of the monitor's worlds that it stands for. `images` is what the
/// images of its modules have.
pub(crate) fn report_of<C: CapStore + Drop>(
    alloc: Global,
    world: &World<C>,
    images: Items<ImageCount>,
) -> Result<Told, Memory>
    requires { (c : Code) × (v : ImageWorld) × StandsForWorld C.stands c world.now v × IsWellFormed c.program × (images ≡ images_of c.program) }
    ensures { IfOk result (ReportsOf C.stands world.now) }
{
    report_laws();
    simulation_laws();
    see_schedule(world.schedule());
    let account = world.account(alloc, images)?;
    let text = report(alloc, &account, world.program())?;
    let returned = all_returned(account.outcomes.as_slice());
    Ok(Told::Report(Name::from_vec(text), returned))
}
