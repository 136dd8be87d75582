//! Inputs that run.
ghost use Rattle.std.specs.Prelude.{[], IfOk};
ghost use Rattle.lx_input.specs.Laws.{IsReady};
ghost use Rattle.lx_runs.specs.Reports.{IsAccountOfRun, TellsRun};

use crate::images::Guarding;
use crate::open::{Opened, open_input};
use crate::run::{Host, account_opened, run_opened};
use crate::told::Told;
use lx_cap_tables::CapTables;
use lx_caps::CapStore;
use lx_input::Input;
use lx_model::account::Account;
use lx_outside::Gate;
use lx_words::Memory;
use std::sync::Wait;
use std::thread::Threads;

/// Runs an input over a store of capabilities, and reports.
fn run_over<C: CapStore + Drop + Send, R: Threads + Wait + Sync, G: Gate + Sync>(
    host: &Host<'_, R, G>,
    input: Input,
    caps: C,
) -> Result<Told, Memory>
    requires ready { IsReady input }
    requires new { C.stands caps [] }
    ensures { IfOk result (TellsRun input.program input.script input.besides.schedule) }
{
    let Opened {
        world,
        schedule,
        images,
    } = open_input(host.alloc, input, Guarding::Spared, caps)?;
    run_opened(host, world, schedule, images)
}

/// Runs an input over a store of capabilities, and gives the account.
fn account_over<C: CapStore + Drop + Send, R: Threads + Wait + Sync, G: Gate + Sync>(
    host: &Host<'_, R, G>,
    input: Input,
    caps: C,
) -> Result<Account, Memory>
    requires ready { IsReady input }
    requires new { C.stands caps [] }
    ensures { IfOk result (IsAccountOfRun input.program input.script) }
{
    let Opened {
        world,
        schedule,
        images,
    } = open_input(host.alloc, input, Guarding::Spared, caps)?;
    drop(schedule);
    account_opened(host, world, images)
}

/// Runs an input and reports: its threads run beside each other, or under the schedule that is replayed, where there is one.
/// Images of its modules run, and what is told is the monitor's run of the program as it is written.
///
/// # Errors
/// Want of memory; a module whose image no text can say is that too.
pub fn run_input<R: Threads + Wait + Sync, G: Gate + Sync>(
    host: &Host<'_, R, G>,
    input: Input,
) -> Result<Told, Memory>
    requires { IsReady input }
    ensures { IfOk result (TellsRun input.program input.script input.besides.schedule) }
{
    match CapTables::new(host.alloc) {
        Ok(caps) => run_over(host, input, caps),
        Err(_) => {
            drop(input);
            Err(Memory)
        }
    }
}

/// Runs the threads of an input beside each other, and gives the account. A schedule that is replayed is not looked at.
///
/// # Errors
/// Those of [`run_input`].
pub fn account_input<R: Threads + Wait + Sync, G: Gate + Sync>(
    host: &Host<'_, R, G>,
    input: Input,
) -> Result<Account, Memory>
    requires { IsReady input }
    ensures { IfOk result (IsAccountOfRun input.program input.script) }
{
    match CapTables::new(host.alloc) {
        Ok(caps) => account_over(host, input, caps),
        Err(_) => {
            drop(input);
            Err(Memory)
        }
    }
}
