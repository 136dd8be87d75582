//! How calls ended.
ghost use Rattle.std.specs.Prelude.{◌≡◌, ◌≤◌, ◌++◌, length, map, IfOk, OnOk};
ghost use Rattle.std.specs.List.{flat_map, enumerate_from};
ghost use Rattle.lx_world.specs.Accounts.{call_outcome, runner_outcomes};

use lx_interp::{Ending, Runner};
use lx_model::account::CallOutcome;
use lx_words::Memory;
use std::alloc::Global;

fn put_endings(out: &mut Vec<CallOutcome>, thread: u32, endings: &[Ending]) -> Result<(), Memory>
    ensures { OnOk result (out.new.items ≡ out.old.items ++ map (call_outcome thread) endings.now) }
{
    for ending in endings {
        out.push(CallOutcome {
            thread,
            function: ending.function,
            outcome: ending.outcome,
        })?;
    }
    Ok(())
}

/// How the calls of threads ended, thread by thread.
pub(crate) fn outcomes(alloc: Global, runners: &[Runner]) -> Result<Vec<CallOutcome>, Memory>
    requires { length runners.now ≤ 16 }
    ensures { IfOk result (λ outcomes. outcomes.items ≡ flat_map runner_outcomes (enumerate_from 0 runners.now)) }
{
    let mut out = Vec::new(alloc);
    for (thread, runner) in runners.iter().enumerate() {
        put_endings(&mut out, thread as u32, runner.endings())?;
    }
    Ok(out)
}
