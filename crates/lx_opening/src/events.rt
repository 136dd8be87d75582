//! How many events a script may have.
ghost use Rattle.std.specs.Prelude.{◌≡◌, ◌+◌, IfOk};
ghost use Rattle.lx_interp.specs.Runner.{events_of};
ghost use Rattle.lx_world.specs.Worlds.{script_events};

use lx_model::program::{Calls, ScriptCall};
use lx_words::Memory;

/// The sum of two counts; what a `usize` cannot count does not lie in memory.
fn sum(first: usize, second: usize) -> Result<usize, Memory>
    ensures { IfOk result (λ n. n ≡ first + second) }
{
    match first.checked_add(second) {
        Some(count) => Ok(count),
        None => Err(Memory),
    }
}

/// How many events a call may have: its fuel, and its end.
fn call_events(call: &ScriptCall) -> Result<usize, Memory>
    ensures { IfOk result (λ n. n ≡ call.now.fuel + 1) }
{
    sum(call.fuel as usize, 1)
}

/// How many events the calls of a thread may have.
fn thread_events(calls: &[ScriptCall]) -> Result<usize, Memory>
    ensures { IfOk result (λ n. n ≡ events_of calls.now) }
{
    let mut count = 0;
    for call in calls {
        count = sum(count, call_events(call)?)?;
    }
    Ok(count)
}

/// How many events a script may have, a list of calls for each thread.
pub(crate) fn script_events(script: &[Calls]) -> Result<usize, Memory>
    ensures { IfOk result (λ n. n ≡ script_events script.now) }
{
    let mut count = 0;
    for calls in script {
        count = sum(count, thread_events(calls.as_slice())?)?;
    }
    Ok(count)
}
