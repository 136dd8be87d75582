//! Copies of the calls that a runner is to make.
ghost use Rattle.std.specs.Prelude.{◌≡◌, IfOk};

use lx_model::program::{Calls, ScriptCall};
use lx_words::{Items, Memory};
use std::alloc::Global;

fn copy_of(alloc: Global, call: &ScriptCall) -> Result<ScriptCall, Memory>
    ensures { IfOk result (λ copy. copy ≡ call.now) }
{
    let args = Items::from_slice(alloc, call.args.as_slice())?;
    Ok(ScriptCall {
        function: call.function,
        args,
        fuel: call.fuel,
    })
}

/// The same calls, owned by who asks.
///
/// # Errors
/// Want of memory.
pub fn copies_of(alloc: Global, calls: &[ScriptCall]) -> Result<Calls, Memory>
    ensures { IfOk result (λ copies. copies ≡ calls.now) }
{
    let mut copies = Items::new(alloc);
    for call in calls {
        copies.push(copy_of(alloc, call)?)?;
    }
    Ok(copies)
}
