//! Which requests may be served.
ghost use Rattle.std.specs.Prelude.{◌≡◌, ◌<◌, true, nat_le};
ghost use Rattle.lx_caps.specs.Regions.{stack_start};
ghost use Rattle.lx_run_laws.specs.Servable.{is_on_stack, is_servable, is_servable_way, is_servable_what};

use lx_call_targets::is_in;
use lx_caps::{STACK_SIZE, stack_start};
use lx_model::program::Program;
use lx_model::request::{Request, Way, What};

/// Whether the range between two addresses lies in the thread's stack.
fn is_on_stack(thread: u32, low: u64, high: u64) -> bool
    requires { thread < 16 }
    ensures { result ≡ is_on_stack thread low high }
{
    let start = stack_start(thread);
    start <= low && low <= high && high <= start + STACK_SIZE
}

/// Whether the address lies at or above the start of the thread's stack.
fn is_above_start(thread: u32, at: u64) -> bool
    requires { thread < 16 }
    ensures { result ≡ nat_le (stack_start thread) at }
{
    stack_start(thread) <= at
}

fn is_servable_way(program: &Program, way: &Way) -> bool
    ensures { result ≡ is_servable_way program.now way.now }
{
    match way {
        Way::Direct(function) => is_in(program, None, *function),
        Way::Script(_) | Way::Indirect(_) | Way::Slot { .. } => true,
    }
}

fn is_servable_what(program: &Program, thread: u32, what: &What) -> bool
    requires { thread < 16 }
    ensures { result ≡ is_servable_what program.now thread what.now }
{
    match what {
        What::Alloca { at, .. } => is_above_start(thread, *at),
        What::Return { low, high } => is_on_stack(thread, *low, *high),
        What::Enter { way, .. } => is_servable_way(program, way),
        _ => true,
    }
}

/// Whether the request may be served: whatever a thread asks whose functions keep to its stack.
pub(crate) fn is_servable(program: &Program, thread: u32, request: &Request) -> bool
    ensures servable { result ≡ is_servable program.now thread request.now }
    ensures thread { result ≡ true → thread < 16 }
    ensures what { result ≡ true → is_servable_what program.now thread request.now.what ≡ true }
{
    thread < 16 && is_servable_what(program, thread, &request.what)
}
