//! What ends an access, and the arguments of natives, as the definitions have them.
ghost use Rattle.std.specs.Prelude.{◌≡◌, ◌<◌, ◌≤◌, ◌+◌, true, IfNone, nat_le};
ghost use Rattle.lx_caps.specs.Regions.{mapped, stack_end, stack_start};
ghost use Rattle.lx_model.specs.Act.{unless, unmapped};
ghost use Rattle.lx_model.specs.Decide.{arg, unless_mapped};
ghost use Rattle.lx_model.specs.declared.request.Outcome.TheVariants.{Trapped};
ghost use Rattle.lx_model.specs.declared.request.Trap.TheVariants.{StackFull};

use lx_caps::{STACK_SIZE, first_unmapped, mapped, stack_start};
use lx_model::request::{Outcome, Trap};
use lx_words::Word;

pub(crate) fn unmapped(at: u64) -> Outcome
    ensures { result ≡ unmapped at }
{
    Outcome::Trapped(Trap::Unmapped {
        at: first_unmapped(at),
    })
}

/// The outcome of an access to a range that does not lie in memory.
pub(crate) fn unless_mapped(at: u64, size: u64) -> Option<Outcome>
    ensures decided { result ≡ unless_mapped at size }
    ensures ready { IfNone result (mapped at size ≡ true) }
{
    if mapped(at, size) {
        None
    } else {
        Some(unmapped(at))
    }
}

/// The outcome of taking bytes of a thread's stack past its end.
#[tactic(auto, using(crate::proofs::Places::stack_mapped))]
pub(crate) fn unless_room(thread: u32, at: u64, size: u64) -> Option<Outcome>
    requires thread { thread < 16 }
    requires low { stack_start thread ≤ at }
    ensures decided { result ≡ unless (nat_le (at + size) (stack_end thread)) (Trapped StackFull) }
    ensures ready { IfNone result (mapped at size ≡ true) }
{
    let end = stack_start(thread) + STACK_SIZE;
    if at <= end && size <= end - at {
        None
    } else {
        Some(Outcome::Trapped(Trap::StackFull))
    }
}

/// The number of an argument, or 0 where there is none.
pub(crate) fn arg(args: &[Word], k: usize) -> u64
    ensures { result ≡ arg args.now k }
{
    match args.get(k) {
        Some(word) => word.bits,
        None => 0,
    }
}
