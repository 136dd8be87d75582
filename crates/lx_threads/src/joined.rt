//! Workers that are done.
ghost use Rattle.std.specs.Prelude.{◌≡◌, IfOk, map};
ghost use Rattle.lx_caplock.specs.Seats.{IsSeatOf, view_of};
ghost use Rattle.lx_threads.specs.Gathered.{AreSeated, HasGathered};

use crate::worker::Worker;
use lx_caplock::{CapLock, Part, Seat};
use lx_words::Memory;
use std::alloc::Global;

/// Takes in the seats of all workers, and gives what ran with them, in their order.
///
/// # Errors
/// Want of memory.
pub(crate) fn gather<T: Part + Drop, N: Drop>(
    alloc: Global,
    lock: &CapLock<T>,
    seat: &mut Seat<T>,
    workers: Vec<Worker<T, N>>,
) -> Result<Vec<N>, Memory>
    requires of { IsSeatOf lock.now seat.old }
    requires seated { AreSeated lock.now 0 workers.items }
    ensures of { IsSeatOf lock.now seat.new }
    ensures gathered { IfOk result (λ list. HasGathered (view_of seat.old) workers.items (view_of seat.new)) }
    ensures runners { IfOk result (λ list. list.items ≡ map (λ w. w.runner) workers.items) }
{
    let mut list = Vec::with_capacity(alloc, workers.len())?;
    for worker in workers {
        let Worker {
            thread: _,
            seat: other,
            runner,
        } = worker;
        lock.join(seat, other);
        list.push(runner)?;
    }
    Ok(list)
}
