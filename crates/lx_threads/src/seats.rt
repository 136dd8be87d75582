//! A seat for each thread.
ghost use Rattle.std.specs.Prelude.{◌≡◌, ◌≤◌, ◌+◌, IfOk, length, map};
ghost use Rattle.lx_caplock.specs.Seats.{IsSeatOf, view_of, number_of};
ghost use Rattle.lx_caplock.specs.Views.{with_numbers_out};
ghost use Rattle.lx_threads.specs.Dealt.{AreDealt, IsFirst, IsNew};

use crate::worker::Worker;
use lx_caplock::{CapLock, Part, Seat};
use lx_words::Memory;
use std::alloc::Global;
use std::sync::Wait;

fn further<T: Part + Drop, R: Wait>(
    rt: &R,
    lock: &CapLock<T>,
    seat: &mut Seat<T>,
) -> Result<Seat<T>, Memory>
    requires { IsSeatOf lock.now seat.old }
    ensures of { IsSeatOf lock.now seat.new }
    ensures new { IfOk result (λ new. IsNew lock.now (view_of seat.old) new) }
    ensures divider { IfOk result (λ new. view_of seat.new ≡ with_numbers_out (view_of seat.old) (number_of new + 1)) }
{
    match lock.split(rt, seat) {
        Ok(new) => Ok(new),
        Err(_) => Err(Memory),
    }
}

/// Splits the lock's only seat into one for each runner and itself. The seat of thread `t` has the number `t + 1`.
///
/// # Errors
/// Want of memory.
pub(crate) fn deal<T: Part + Drop, N: Drop, R: Wait>(
    rt: &R,
    alloc: Global,
    lock: &CapLock<T>,
    seat: &mut Seat<T>,
    runners: Vec<N>,
) -> Result<Vec<Worker<T, N>>, Memory>
    requires of { IsSeatOf lock.now seat.old }
    requires first { IsFirst (view_of seat.old) (length runners.items + 1) }
    requires few { length runners.items ≤ 16 }
    ensures of { IsSeatOf lock.now seat.new }
    ensures own { IfOk result (λ workers. view_of seat.new ≡ with_numbers_out (view_of seat.old) (length runners.items + 1)) }
    ensures dealt { IfOk result (λ workers. AreDealt lock.now (view_of seat.old) 0 workers.items) }
    ensures runners { IfOk result (λ workers. map (λ w. w.runner) workers.items ≡ runners.items) }
{
    let mut workers = Vec::with_capacity(alloc, runners.len())?;
    for runner in runners {
        let thread = workers.len() as u32;
        let new = further(rt, lock, seat)?;
        workers.push(Worker {
            thread,
            seat: new,
            runner,
        })?;
    }
    Ok(workers)
}
