//! All threads.
ghost use Rattle.std.specs.Prelude.{◌≡◌, ◌≤◌, ◌<◌, ℕ, IfOk, length, slice_index_or};
ghost use Rattle.lx_caplock.specs.Seats.{IsSeatOf};
ghost use Rattle.lx_threads.specs.Working.{MayWork, AfterWork, MayRun, HasRun};

use crate::asker::Asker;
use crate::joined::gather;
use crate::seats::deal;
use crate::work::work;
use crate::worker::Worker;
use lx_caplock::{CapLock, Part};
use lx_outside::Gate;
use lx_words::Memory;
use std::alloc::{AllocError, Global};
use std::sync::Wait;
use std::thread;
use std::thread::Threads;

// Each worker in a thread of its own, where one can be made.
fn work_all<
    T: Part + Drop + Send,
    K: Sync,
    N: Asker<K> + Drop + Send,
    G: Gate + Sync,
    R: Threads + Wait + Sync,
>(
    rt: &R,
    lock: &CapLock<T>,
    code: &K,
    gate: &G,
    workers: Vec<Worker<T, N>>,
) -> Result<Vec<Worker<T, N>>, AllocError>
    requires { (i : ℕ) (w : _) → i < length workers.items → w ≡ slice_index_or workers.items i w → IsSeatOf lock.now w.seat × MayWork T.program T.stands T.takes N.program N.stands N.fits code.now w }
    ensures many { IfOk result (λ done. length done.items ≡ length workers.items) }
    ensures each { IfOk result (λ done. (i : ℕ) (d : _) (w : _) → i < length workers.items → w ≡ slice_index_or workers.items i w → AfterWork T.program T.stands T.lacks N.stands N.lacks (N.machine code.now) code.now lock.now w (slice_index_or done.items i d)) }
{
    thread::map_vec(
        rt,
        workers,
        &|worker| -> Worker<T, N>
            requires { IsSeatOf lock.now worker.seat × MayWork T.program T.stands T.takes N.program N.stands N.fits code.now worker }
            ensures { AfterWork T.program T.stands T.lacks N.stands N.lacks (N.machine code.entry.now) code.entry.now lock.entry.now worker result }
        { work(rt, lock, code, gate, worker) },
    )
}

/// Runs a thread for each of at most 16 runners, round one lock with the part in it. What they did is one history, an event
/// for each entry; the part and the runners come back as it leaves them. What else the part's `stands` says of it, as that
/// there is room for what may still come, holds of what comes back too.
///
/// A worker stops where its thread has no work left, or where serving or its own steps meet want of memory: its runner then
/// comes back with work. It does so only where the runner lacks memory for its steps, or where the part, as a beginning of the
/// history leaves it, may lack it for what the thread asks. Where no thread can be made for a worker, the caller runs it.
///
/// # Errors
/// Want of memory for the lock, its seats or the lists: the part and the runners are given up.
pub fn run_workers<
    T: Part + Drop + Send,
    K: Sync,
    N: Asker<K> + Drop + Send,
    G: Gate + Sync,
    R: Threads + Wait + Sync,
>(
    rt: &R,
    alloc: Global,
    part: T,
    code: &K,
    gate: &G,
    runners: Vec<N>,
) -> Result<(T, Vec<N>), Memory>
    requires few { length runners.items ≤ 16 }
    requires may { MayRun T.program T.stands T.takes N.program N.stands N.fits code.now part runners.items }
    ensures { IfOk result (λ r. HasRun T.program T.stands T.lacks N.stands N.lacks (N.machine code.now) code.now part r.0 runners.items r.1.items) }
{
    let seats = runners.len() as u32 + 1;
    let (lock, mut seat) = CapLock::open(alloc, part, seats)?;
    let workers = deal(rt, alloc, &lock, &mut seat, runners)?;
    let done = work_all(rt, &lock, code, gate, workers)?;
    let list = gather(alloc, &lock, &mut seat, done)?;
    let part = lock.close(seat);
    Ok((part, list))
}
