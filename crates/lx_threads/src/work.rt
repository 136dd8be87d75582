//! What one thread does.
ghost use Rattle.std.specs.Prelude.{◌≡◌};
ghost use Rattle.lx_caplock.specs.Seats.{IsSeatOf, view_of};
ghost use Rattle.lx_caplock.specs.Calls.{IsSameSeat};
ghost use Rattle.lx_threads.specs.Working.{MayWork, HasStopped};

use crate::asker::Asker;
use crate::worker::Worker;
use lx_caplock::{CapLock, Part};
use lx_outside::{Gate, GatePlace};
use std::sync::Wait;

/// Runs one thread until it has no work left, or it or the part lacks memory. It passes the gate without the lock, before its
/// register steps and before each request.
pub(crate) fn work<T: Part + Drop, K, N: Asker<K> + Drop, G: Gate, R: Wait>(
    rt: &R,
    lock: &CapLock<T>,
    code: &K,
    gate: &G,
    worker: Worker<T, N>,
) -> Worker<T, N>
    requires of { IsSeatOf lock.now worker.seat }
    requires may { MayWork T.program T.stands T.takes N.program N.stands N.fits code.now worker }
    ensures of { IsSeatOf lock.now result.seat }
    ensures thread { result.thread ≡ worker.thread }
    ensures same { IsSameSeat (view_of worker.seat) (view_of result.seat) }
    ensures worked { HasStopped T.program T.stands T.lacks N.stands N.lacks (N.machine code.now) code.now worker result }
{
    let Worker {
        thread,
        mut seat,
        mut runner,
    } = worker;
    for _ in rt.forever() {
        if runner.done() {
            return Worker {
                thread,
                seat,
                runner,
            };
        }
        gate.pass(thread, GatePlace::Local);
        let Ok(()) = runner.local(code) else {
            return Worker {
                thread,
                seat,
                runner,
            };
        };
        gate.pass(thread, GatePlace::Event);
        let Some(request) = runner.request() else {
            return Worker {
                thread,
                seat,
                runner,
            };
        };
        let Ok(reply) = lock.ask(rt, &mut seat, thread, request) else {
            return Worker {
                thread,
                seat,
                runner,
            };
        };
        runner.absorb(code, &reply);
    }
    unreachable!()
}
