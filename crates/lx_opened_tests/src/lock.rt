//! Seats of one lock, and threads that ask through them.
ghost use Rattle.std.specs.Prelude.{◌≡◌, ◌≤◌, ◌+◌, IfOk, length, sum_by};

use lx_caplock::{CapLock, Part, SplitFault};
use lx_caps::Principal;
use lx_model::request::{Outcome, Reply, Request, What};
use lx_outside::OpenGate;
use lx_threads::{Asker, run_workers};
use lx_words::Memory;
use std::alloc::Global;
use std::sync::Wait;
use std::test::Fail;
use std::thread::Threads;

/// Counts the ends of calls that it serves, which it answers as the monitor does. For anything else it has no memory.
#[derive(Drop)]
struct Counter {
    served: u64,
}

impl Part for Counter {
    ghost use Rattle.std.specs.Prelude.{◌≡◌, ⊤, length};
    ghost use Rattle.lx_opened_tests.specs.Programs.{empty};

    ghost program = { λ part. empty };

    ghost stands = { λ part s. length s.journal ≡ part.served };

    ghost takes = { λ p t r. ⊤ };

    ghost lacks = { λ part t r. ⊤ };

    fn serve(&mut self, _thread: u32, request: &Request) -> Result<Reply, Memory> {
        let What::Finish { outcome } = &request.what else {
            return Err(Memory);
        };
        let Some(served) = self.served.checked_add(1) else {
            return Err(Memory);
        };
        self.served = served;
        Ok(Reply::Ended(*outcome))
    }

    ghost takes_fitting = { λ p t r fits. tt };
}

/// Asks one request so many times more.
#[derive(Drop)]
struct Caller {
    left: u32,
    request: Request,
}

impl Asker<()> for Caller {
    ghost use Rattle.std.specs.Prelude.{◌≡◌, ⊤};
    ghost use Rattle.lx_opened_tests.specs.Callers.{Calls, calling};
    ghost use Rattle.lx_opened_tests.specs.Programs.{empty};

    ghost Thread = { Calls };

    ghost program = { λ code. empty };

    ghost machine = { λ code. calling };

    ghost stands = { λ code t caller x. (x.left ≡ caller.left) × (x.request ≡ caller.request) };

    ghost asks = { λ code t caller x. (x.left ≡ caller.left) × (x.request ≡ caller.request) };

    ghost lacks = { λ code caller. ⊥ };

    ghost fits = { λ p t r. ⊤ };

    fn done(&self) -> bool {
        self.left == 0
    }

    fn local(&mut self, _code: &()) -> Result<(), Memory> {
        Ok(())
    }

    fn request(&self) -> Option<&Request> {
        Some(&self.request)
    }

    fn absorb(&mut self, _code: &(), _reply: &Reply) {
        self.left = self.left.saturating_sub(1);
    }
}

fn end_of_call() -> Request {
    Request {
        who: Principal::Kernel,
        what: What::Finish {
            outcome: Outcome::Budget,
        },
    }
}

/// Two seats ask once each, one takes in the other, and the part comes back as both have asked it. A third number there is not.
#[test]
fn two_seats_ask(rt: HostRuntime) -> Result<(), Fail> {
    let (lock, mut first) = CapLock::open(rt.alloc(), Counter { served: 0 }, 2)?;
    let Ok(mut second) = lock.split(&rt, &mut first) else {
        panic!(rt; "no seat")
    };
    assert!(rt; matches!(lock.split(&rt, &mut first), Err(SplitFault::NoSeat)));
    let request = end_of_call();
    let by_first = lock.ask(&rt, &mut first, 0, &request).is_ok();
    let by_second = lock.ask(&rt, &mut second, 1, &request).is_ok();
    drop(request);
    lock.join(&mut first, second);
    let part = lock.close(first);
    assert!(rt; by_first && by_second);
    assert!(rt; part.served == 2);
    Ok(())
}

/// A seat asks alone, twice.
fn ask_alone<R: Wait>(rt: &R, alloc: Global, request: &Request) -> Result<Counter, Memory>
    ensures { IfOk result (λ counter. counter.served ≡ 2) }
{
    let (lock, mut seat) = CapLock::open(alloc, Counter { served: 0 }, 1)?;
    let _first = lock.ask(rt, &mut seat, 0, request)?;
    let _second = lock.ask(rt, &mut seat, 0, request)?;
    let counter = lock.close(seat);
    Ok(counter)
}

/// What a seat that asks alone has asked is the whole history: the part has served just that.
#[test]
fn one_seat_asks_alone(rt: HostRuntime) -> Result<(), Fail> {
    let request = end_of_call();
    let asked = ask_alone(&rt, rt.alloc(), &request);
    drop(request);
    let counter = asked?;
    assert!(rt; counter.served == 2);
    Ok(())
}

/// Runs the callers as threads of one lock. Each call that was made is counted.
fn run_all<R: Threads + Wait + Sync>(
    rt: &R,
    alloc: Global,
    callers: Vec<Caller>,
) -> Result<(Counter, Vec<Caller>), Memory>
    requires few { length callers.items ≤ 16 }
    ensures counted { IfOk result (λ r. r.0.served + sum_by (λ c. c.left) r.1.items ≡ sum_by (λ c. c.left) callers.items) }
{
    let done = run_workers(rt, alloc, Counter { served: 0 }, &(), &OpenGate, callers)?;
    Ok(done)
}

/// Sixteen threads that ask beside each other are all served, in whatever order.
#[test]
fn threads_ask_beside_each_other(rt: HostRuntime) -> Result<(), Fail> {
    let mut callers = Vec::new(rt.alloc());
    for _ in 0..16 {
        callers.push(Caller {
            left: 256,
            request: end_of_call(),
        })?;
    }
    assert!(rt; callers.len() == 16);
    let (counter, callers) = run_all(&rt, rt.alloc(), callers)?;
    assert!(rt; counter.served == 4096);
    assert!(rt; callers.len() == 16);
    assert!(rt; callers.iter().all(|caller| caller.left == 0));
    drop(callers);
    Ok(())
}
