//! The threads of a small world that run beside each other: they meet at a gate, and a held call comes behind an event of the
//! other thread.
use crate::world::world;
use lx_caps::PlainCaps;
use lx_outside::{Gate, GatePlace, OpenGate};
use lx_threads::run_threads;
use std::alloc::Global;
use std::sync::Wait;
use std::sync::atomic::Ordering::SeqCst;
use std::sync::atomic::{AtomicBool, AtomicU32};
use std::test::Fail;
use std::thread;
use std::thread::Threads;

/// Waits until a thread has passed so often, and says whether it did.
fn waits(passes: &AtomicU32, times: u32) -> bool {
    for _ in 0..1_000_000 {
        if passes.load(SeqCst) >= times {
            return true;
        }
        thread::yield_now();
    }
    false
}

/// Each thread waits at its first pass for the other's.
#[derive(Drop)]
struct Meeting {
    first: AtomicU32,
    second: AtomicU32,
    missed: AtomicBool,
}

impl Gate for Meeting {
    fn pass(&self, thread: u32, _place: GatePlace) {
        let (mine, other) = if thread == 0 {
            (&self.first, &self.second)
        } else {
            (&self.second, &self.first)
        };
        mine.store(1, SeqCst);
        if !waits(other, 1) {
            self.missed.store(true, SeqCst);
        }
    }
}

/// Holds the first thread before the first register step of its second call, until the second thread has passed for its last
/// event. Each call has two events.
#[derive(Drop)]
struct Holding {
    steps: AtomicU32,
    events: AtomicU32,
    missed: AtomicBool,
}

impl Gate for Holding {
    fn pass(&self, thread: u32, place: GatePlace) {
        if thread == 1 {
            if place == GatePlace::Event {
                self.events.fetch_add(1, SeqCst);
            }
            return;
        }
        if place == GatePlace::Local
            && self.steps.fetch_add(1, SeqCst) == 2
            && !waits(&self.events, 2)
        {
            self.missed.store(true, SeqCst);
        }
    }
}

/// The schedule of the small world whose threads run at a gate; nothing where work is left.
fn schedule_at<R: Threads + Wait + Sync, G: Gate + Sync>(
    rt: &R,
    alloc: Global,
    gate: &G,
) -> Result<Vec<u32>, Fail> {
    let world = world(alloc, PlainCaps::new(alloc))?;
    let done = run_threads(rt, alloc, world, gate)?;
    let schedule = if done.done() {
        done.schedule().to_vec(alloc)
    } else {
        Ok(Vec::new(alloc))
    };
    drop(done);
    Ok(schedule?)
}

/// How many entries of a schedule are of a thread.
fn count(schedule: &[u32], thread: u32) -> usize {
    schedule.iter().filter(|entry| **entry == thread).count()
}

#[test]
fn threads_meet(rt: HostRuntime) -> Result<(), Fail> {
    let gate = Meeting {
        first: AtomicU32::new(0),
        second: AtomicU32::new(0),
        missed: AtomicBool::new(false),
    };
    let schedule = schedule_at(&rt, rt.alloc(), &gate)?;
    assert!(rt; !gate.missed.load(SeqCst));
    assert!(rt; count(&schedule, 0) == 4);
    assert!(rt; count(&schedule, 1) == 2);
    Ok(())
}

#[test]
fn a_held_call_comes_behind_an_event(rt: HostRuntime) -> Result<(), Fail> {
    let gate = Holding {
        steps: AtomicU32::new(0),
        events: AtomicU32::new(0),
        missed: AtomicBool::new(false),
    };
    let schedule = schedule_at(&rt, rt.alloc(), &gate)?;
    assert!(rt; !gate.missed.load(SeqCst));
    assert!(rt; schedule.len() == 6);
    // The held call begins with the third event of the first thread.
    assert!(rt; schedule[..3].contains(&1));
    Ok(())
}

#[test]
fn an_open_gate_lets_all_pass(rt: HostRuntime) -> Result<(), Fail> {
    let schedule = schedule_at(&rt, rt.alloc(), &OpenGate)?;
    assert!(rt; schedule.len() == 6);
    Ok(())
}
