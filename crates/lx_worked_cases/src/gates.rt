//! Threads meet at a gate, which holds one of them until the other has passed.

use crate::one_entry::CALL;
use crate::series::Series;
use crate::threads::EVENTS;
use crate::trial::assert_series;
use lx_outside::{Gate, GatePlace};
use std::alloc::Global;
use std::process::Abort;
use std::sync::Wait;
use std::sync::atomic::Ordering::SeqCst;
use std::sync::atomic::{AtomicBool, AtomicU32};
use std::test::Fail;
use std::thread;
use std::thread::Threads;

/// Waits until a thread has passed so often, and says whether it did.
fn waits(passes: &AtomicU32, times: u32) -> bool {
    for _ in 0..1_000_000 {
        if passes.load(SeqCst) >= times {
            return true;
        }
        thread::yield_now();
    }
    false
}

/// Each thread waits at its first pass for the other's.
#[derive(Drop)]
struct Meeting {
    first: AtomicU32,
    second: AtomicU32,
    missed: AtomicBool,
}

impl Gate for Meeting {
    fn pass(&self, thread: u32, _place: GatePlace) {
        let (mine, other) = if thread == 0 {
            (&self.first, &self.second)
        } else {
            (&self.second, &self.first)
        };
        mine.store(1, SeqCst);
        if !waits(other, 1) {
            self.missed.store(true, SeqCst);
        }
    }
}

/// Holds a thread at its pass with this number, before register steps or before events, until the other has passed so often
/// for its events.
#[derive(Drop)]
struct Holding {
    thread: u32,
    at_steps: bool,
    number: u32,
    events: u32,
    passed: AtomicU32,
    others: AtomicU32,
    missed: AtomicBool,
}

impl Gate for Holding {
    fn pass(&self, thread: u32, place: GatePlace) {
        if thread != self.thread {
            if place == GatePlace::Event {
                self.others.fetch_add(1, SeqCst);
            }
            return;
        }
        if (place == GatePlace::Local) == self.at_steps
            && self.passed.fetch_add(1, SeqCst) == self.number
            && !waits(&self.others, self.events)
        {
            self.missed.store(true, SeqCst);
        }
    }
}

/// A gate that holds a thread at its pass with this number, counted from 0.
fn held_at(thread: u32, at_steps: bool, number: u32, events: u32) -> Holding {
    Holding {
        thread,
        at_steps,
        number,
        events,
        passed: AtomicU32::new(0),
        others: AtomicU32::new(0),
        missed: AtomicBool::new(false),
    }
}

/// Runs a series at a gate that has to have what it waits for.
fn assert_held<R: Threads + Wait + Sync + Abort>(
    rt: &R,
    alloc: Global,
    series: Series,
    gate: &Holding,
) -> Result<(), Fail> {
    assert_series(rt, alloc, series, gate)?;
    assert!(rt; !gate.missed.load(SeqCst));
    Ok(())
}

#[test]
fn threads_meet(rt: HostRuntime) -> Result<(), Fail> {
    let gate = Meeting {
        first: AtomicU32::new(0),
        second: AtomicU32::new(0),
        missed: AtomicBool::new(false),
    };
    assert_series(&rt, rt.alloc(), Series::Meeting, &gate)?;
    assert!(rt; !gate.missed.load(SeqCst));
    Ok(())
}

/// A thread is held before the first register step of its second call, until the other has passed for its last event.
#[test]
fn a_held_call_comes_behind_the_other_thread(rt: HostRuntime) -> Result<(), Fail> {
    for (thread, name) in [(0, "0"), (1, "1")] {
        let gate = held_at(thread, true, EVENTS, 2 * EVENTS);
        assert_held(&rt, rt.alloc(), Series::Held(name), &gate)?;
    }
    Ok(())
}

/// The store's guard has passed when its thread is held; what was taken away meanwhile is missed all the same.
#[test]
fn a_store_that_is_held_behind_its_guard(rt: HostRuntime) -> Result<(), Fail> {
    let gate = held_at(0, false, 1, CALL);
    assert_held(&rt, rt.alloc(), Series::Store(false), &gate)
}

/// The action that takes the bytes away is held until the store and its thread are done.
#[test]
fn an_action_that_is_held_behind_a_store(rt: HostRuntime) -> Result<(), Fail> {
    let gate = held_at(1, false, 2, CALL);
    assert_held(&rt, rt.alloc(), Series::Store(true), &gate)
}
