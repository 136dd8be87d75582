//! Worlds of images event by event, and worlds that are taken apart between their events.
ghost use Rattle.std.specs.Prelude.{◌≡◌, List, IfOk};
ghost use Rattle.lx_model.specs.declared.account.ImageCount.{ImageCount};
ghost use Rattle.lx_opened_tests.specs.Opened.{IsOpened};

use crate::images::Image;
use crate::inputs::input_of;
use crate::opened::{Opened, is_reported, open_over};
use crate::runs::{Told, act, act_all, is_told};
use crate::texts::{stores_seven, two_threads};
use lx_caps::{CapStore, PlainCaps};
use lx_world::{EventFault, World};
use std::alloc::Global;
use std::process::Abort;
use std::test::Fail;

/// An order of the five events of each thread: the start of its call, the store, the load, the return, and the end. What is reported of
/// it: the same events, those of one thread in a row told together.
const TOLD: Told = Told {
    schedule: &[1, 0, 0, 1, 1, 0, 1, 0, 0, 1],
    report: "schedule 1*1 0*2 1*2 0*1 1*1 0*2 1*1
call 0.0 m:main returned 7
call 1.0 m:main returned 7
image m guards 1 checks 0 wrappers 0
owns m.shared write 0x1000000+4
owns m.shared call 0x10060
",
};

/// The world of two threads that run the same module, before its first event.
fn open_two_threads(alloc: Global) -> Result<Opened<PlainCaps>, Fail>
    ensures { IfOk result (λ o. IsOpened ⟦<PlainCaps as CapStore>⟧.stands o.world o.counts) }
{
    let sample = stores_seven();
    let input = input_of(alloc, two_threads(), &[("m.ll", sample.module)])?;
    match open_over(alloc, input, &[Image::Text(sample.image)])? {
        Ok(opened) => Ok(opened),
        Err(why) => {
            drop(why);
            Err(Fail::new("the world is not opened"))
        }
    }
}

/// Events, or what is asked of a world between them.
#[derive(Clone, Copy)]
enum Step {
    /// The events of a schedule come.
    Act(&'static [u32]),
    /// An event of this thread does not come for want of work.
    Idle(u32),
    /// Whether no work is left.
    Done(bool),
    /// The events so far.
    Behind(&'static [u32]),
}

/// Takes a step, and says whether it went as it has to.
fn goes_so<C: CapStore + Drop>(world: &mut World<C>, step: Step) -> bool {
    match step {
        Step::Act(schedule) => act_all(world, schedule).is_ok(),
        Step::Idle(thread) => match world.event(thread) {
            Err(EventFault::NoWork { thread: idle }) => idle == thread,
            _ => false,
        },
        Step::Done(done) => world.done() == done,
        Step::Behind(schedule) => world.schedule() == schedule,
    }
}

/// One thread ends before the other; neither a thread that has ended nor one that there is not has work.
static IN_TURN: [Step; 10] = [
    Step::Idle(2),
    Step::Act(&[1, 0, 0, 1, 0, 0, 0]),
    Step::Idle(0),
    Step::Done(false),
    Step::Act(&[1, 1, 1]),
    Step::Done(true),
    Step::Idle(0),
    Step::Idle(1),
    Step::Idle(2),
    Step::Behind(&[1, 0, 0, 1, 0, 0, 0, 1, 1, 1]),
];

fn assert_in_turn<C: CapStore + Drop>(rt: &impl Abort, world: &mut World<C>) {
    for (number, step) in IN_TURN.iter().enumerate() {
        assert!(rt; goes_so(world, *step), "step {number}");
    }
}

#[test]
fn an_event_of_a_thread_without_work_does_not_come(rt: HostRuntime) -> Result<(), Fail> {
    let Opened { mut world, counts } = open_two_threads(rt.alloc())?;
    drop(counts);
    assert_in_turn(&rt, &mut world);
    drop(world);
    Ok(())
}

#[test]
fn the_schedule_is_that_of_the_events(rt: HostRuntime) -> Result<(), Fail> {
    let opened = open_two_threads(rt.alloc())?;
    assert!(rt; is_told(rt.alloc(), opened, TOLD)?);
    Ok(())
}

/// A world that is taken apart and put together again.
fn rebuilt<C: CapStore + Drop>(world: World<C>) -> World<C>
    ensures { result ≡ world }
{
    let (shared, runners, code) = world.into_parts();
    World::from_parts(shared, runners, code)
}

/// One event, behind which the world is taken apart and put together again.
fn act_in_parts<C: CapStore + Drop>(world: World<C>, thread: u32) -> Result<World<C>, EventFault>
    ensures { IfOk result (λ behind. (counts : List ImageCount) → IsOpened C.stands world counts → IsOpened C.stands behind counts) }
{
    let mut next = world;
    match act(&mut next, thread) {
        Ok(()) => Ok(rebuilt(next)),
        Err(why) => {
            drop(next);
            Err(why)
        }
    }
}

/// The events of a schedule, behind each of which the world is taken apart and put together again.
fn act_all_in_parts<C: CapStore + Drop>(
    world: World<C>,
    schedule: &[u32],
) -> Result<World<C>, EventFault>
    ensures { IfOk result (λ behind. (counts : List ImageCount) → IsOpened C.stands world counts → IsOpened C.stands behind counts) }
{
    let mut next = rebuilt(world);
    for thread in schedule {
        next = act_in_parts(next, *thread)?;
    }
    Ok(next)
}

/// Whether a world that is taken apart between its events is told so behind its run.
fn is_told_in_parts<C: CapStore + Drop>(
    alloc: Global,
    opened: Opened<C>,
    told: Told,
) -> Result<bool, Fail>
    requires { IsOpened C.stands opened.world opened.counts }
{
    let Opened { world, counts } = opened;
    let ended = act_all_in_parts(world, told.schedule)?;
    let reported = is_reported(alloc, &ended, counts, told.report);
    drop(ended);
    let reported = reported?;
    Ok(reported)
}

#[test]
fn a_world_goes_on_from_its_parts(rt: HostRuntime) -> Result<(), Fail> {
    let opened = open_two_threads(rt.alloc())?;
    assert!(rt; is_told_in_parts(rt.alloc(), opened, TOLD)?);
    Ok(())
}
