//! A small world, event by event.
ghost use Rattle.std.specs.Prelude.{◌≡◌, [], IfOk, length};
ghost use Rattle.std.specs.Arc.{arc_value};
ghost use Rattle.lx_images.specs.ImageWorld.{ImageWorld};
ghost use Rattle.lx_world.specs.Worlds.{StandsForWorld};
ghost use Rattle.lx_model.specs.Opening.{opening_state};
ghost use Rattle.lx_opened_tests.specs.Programs.{one_silent, silent_code};
ghost use Rattle.lx_serve.specs.Stands.{StandsForState};

use crate::common::{call_with, function_with, one_function, owned, part_of};
use lx_caps::{Cap, CapStore, PlainCaps, Principal};
use lx_image_code::CodeFault;
use lx_interp::Code;
use lx_model::account::{Account, CallOutcome, ImageCount, Owned};
use lx_model::program::{Calls, Program};
use lx_model::request::{Outcome, Trap};
use lx_serve::SharedPart;
use lx_words::{Items, Memory};
use lx_world::{EventFault, World};
use lx_writer_sets::Recorded;
use std::alloc::Global;
use std::process::Abort;
use std::sync::Arc;
use std::test::Fail;

/// A program of one module with one function, at 0x10000, that has no instruction, so that a call of it traps at its start; its
/// module has no image either.
fn program(alloc: Global) -> Result<Program, Memory>
    ensures { IfOk result (λ p. p ≡ one_silent) }
{
    let function = function_with(alloc, Items::new(alloc), None);
    let program = one_function(alloc, function)?;
    Ok(program)
}

/// What its threads share before the first call: the module owns the call of its function, and there is room for three
/// calls of nine units of fuel.
#[tactic(auto, using(crate::proofs::Programs::silent_blank, crate::proofs::Programs::silent_known, crate::proofs::Programs::silent_linked))]
fn shared<C: CapStore + Drop>(
    alloc: Global,
    program: Arc<Program>,
    caps: C,
) -> Result<SharedPart<C>, Fail>
    requires tested { arc_value program ≡ one_silent }
    requires new { C.stands caps [] }
    ensures { IfOk result (λ part. StandsForState C.stands (arc_value program) part (opening_state (arc_value program))) }
{
    let mut caps = Recorded::new(alloc, caps);
    match caps.reserve(1) {
        Ok(()) => {
            caps.grant(Principal::Shared(0), Cap::Call { at: 0x10000 });
            let part = part_of(alloc, program, caps)?;
            Ok(part)
        }
        Err(error) => {
            drop(caps);
            drop(program);
            Err(error.into())
        }
    }
}

/// A thread with two calls, and one with one.
fn script(alloc: Global) -> Result<Vec<Calls>, Memory>
    ensures { IfOk result (λ script. length script.items ≡ 2) }
{
    let first = vec![in alloc; call_with(alloc, 9), call_with(alloc, 9)]?;
    let second = vec![in alloc; call_with(alloc, 9)]?;
    let script = vec![in alloc; Items::from_vec(first), Items::from_vec(second)]?;
    Ok(script)
}

/// Its code.
#[tactic(auto, using(crate::proofs::Programs::silent_within_reach, crate::proofs::Programs::silent_counts, crate::proofs::Programs::no_images))]
fn code(alloc: Global, program: Arc<Program>) -> Result<Code, CodeFault>
    requires { arc_value program ≡ one_silent }
    ensures { IfOk result (λ code. code ≡ silent_code) }
{
    let code = Code::new(alloc, program, Vec::new(alloc), Vec::new(alloc))?;
    Ok(code)
}

/// The program with two owners.
fn owned_twice(alloc: Global) -> Result<(Arc<Program>, Arc<Program>), Memory>
    ensures { IfOk result (λ owners. (arc_value owners.0 ≡ one_silent) × (arc_value owners.1 ≡ one_silent)) }
{
    let program = program(alloc)?;
    let first = owned(alloc, program)?;
    match Arc::try_clone(&first) {
        Ok(second) => Ok((first, second)),
        Err(_) => {
            drop(first);
            Err(Memory)
        }
    }
}

/// The small world of a script, before its first event.
fn world_of<C: CapStore + Drop>(alloc: Global, script: &[Calls], caps: C) -> Result<World<C>, Fail>
    requires two { length script.now ≡ 2 }
    requires new { C.stands caps [] }
    ensures { IfOk result (λ world. (w : ImageWorld) × StandsForWorld C.stands silent_code world w) }
{
    let (first, second) = owned_twice(alloc)?;
    let code = code(alloc, first)?;
    match shared(alloc, second, caps) {
        Ok(shared) => {
            let world = World::open(alloc, code, script, shared)?;
            Ok(world)
        }
        Err(fault) => {
            drop(code);
            Err(fault)
        }
    }
}

/// The small world before its first event.
pub fn world<C: CapStore + Drop>(alloc: Global, caps: C) -> Result<World<C>, Fail>
    requires { C.stands caps [] }
    ensures { IfOk result (λ world. (w : ImageWorld) × StandsForWorld C.stands silent_code world w) }
{
    let script = script(alloc)?;
    let world = world_of(alloc, script.as_slice(), caps);
    drop(script);
    world
}

/// One event.
fn act<C: CapStore + Drop>(world: &mut World<C>, thread: u32) -> Result<(), EventFault>
    requires { (w : ImageWorld) × StandsForWorld C.stands silent_code world.old w }
    ensures { (w : ImageWorld) × StandsForWorld C.stands silent_code world.new w }
{
    match world.event(thread) {
        Ok(()) => Ok(()),
        Err(fault) => Err(fault),
    }
}

/// All events that there are: of each call its start and its end.
fn run<C: CapStore + Drop>(rt: &impl Abort, world: &mut World<C>) -> Result<(), EventFault>
    requires { (w : ImageWorld) × StandsForWorld C.stands silent_code world.old w }
    ensures { (w : ImageWorld) × StandsForWorld C.stands silent_code world.new w }
{
    act(world, 1)?;
    act(world, 0)?;
    act(world, 0)?;
    act(world, 1)?;
    let idle = act(world, 1);
    assert!(rt; matches!(idle, Err(EventFault::NoWork { thread: 1 })));
    assert!(rt; !world.done());
    act(world, 0)?;
    act(world, 0)?;
    assert!(rt; world.done());
    Ok(())
}

static SCHEDULE: [u32; 6] = [1, 0, 0, 1, 0, 0];

/// How a call of a thread ended: without an instruction.
fn trapped(thread: u32) -> CallOutcome {
    CallOutcome {
        thread,
        function: 0,
        outcome: Outcome::Trapped(Trap::Unreachable),
    }
}

static OWNERS: [Owned; 1] = [Owned {
    who: Principal::Shared(0),
    cap: Cap::Call { at: 0x10000 },
}];

fn assert_account(rt: &impl Abort, account: &Account) {
    assert!(rt; account.schedule.as_slice() == SCHEDULE.as_slice());
    let outcomes = [trapped(0), trapped(0), trapped(1)];
    assert!(rt; account.outcomes.as_slice() == outcomes.as_slice());
    assert!(rt; account.owners.as_slice() == OWNERS.as_slice());
}

#[tactic(auto, using(crate::proofs::Programs::silent_images))]
fn report<C: CapStore + Drop>(
    rt: &impl Abort,
    alloc: Global,
    world: &World<C>,
) -> Result<(), Memory>
    requires { (w : ImageWorld) × StandsForWorld C.stands silent_code world.now w }
{
    let none = ImageCount {
        guards: 0,
        checks: 0,
        wrappers: 0,
    };
    let images = Items::from_vec(vec![in alloc; none]?);
    let account = world.account(alloc, images)?;
    assert_account(rt, &account);
    drop(account);
    Ok(())
}

fn run_and_report<C: CapStore + Drop>(
    rt: &impl Abort,
    alloc: Global,
    world: &mut World<C>,
) -> Result<(), Fail>
    requires { (w : ImageWorld) × StandsForWorld C.stands silent_code world.old w }
{
    run(rt, world)?;
    report(rt, alloc, world)?;
    Ok(())
}

#[test]
fn events_make_the_account(rt: HostRuntime) -> Result<(), Fail> {
    let alloc = rt.alloc();
    let mut world = world(alloc, PlainCaps::new(alloc))?;
    let ended = run_and_report(&rt, alloc, &mut world);
    drop(world);
    ended
}

#[test]
fn an_event_that_does_not_come_says_why(rt: HostRuntime) -> Result<(), Fail> {
    let fault = EventFault::NoWork { thread: 3 };
    let text = format!(in rt.alloc(); "{fault}")?;
    assert_eq!(rt; text.as_str(), "thread 3 has no work");
    Ok(())
}
