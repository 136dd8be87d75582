//! The trace of an input that is replayed.
ghost use Rattle.std.specs.Prelude.{◌≡◌, [], ℕ, IfOk, List, None, Some, is_some, true};
ghost use Rattle.lx_input.specs.Laws.{IsReady};
ghost use Rattle.lx_model.specs.Account.{account};
ghost use Rattle.lx_model.specs.World.{opening};
ghost use Rattle.lx_model.specs.declared.program.Program.{Program};
ghost use Rattle.lx_model.specs.declared.program.ScriptCall.{ScriptCall};
ghost use Rattle.lx_runs.specs.Reports.{all_returned, broken_at};
ghost use Rattle.lx_runs.specs.Runs.{images_of};
ghost use Rattle.lx_trace.specs.Run.{IsOfRun, StandsForTrace};
ghost use Rattle.lx_trace.specs.Tells.{TellsTrace};
ghost use Rattle.lx_trace.specs.Trace.{behind, trace};
ghost use Rattle.lx_trace_text.specs.Text.{trace_text};
ghost use Rattle.lx_why.specs.Opened.{IsFullOpening};

use crate::run::TraceRun;
use lx_cap_tables::CapTables;
use lx_caps::CapStore;
use lx_input::Input;
use lx_model::account::ImageCount;
use lx_runs::{Guarding, Opened, Told, all_returned, open_input};
use lx_trace_text::{Traced, trace_text};
use lx_words::{Items, Memory, Name};
use lx_world::{EventFault, World};
use std::alloc::Global;

/// Runs the threads in the order of a schedule, and gathers the events. Where the schedule is not whole, the answer is its first entry, counted
/// from 0, that names a thread without work, or its length where work remains behind it.
fn gather<C: CapStore + Drop>(
    alloc: Global,
    run: &mut TraceRun<C>,
    schedule: &[u32],
    out: &mut Vec<Traced>,
) -> Result<Option<u64>, Memory>
    requires { out.old.items ≡ [] }
    ensures broken { IfOk result (λ broken. (p : Program) (script : List (List ScriptCall)) → StandsForTrace C.stands p script [] run.old
        → broken ≡ broken_at p schedule.now (opening p script)) }
    ensures whole { IfOk result (λ broken. (p : Program) (script : List (List ScriptCall)) → StandsForTrace C.stands p script [] run.old
        → broken ≡ None → IsOfRun C.stands p script schedule.now run.new × (out.new.items ≡ trace p schedule.now (opening p script))) }
{
    for (entry, thread) in schedule.iter().enumerate() {
        match run.step(alloc, *thread) {
            Ok(event) => out.push(event)?,
            Err(EventFault::NoWork { .. }) => return Ok(Some(entry as u64)),
            Err(EventFault::Memory) => return Err(Memory),
        }
    }
    if run.done() {
        Ok(None)
    } else {
        Ok(Some(schedule.len() as u64))
    }
}

/// The text of the events of a run behind its last one, and whether every call returned. `images` is what the images of its modules have.
fn text_of<C: CapStore + Drop>(
    alloc: Global,
    run: &TraceRun<C>,
    events: &[Traced],
    images: Items<ImageCount>,
) -> Result<(Name, bool), Memory>
    requires { (p : Program) × (script : List (List ScriptCall)) × (s : List ℕ) × IsOfRun C.stands p script s run.now × (images ≡ images_of p) }
    ensures text { IfOk result (λ told. (p : Program) (script : List (List ScriptCall)) (s : List ℕ) → IsOfRun C.stands p script s run.now
        → told.0 ≡ trace_text p (account p (behind p script s)).names events.now) }
    ensures status { IfOk result (λ told. (p : Program) (script : List (List ScriptCall)) (s : List ℕ) → IsOfRun C.stands p script s run.now
        → told.1 ≡ all_returned (account p (behind p script s)).outcomes) }
{
    let account = run.account(alloc, images)?;
    let returned = all_returned(account.outcomes.as_slice());
    let text = trace_text(alloc, run.program(), account.names.as_slice(), events);
    drop(account);
    match text {
        Ok(text) => Ok((Name::from_vec(text), returned)),
        Err(why) => Err(why),
    }
}

/// Replays a run under a schedule, and tells its trace where the schedule is whole.
fn trace_of<C: CapStore + Drop>(
    alloc: Global,
    run: &mut TraceRun<C>,
    schedule: &[u32],
    images: Items<ImageCount>,
) -> Result<Told, Memory>
    requires { (p : Program) × (script : List (List ScriptCall)) × StandsForTrace C.stands p script [] run.old × (images ≡ images_of p) }
    ensures { IfOk result (λ told. (p : Program) (script : List (List ScriptCall)) → StandsForTrace C.stands p script [] run.old → TellsTrace p script (Some schedule.now) told) }
{
    let mut events = Vec::with_capacity(alloc, schedule.len())?;
    match gather(alloc, run, schedule, &mut events)? {
        Some(entry) => Ok(Told::Broken(entry)),
        None => {
            let (text, returned) = text_of(alloc, run, events.as_slice(), images)?;
            Ok(Told::Report(text, returned))
        }
    }
}

/// The same of the run of a world that is opened, which is given up behind it.
fn trace_opened<C: CapStore + Drop>(
    alloc: Global,
    world: World<C>,
    schedule: &[u32],
    images: Items<ImageCount>,
) -> Result<Told, Memory>
    requires { (p : Program) × (script : List (List ScriptCall)) × IsFullOpening C.stands p script world × (images ≡ images_of p) }
    ensures { IfOk result (λ told. (p : Program) (script : List (List ScriptCall)) → IsFullOpening C.stands p script world → TellsTrace p script (Some schedule.now) told) }
{
    let mut run = TraceRun::over(alloc, world)?;
    let told = trace_of(alloc, &mut run, schedule, images);
    drop(run);
    told
}

/// Replays an input over a store of capabilities, and tells its trace.
fn trace_over<C: CapStore + Drop>(alloc: Global, input: Input, caps: C) -> Result<Told, Memory>
    requires ready { IsReady input }
    requires asked { is_some input.besides.schedule ≡ true }
    requires new { C.stands caps [] }
    ensures { IfOk result (TellsTrace input.program input.script input.besides.schedule) }
{
    let Opened {
        world,
        schedule,
        images,
    } = open_input(alloc, input, Guarding::Full, caps)?;
    match schedule {
        Some(schedule) => {
            let told = trace_opened(alloc, world, schedule.as_slice(), images);
            drop(schedule);
            told
        }
        None => unreachable!(),
    }
}

/// The same under a schedule that is given.
fn trace_given<C: CapStore + Drop>(
    alloc: Global,
    input: Input,
    given: &[u32],
    caps: C,
) -> Result<Told, Memory>
    requires ready { IsReady input }
    requires new { C.stands caps [] }
    ensures { IfOk result (TellsTrace input.program input.script (Some given.now)) }
{
    let Opened {
        world,
        schedule,
        images,
    } = open_input(alloc, input, Guarding::Full, caps)?;
    drop(schedule);
    trace_opened(alloc, world, given, images)
}

/// Replays an input under the schedule that is asked for, and tells each event of the run: which call it belongs to, the line of the text at which
/// it is asked for, what is asked, and what is replied; and whether every call returned. Images of its modules run in which each store has its
/// guard, and what is told is of the monitor's run of the program as it is written. Where the schedule is not whole, the entry that breaks it is
/// told instead.
///
/// # Errors
/// Want of memory; a module whose image no text can say, and more calls of a thread than a number of 32 bits counts are that too.
pub fn trace_input(alloc: Global, input: Input) -> Result<Told, Memory>
    requires ready { IsReady input }
    requires asked { is_some input.besides.schedule ≡ true }
    ensures { IfOk result (TellsTrace input.program input.script input.besides.schedule) }
{
    match CapTables::new(alloc) {
        Ok(caps) => trace_over(alloc, input, caps),
        Err(_) => {
            drop(input);
            Err(Memory)
        }
    }
}

/// The same under a schedule that is given, in place of the one that is asked for.
///
/// # Errors
/// Those of [`trace_input`].
pub fn trace_under(alloc: Global, input: Input, schedule: &[u32]) -> Result<Told, Memory>
    requires { IsReady input }
    ensures { IfOk result (TellsTrace input.program input.script (Some schedule.now)) }
{
    match CapTables::new(alloc) {
        Ok(caps) => trace_given(alloc, input, schedule, caps),
        Err(_) => {
            drop(input);
            Err(Memory)
        }
    }
}
