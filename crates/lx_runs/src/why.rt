//! The certificates of an input that is replayed.
ghost use Rattle.std.specs.Prelude.{◌≡◌, ◌++◌, [], ℕ, IfOk, List, None, OnOk, Some, is_some, map, true};
ghost use Rattle.lx_input.specs.Laws.{IsReady};
ghost use Rattle.lx_model.specs.World.{opening};
ghost use Rattle.lx_model.specs.declared.program.Program.{Program};
ghost use Rattle.lx_model.specs.declared.program.ScriptCall.{ScriptCall};
ghost use Rattle.lx_runs.specs.Reports.{broken_at};
ghost use Rattle.lx_runs.specs.Whys.{TellsWhy};
ghost use Rattle.lx_why.specs.Certified.{AreCertified, certified};
ghost use Rattle.lx_why.specs.Opened.{IsFullOpening};
ghost use Rattle.lx_why.specs.Run.{StandsForWhy};
ghost use Rattle.lx_why.specs.Why.{behind, certified_text};

use crate::images::Guarding;
use crate::open::{Opened, open_input};
use lx_cap_tables::CapTables;
use lx_caps::CapStore;
use lx_certificates::Certs;
use lx_input::Input;
use lx_why::{Logged, WhyRun};
use lx_why_text::{Certified, why_text};
use lx_words::{Memory, Name};
use lx_world::{EventFault, World};
use std::alloc::Global;

/// What is certified of a run under a schedule.
#[derive(Drop)]
pub enum Why {
    /// The schedule is not whole: the first entry, counted from 0, that names a thread without work, or the number of entries where
    /// work remains.
    Broken(u64),
    /// The acts, and the certificates of each event.
    Text(Name),
}

/// Adds the certificates of an event.
fn push_certs(out: &mut Vec<Certified>, event: u64, thread: u32, certs: Certs) -> Result<(), Memory>
    ensures { OnOk result (out.new.items ≡ out.old.items ++ map (certified event thread) certs) }
{
    for cert in certs.into_vec() {
        out.push(Certified {
            event,
            thread,
            cert,
        })?;
    }
    Ok(())
}

/// Runs the threads in the order of a schedule, and gathers the certificates of each event. Where the schedule is not whole, the answer is
/// its first entry, counted from 0, that names a thread without work, or its length where work remains behind it.
fn certify<C: CapStore + Drop>(
    alloc: Global,
    run: &mut WhyRun<C>,
    schedule: &[u32],
    out: &mut Vec<Certified>,
) -> Result<Option<u64>, Memory>
    requires { out.old.items ≡ [] }
    ensures broken { IfOk result (λ broken. (p : Program) (script : List (List ScriptCall)) → StandsForWhy ⟦<Logged<C> as CapStore>⟧.stands p script [] run.old
        → broken ≡ broken_at p schedule.now (opening p script)) }
    ensures whole { IfOk result (λ broken. (p : Program) (script : List (List ScriptCall)) → StandsForWhy ⟦<Logged<C> as CapStore>⟧.stands p script [] run.old
        → broken ≡ None → StandsForWhy ⟦<Logged<C> as CapStore>⟧.stands p script schedule.now run.new × AreCertified p 0 schedule.now (opening p script) out.new.items) }
{
    for (entry, thread) in schedule.iter().enumerate() {
        match run.step(alloc, *thread) {
            Ok(certs) => push_certs(out, entry as u64, *thread, certs)?,
            Err(EventFault::NoWork { .. }) => return Ok(Some(entry as u64)),
            Err(EventFault::Memory) => return Err(Memory),
        }
    }
    if run.done() {
        Ok(None)
    } else {
        Ok(Some(schedule.len() as u64))
    }
}

/// The text of a run behind its last event, and of the certificates of its events.
fn text_of<C: CapStore + Drop>(
    alloc: Global,
    run: &WhyRun<C>,
    certs: &[Certified],
) -> Result<Name, Memory>
    requires { (p : Program) × (script : List (List ScriptCall)) × (s : List ℕ) × StandsForWhy ⟦<Logged<C> as CapStore>⟧.stands p script s run.now }
    ensures { IfOk result (λ text. (p : Program) (script : List (List ScriptCall)) (s : List ℕ) → StandsForWhy ⟦<Logged<C> as CapStore>⟧.stands p script s run.now
        → text ≡ certified_text p (behind p script s) certs.now) }
{
    let names = run.names(alloc)?;
    let acts = run.acts(alloc)?;
    let text = why_text(
        alloc,
        run.program(),
        names.as_slice(),
        acts.as_slice(),
        certs,
    );
    drop(acts);
    drop(names);
    match text {
        Ok(text) => Ok(Name::from_vec(text)),
        Err(why) => Err(why),
    }
}

/// Replays a run under a schedule, and tells its certificates where the schedule is whole.
fn why_of<C: CapStore + Drop>(
    alloc: Global,
    run: &mut WhyRun<C>,
    schedule: &[u32],
) -> Result<Why, Memory>
    requires { (p : Program) × (script : List (List ScriptCall)) × StandsForWhy ⟦<Logged<C> as CapStore>⟧.stands p script [] run.old }
    ensures { IfOk result (λ why. (p : Program) (script : List (List ScriptCall)) → StandsForWhy ⟦<Logged<C> as CapStore>⟧.stands p script [] run.old → TellsWhy p script (Some schedule.now) why) }
{
    let mut certs = Vec::new(alloc);
    match certify(alloc, run, schedule, &mut certs)? {
        Some(entry) => Ok(Why::Broken(entry)),
        None => {
            let text = text_of(alloc, run, certs.as_slice())?;
            Ok(Why::Text(text))
        }
    }
}

/// The same of the run of a world that is opened, which is given up behind it.
fn why_opened<C: CapStore + Drop>(
    alloc: Global,
    world: World<Logged<C>>,
    schedule: &[u32],
) -> Result<Why, Memory>
    requires { (p : Program) × (script : List (List ScriptCall)) × IsFullOpening ⟦<Logged<C> as CapStore>⟧.stands p script world }
    ensures { IfOk result (λ why. (p : Program) (script : List (List ScriptCall)) → IsFullOpening ⟦<Logged<C> as CapStore>⟧.stands p script world
        → TellsWhy p script (Some schedule.now) why) }
{
    let mut run = WhyRun::over(alloc, world)?;
    let why = why_of(alloc, &mut run, schedule);
    drop(run);
    why
}

/// Replays an input over a store of capabilities, and certifies it.
fn why_over<C: CapStore + Drop>(alloc: Global, input: Input, caps: C) -> Result<Why, Memory>
    requires ready { IsReady input }
    requires asked { is_some input.besides.schedule ≡ true }
    requires new { C.stands caps [] }
    ensures { IfOk result (TellsWhy input.program input.script input.besides.schedule) }
{
    let Opened {
        world,
        schedule,
        images,
    } = open_input(alloc, input, Guarding::Full, Logged::new(alloc, caps))?;
    drop(images);
    match schedule {
        Some(schedule) => {
            let why = why_opened(alloc, world, schedule.as_slice());
            drop(schedule);
            why
        }
        None => unreachable!(),
    }
}

/// Replays an input under the schedule that is asked for, and tells the acts of the run and the certificates of the needs of each event.
/// Images of its modules run in which each store has its guard, and what is told is of the monitor's run of the program as it is written.
///
/// # Errors
/// Want of memory; a module whose image no text can say, and more acts than a number of 32 bits counts are that too.
pub fn why_input(alloc: Global, input: Input) -> Result<Why, Memory>
    requires ready { IsReady input }
    requires asked { is_some input.besides.schedule ≡ true }
    ensures { IfOk result (TellsWhy input.program input.script input.besides.schedule) }
{
    match CapTables::new(alloc) {
        Ok(caps) => why_over(alloc, input, caps),
        Err(_) => {
            drop(input);
            Err(Memory)
        }
    }
}
