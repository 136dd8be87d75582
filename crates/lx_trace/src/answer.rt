//! What the program answers, before it is written.
ghost use Rattle.std.specs.Prelude.{◌≡◌, ◌++◌, ◌∷◌, [], IfOk, List, Ok, Some, is_some, true, ℕ};
ghost use Rattle.lx_outside.specs.declared.file_text.FileText.{FileText};
ghost use Rattle.lx_input.specs.Laws.{IsReady};
ghost use Rattle.lx_cli.specs.Command.{CommandTurn, Replay, Run, UntoldTurn};
ghost use Rattle.lx_cli.specs.Told.{answer_of};
ghost use Rattle.lx_trace.specs.Traced.{IsGiven, IsReplayed, TellsTraced, TellsUnder, answer_of_stop, traced_by};

use crate::words::Named;
use crate::{trace_input, trace_under};
use lx_cli::Answer;
use lx_input::{Asked, Input, InputStop, input_laws, read_input};
use lx_outside::{Gate, Shelf};
use lx_runs::{Host, Told, account_input};
use lx_words::Memory;
use std::alloc::Global;
use std::sync::Wait;
use std::thread::Threads;

/// Nothing besides a case.
const NOTHING: Asked<'static> = Asked {
    module: None,
    schedule: None,
    image: None,
};

/// The answer of a run that is traced.
fn answer_of(told: Told) -> Answer
    ensures { result ≡ answer_of told }
{
    match told {
        Told::Broken(entry) => Answer::Broken(entry),
        Told::Report(text, returned) => Answer::Report(text, returned),
    }
}

/// The answer to an input that is traced under the schedule that is asked for.
fn answer_input(alloc: Global, input: Input) -> Result<Answer, Memory>
    requires ready { IsReady input }
    requires asked { is_some input.besides.schedule ≡ true }
    ensures { IfOk result (TellsUnder input.besides.schedule input) }
{
    let told = trace_input(alloc, input)?;
    Ok(answer_of(told))
}

/// The answer to an input that is traced under a schedule that is given.
fn answer_given(alloc: Global, input: Input, schedule: &[u32]) -> Result<Answer, Memory>
    requires { IsReady input }
    ensures { IfOk result (TellsUnder (Some schedule.now) input) }
{
    let told = trace_under(alloc, input, schedule)?;
    Ok(answer_of(told))
}

/// The answer where the input ends before it is run.
fn stopped(stop: InputStop) -> Result<Answer, Memory>
    ensures { IfOk result (λ a. answer_of_stop stop ≡ Some a) }
{
    match stop {
        InputStop::Fault(fault) => Ok(Answer::Fault(fault)),
        InputStop::Unread(file) => Ok(Answer::Unread(file)),
        InputStop::Memory => Err(Memory),
    }
}

/// The answer to a case and a schedule, by the names of their files.
fn answer_replay<S: Shelf>(
    alloc: Global,
    shelf: &mut S,
    case: &str,
    schedule: &str,
) -> Result<Answer, Memory>
    ensures answer { IfOk result (λ a. (files : List FileText) → S.files shelf.old ≡ Some files → TellsTraced (CommandTurn files (Some (Replay case.now schedule.now))) a) }
    ensures replayed { IfOk result (λ a. (files : List FileText) → S.files shelf.old ≡ Some files
        → IsReplayed (Replay case.now schedule.now) (CommandTurn files (Some (Replay case.now schedule.now))) a) }
    ensures untold { IfOk result (TellsTraced (UntoldTurn (Some (Replay case.now schedule.now)) (S.faults shelf.old) (S.faults shelf.new))) }
    ensures unread { (file : List ℕ) → result ≡ Ok (Answer.Unread file) → S.faults shelf.new ≡ S.faults shelf.old ++ file ∷ [] }
{
    let asked = Asked {
        module: None,
        schedule: Some(schedule),
        image: None,
    };
    match read_input(alloc, shelf, case, asked) {
        Ok(input) => answer_input(alloc, input),
        Err(stop) => stopped(stop),
    }
}

/// The answer to a case under a schedule that is given.
fn answer_under<S: Shelf>(
    alloc: Global,
    shelf: &mut S,
    case: &str,
    schedule: &[u32],
) -> Result<Answer, Memory>
    ensures answer { IfOk result (λ a. (files : List FileText) → S.files shelf.old ≡ Some files → TellsTraced (CommandTurn files (Some (Run case.now))) a) }
    ensures given { IfOk result (λ a. (files : List FileText) → S.files shelf.old ≡ Some files → IsGiven schedule.now (CommandTurn files (Some (Run case.now))) a) }
    ensures untold { IfOk result (TellsTraced (UntoldTurn (Some (Run case.now)) (S.faults shelf.old) (S.faults shelf.new))) }
    ensures unread { (file : List ℕ) → result ≡ Ok (Answer.Unread file) → S.faults shelf.new ≡ S.faults shelf.old ++ file ∷ [] }
{
    match read_input(alloc, shelf, case, NOTHING) {
        Ok(input) => answer_given(alloc, input, schedule),
        Err(stop) => stopped(stop),
    }
}

/// The answer to a case whose threads run beside each other: it is read once more, and traced under the schedule that arose. Where the shelf tells
/// its files both readings give one input, for which that schedule is whole.
fn answer_run<R: Threads + Wait + Sync, S: Shelf, G: Gate + Sync>(
    host: &Host<'_, R, G>,
    shelf: &mut S,
    case: &str,
) -> Result<Answer, Memory>
    ensures answer { IfOk result (λ a. (files : List FileText) → S.files shelf.old ≡ Some files → TellsTraced (CommandTurn files (Some (Run case.now))) a) }
    ensures replayed { IfOk result (λ a. (files : List FileText) → S.files shelf.old ≡ Some files
        → IsReplayed (Run case.now) (CommandTurn files (Some (Run case.now))) a) }
    ensures untold { IfOk result (TellsTraced (UntoldTurn (Some (Run case.now)) (S.faults shelf.old) (S.faults shelf.new))) }
    ensures unread { (file : List ℕ) → result ≡ Ok (Answer.Unread file) → S.faults shelf.new ≡ S.faults shelf.old ++ file ∷ [] }
{
    input_laws();
    match read_input(host.alloc, shelf, case, NOTHING) {
        Ok(input) => {
            let account = account_input(host, input)?;
            let answer = answer_under(host.alloc, shelf, case, account.schedule.as_slice());
            drop(account);
            answer
        }
        Err(stop) => stopped(stop),
    }
}

/// The answer to what is to be traced: what the first fault of its files is, which file was not read, where the schedule is not whole, or the
/// trace.
///
/// # Errors
/// Want of memory.
pub(crate) fn answer_to<R: Threads + Wait + Sync, S: Shelf, G: Gate + Sync>(
    host: &Host<'_, R, G>,
    shelf: &mut S,
    named: Named<'_>,
) -> Result<Answer, Memory>
    ensures answer { IfOk result (λ a. (files : List FileText) → S.files shelf.old ≡ Some files → TellsTraced (CommandTurn files (Some (traced_by named.entry))) a) }
    ensures replayed { IfOk result (λ a. (files : List FileText) → S.files shelf.old ≡ Some files
        → IsReplayed (traced_by named.entry) (CommandTurn files (Some (traced_by named.entry))) a) }
    ensures untold { IfOk result (TellsTraced (UntoldTurn (Some (traced_by named.entry)) (S.faults shelf.old) (S.faults shelf.new))) }
    ensures unread { (file : List ℕ) → result ≡ Ok (Answer.Unread file) → S.faults shelf.new ≡ S.faults shelf.old ++ file ∷ [] }
{
    match named.schedule {
        Some(schedule) => answer_replay(host.alloc, shelf, named.case, schedule),
        None => answer_run(host, shelf, named.case),
    }
}
