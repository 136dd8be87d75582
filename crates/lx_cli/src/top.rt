//! The whole program.
ghost use Rattle.std.specs.Prelude.{◌≡◌, ◌≢◌, ◌⊎◌, ◌++◌, ◌∷◌, ◌<◌, ◌≤◌, [], List, ℕ, Some, None, Ok, Err, IfOk, is_some, length, option_copied, take, true};
ghost use Rattle.lx_outside.specs.declared.file_text.FileText.{FileText};
ghost use Rattle.lx_outside.specs.Counts.{HasRisen};
ghost use Rattle.lx_outside.specs.Files.{file_at};
ghost use Rattle.lx_input.specs.Files.FaultLine.{FaultLine};
ghost use Rattle.lx_input.specs.Files.InputStop.TheVariants as stops;
ghost use Rattle.lx_input.specs.declared.input.Input.{Input};
ghost use Rattle.lx_input.specs.Files.Asked.{AreThere};
ghost use Rattle.lx_input.specs.Inputs.{InputTurn};
ghost use Rattle.lx_input.specs.Laws.{IsReady};
ghost use Rattle.lx_generated_laws.specs.Inputs.{generated_files};
ghost use Rattle.lx_cli.specs.Answer.{BrokenBy, EndedBy, RefusedBy, unread_line, usage_line};
ghost use Rattle.lx_cli.specs.Command.{CommandTurn, ComesTo, Generate, IsGenerated, IsRun, MayCome, UntoldTurn, asked_of, case_of, command_of, files_by, said, texts};
ghost use Rattle.lx_cli.specs.Rows.{Wrote, FellShort, Headline, NoNewFault, status_of};
ghost use Rattle.lx_cli.specs.Told.{TellsInput, TellsOf, TellsRunOf, TellsWhyOf};

use crate::answer::{Answer, answer_of_run, answer_of_why, answer_text, status_of};
use crate::command::{asked_of, case_of, count_asked};
use crate::generate::{generated_shelf, sum_up_input};
use crate::images::{check_input, instrument_input};
use crate::surface::surface_input;
use crate::{Command, command_of};
use lx_generated_laws::generated_input_laws;
use lx_input::{Input, InputStop, input_laws, read_input};
use lx_outside::{Gate, Shelf, Sink, put_all};
use lx_runs::{Host, run_input, why_input};
use lx_words::Memory;
use std::alloc::Global;
use std::sync::Wait;
use std::thread::Threads;

/// What is written where the words are no command.
const USAGE: &str =
    "usage: lxfi_run run CASE | replay CASE SCHEDULE | instrument CASE MODULE | check CASE MODULE IMAGE | generate N | why CASE SCHEDULE | surface CASE\n";

/// The status of a sink that did not take all.
const NOT_TAKEN: u8 = 5;

/// The status of want of memory.
pub const WANT_OF_MEMORY: u8 = 6;

/// Writes the whole text of a status, and gives that status, or 5 where the sink did not take all.
pub fn write_text<K: Sink>(sink: &mut K, text: &[u8], status: u8) -> u8
    requires { status ≢ 5 }
    ensures status { result ≢ 5 → result ≡ status }
    ensures all { result ≢ 5 → (told : List ℕ) → K.bytes sink.old ≡ Some told → K.bytes sink.new ≡ Some (told ++ text.now) }
    ensures prefix { result ≡ 5 → (told : List ℕ) → K.bytes sink.old ≡ Some told
        → (n : ℕ) × (n < length text.now) × (K.bytes sink.new ≡ Some (told ++ take n text.now)) }
    ensures failed { result ≡ 5 → HasRisen (K.faults sink.old) (K.faults sink.new) }
{
    match put_all(sink, text) {
        Ok(()) => status,
        Err(_) => NOT_TAKEN,
    }
}

/// The answer where the input ends before it is run.
fn stopped(stop: InputStop) -> Result<Answer, Memory>
    ensures { IfOk result (λ a. TellsInput None (λ came. came ≡ Err stop) a) }
{
    match stop {
        InputStop::Fault(fault) => Ok(Answer::Fault(fault)),
        InputStop::Unread(file) => Ok(Answer::Unread(file)),
        InputStop::Memory => Err(Memory),
    }
}

/// The answer to an input that is run.
fn answer_run<R: Threads + Wait + Sync, G: Gate + Sync>(
    host: &Host<'_, R, G>,
    input: Input,
) -> Result<Answer, Memory>
    requires { IsReady input }
    ensures { IfOk result (TellsRunOf input) }
{
    let told = run_input(host, input)?;
    Ok(answer_of_run(told))
}

/// The answer to an input that is replayed and certified.
fn answer_why(alloc: Global, input: Input) -> Result<Answer, Memory>
    requires ready { IsReady input }
    requires asked { is_some input.besides.schedule ≡ true }
    ensures { IfOk result (TellsWhyOf input) }
{
    let why = why_input(alloc, input)?;
    Ok(answer_of_why(why))
}

/// The answer to a command whose files were read.
fn answer_input<R: Threads + Wait + Sync, G: Gate + Sync>(
    host: &Host<'_, R, G>,
    command: Command<'_>,
    input: Input,
) -> Result<Answer, Memory>
    requires ready { IsReady input }
    requires there { AreThere (asked_of (said command)) input.besides }
    ensures { IfOk result (λ a. TellsOf (said command.entry) input a) }
{
    match command {
        Command::Run { .. } | Command::Replay { .. } => answer_run(host, input),
        Command::Instrument { .. } => {
            let answer = instrument_input(host.alloc, &input);
            drop(input);
            answer
        }
        Command::Check { .. } => {
            let answer = check_input(host.alloc, &input);
            drop(input);
            answer
        }
        Command::Generate { count } => sum_up_input(host, input, count),
        Command::Surface { .. } => {
            let answer = surface_input(host.alloc, &input);
            drop(input);
            answer
        }
        Command::Why { .. } => answer_why(host.alloc, input),
    }
}

/// The answer to a command: what the first fault of its files is, which file was not read, or what it makes of its input.
fn answer_to<R: Threads + Wait + Sync, S: Shelf, G: Gate + Sync>(
    host: &Host<'_, R, G>,
    shelf: &mut S,
    command: Command<'_>,
) -> Result<Answer, Memory>
    ensures answer { IfOk result (λ a. (files : List FileText) → S.files shelf.old ≡ Some files
        → TellsInput (Some (said command.entry)) (InputTurn files (case_of (said command.entry)) (asked_of (said command.entry))) a) }
    ensures untold { IfOk result (TellsInput (Some (said command.entry)) (MayCome (asked_of (said command.entry)) (S.faults shelf.old) (S.faults shelf.new))) }
    ensures unread { (file : List ℕ) → result ≡ Ok (Answer.Unread file) → S.faults shelf.new ≡ S.faults shelf.old ++ file ∷ [] }
{
    match read_input(host.alloc, shelf, case_of(command), asked_of(command)) {
        Ok(input) => answer_input(host, command, input),
        Err(stop) => stopped(stop),
    }
}

/// The answer to a command over a case that it generates. A shelf in memory gives all the files that it has: one that stays unread is
/// want of memory.
fn answer_generated<R: Threads + Wait + Sync, G: Gate + Sync>(
    host: &Host<'_, R, G>,
    command: Command<'_>,
    count: u32,
) -> Result<Answer, Memory>
    ensures answer { IfOk result (TellsInput (Some (said command.entry)) (InputTurn (generated_files count) (case_of (said command.entry)) (asked_of (said command.entry)))) }
    ensures read { (file : List ℕ) → result ≡ Ok (Answer.Unread file) → ⊥ }
{
    let mut shelf = generated_shelf(host.alloc, count)?;
    match answer_to(host, &mut shelf, command)? {
        Answer::Unread(file) => {
            drop(file);
            Err(Memory)
        }
        answer => Ok(answer),
    }
}

/// The answer to a command, over the files that it reads: those of the shelf, or its own.
fn answer_of<R: Threads + Wait + Sync, S: Shelf, G: Gate + Sync>(
    host: &Host<'_, R, G>,
    shelf: &mut S,
    command: Command<'_>,
) -> Result<Answer, Memory>
    ensures answer { IfOk result (λ a. (files : List FileText) → S.files shelf.old ≡ Some files
        → TellsInput (Some (said command.entry)) (CommandTurn files (Some (said command.entry))) a) }
    ensures untold { IfOk result (TellsInput (Some (said command.entry)) (UntoldTurn (Some (said command.entry)) (S.faults shelf.old) (S.faults shelf.new))) }
    ensures unread { (file : List ℕ) → result ≡ Ok (Answer.Unread file) → S.faults shelf.new ≡ S.faults shelf.old ++ file ∷ [] }
    ensures generated { (count : ℕ) → said command.entry ≡ Generate count → shelf.new ≡ shelf.old }
    // The files of a case of no more calls than a case may have are an input, which has a summary.
    ensures summed { IfOk result (λ a. (count : ℕ) → said command.entry ≡ Generate count → count ≤ 4096 → status_of a ≡ 0) }
{
    input_laws();
    generated_input_laws();
    match count_asked(command) {
        Some(count) => answer_generated(host, command, count),
        None => answer_to(host, shelf, command),
    }
}

/// All that the program does: its words, its shelf of files and its sink. Its answer is the exit status.
pub fn lxfi<R: Threads + Wait + Sync, S: Shelf, K: Sink, G: Gate + Sync>(
    rt: &R,
    alloc: Global,
    words: &[String],
    shelf: &mut S,
    sink: &mut K,
    gate: &G,
) -> u8
    // With status 0 or 1 the sink gained what the command makes of its input. Of a case that is run or replayed this is the
    // report of the monitor's run of the program as it is written, under the schedule that the report prints. What each act
    // of that run needed was held, what was not held was refused, and every event that was not refused is the step of the
    // program without the monitor.
    ensures headline { (result ≡ 0) ⊎ (result ≡ 1) → (files : List FileText) (told : List ℕ)
        → S.files shelf.old ≡ Some files → K.bytes sink.old ≡ Some told → Headline (texts words.now) files told (K.bytes sink.new) result }

    // Every status but 5 and 6 comes with its whole text, 5 with a proper prefix of one, and 6 with nothing.
    ensures wrote { result ≢ 5 → result ≢ 6 → (files : List FileText) (told : List ℕ) → S.files shelf.old ≡ Some files → K.bytes sink.old ≡ Some told
        → Wrote (texts words.now) (ComesTo (texts words.now) files) (S.faults shelf.old) (S.faults shelf.new) told (K.bytes sink.new) result }
    ensures short { result ≡ 5 → (files : List FileText) (told : List ℕ) → S.files shelf.old ≡ Some files → K.bytes sink.old ≡ Some told
        → FellShort (texts words.now) (ComesTo (texts words.now) files) (S.faults shelf.old) (S.faults shelf.new) told (K.bytes sink.new) }
    // So it is where the shelf does not tell its files, for what they may have come to.
    ensures wrote_untold { result ≢ 5 → result ≢ 6 → (told : List ℕ) → K.bytes sink.old ≡ Some told
        → Wrote (texts words.now) (UntoldTurn (command_of (texts words.now)) (S.faults shelf.old) (S.faults shelf.new)) (S.faults shelf.old) (S.faults shelf.new) told (K.bytes sink.new) result }
    ensures short_untold { result ≡ 5 → (told : List ℕ) → K.bytes sink.old ≡ Some told
        → FellShort (texts words.now) (UntoldTurn (command_of (texts words.now)) (S.faults shelf.old) (S.faults shelf.new)) (S.faults shelf.old) (S.faults shelf.new) told (K.bytes sink.new) }
    ensures nothing { result ≡ 6 → K.bytes sink.new ≡ K.bytes sink.old }

    // When each status comes, and there are no others. No command takes no memory, whatever the shelf has.
    ensures statuses { result ≤ 8 }
    ensures usage { command_of (texts words.now) ≡ None → (result ≡ 2) ⊎ (result ≡ 5) }
    ensures usage_only { result ≡ 2 → (command_of (texts words.now) ≡ None)
        × ((told : List ℕ) → K.bytes sink.old ≡ Some told → K.bytes sink.new ≡ Some (told ++ usage_line)) }
    ensures fault { (files : List FileText) (f : FaultLine) → S.files shelf.old ≡ Some files → ComesTo (texts words.now) files (Err (stops.Fault f))
        → (result ≡ 3) ⊎ (result ≡ 4) ⊎ (result ≡ 5) ⊎ (result ≡ 6) }
    ensures fault_only { result ≡ 3 → (files : List FileText) → S.files shelf.old ≡ Some files
        → (f : FaultLine) × ComesTo (texts words.now) files (Err (stops.Fault f)) }
    ensures missing { (files : List FileText) (file : List ℕ) → S.files shelf.old ≡ Some files → ComesTo (texts words.now) files (Err (stops.Unread file))
        → file_at (files_by files (command_of (texts words.now))) file ≡ None → (result ≡ 4) ⊎ (result ≡ 5) ⊎ (result ≡ 6) }
    ensures unread_only { result ≡ 4 → (file : List ℕ) × (S.faults shelf.new ≡ S.faults shelf.old ++ file ∷ [])
        × ((files : List FileText) → S.files shelf.old ≡ Some files → ComesTo (texts words.now) files (Err (stops.Unread file)))
        × ((told : List ℕ) → K.bytes sink.old ≡ Some told → K.bytes sink.new ≡ Some (told ++ unread_line file)) }
    // The shelf is not read for a case that is generated.
    ensures generated { IsGenerated (texts words.now) → shelf.new ≡ shelf.old }
    // No fault stands in such a case, and it links: its summary is written, unless a write fails or memory is wanting.
    ensures summed { IsGenerated (texts words.now) → (result ≡ 0) ⊎ (result ≡ 5) ⊎ (result ≡ 6) }
    ensures not_taken_only { result ≡ 5 → HasRisen (K.faults sink.old) (K.faults sink.new) }

    // A schedule that is replayed and is not whole; a run makes its own, which is.
    ensures broken { (files : List FileText) (i : Input) (entry : ℕ) → S.files shelf.old ≡ Some files → ComesTo (texts words.now) files (Ok i)
        → BrokenBy (command_of (texts words.now)) i entry → (result ≡ 7) ⊎ (result ≡ 4) ⊎ (result ≡ 5) ⊎ (result ≡ 6) }
    ensures broken_only { result ≡ 7 → (files : List FileText) → S.files shelf.old ≡ Some files
        → (i : Input) × (entry : ℕ) × ComesTo (texts words.now) files (Ok i) × BrokenBy (command_of (texts words.now)) i entry }
    ensures run_whole { IsRun (texts words.now) → (files : List FileText) → S.files shelf.old ≡ Some files → result ≢ 7 }

    // An image that no program has.
    ensures refused { (files : List FileText) (i : Input) (line : FaultLine) → S.files shelf.old ≡ Some files → ComesTo (texts words.now) files (Ok i)
        → RefusedBy (command_of (texts words.now)) i line → (result ≡ 8) ⊎ (result ≡ 4) ⊎ (result ≡ 5) ⊎ (result ≡ 6) }
    ensures refused_only { result ≡ 8 → (files : List FileText) → S.files shelf.old ≡ Some files
        → (i : Input) × (line : FaultLine) × ComesTo (texts words.now) files (Ok i) × RefusedBy (command_of (texts words.now)) i line }

    // A command and its input without a fault or a missing file, no new fault of the shelf at a file of the input, and
    // no new fault of the sink: what the command makes of it, or want of memory.
    ensures complete { (files : List FileText) (i : Input) → S.files shelf.old ≡ Some files → ComesTo (texts words.now) files (Ok i)
        → NoNewFault (S.faults shelf.old) (S.faults shelf.new) (texts words.now) files
        → (HasRisen (K.faults sink.old) (K.faults sink.new) → ⊥)
        → EndedBy (command_of (texts words.now)) i result ⊎ (result ≡ 6) }
{
    input_laws();
    let Some(command) = command_of(alloc, words) else {
        return write_text(sink, USAGE.as_bytes(), 2);
    };
    let host = Host { rt, alloc, gate };
    let Ok(answer) = answer_of(&host, shelf, command) else {
        return WANT_OF_MEMORY;
    };
    let status = status_of(&answer);
    let Ok(text) = answer_text(alloc, answer) else {
        return WANT_OF_MEMORY;
    };
    write_text(sink, text.as_slice(), status)
}
