//! The whole program.
ghost use Rattle.std.specs.Prelude.{◌≡◌, ◌≢◌, ◌⊎◌, ◌++◌, ◌∷◌, ◌≤◌, [], List, ℕ, Ok, Err, Some, None};
ghost use Rattle.lx_outside.specs.declared.file_text.FileText.{FileText};
ghost use Rattle.lx_outside.specs.Counts.{HasRisen};
ghost use Rattle.lx_outside.specs.Files.{file_at};
ghost use Rattle.lx_input.specs.Files.FaultLine.{FaultLine};
ghost use Rattle.lx_input.specs.Files.InputStop.TheVariants as stops;
ghost use Rattle.lx_input.specs.declared.input.Input.{Input};
ghost use Rattle.lx_cli.specs.Answer.{EndedBy, IsBroken, unread_line};
ghost use Rattle.lx_cli.specs.Command.{CommandTurn, Run, UntoldTurn, texts};
ghost use Rattle.lx_trace.specs.Traced.{HasWritten, HasWrittenPart, NoNewFault, asked_trace, usage_line};

use crate::answer::answer_to;
use crate::words::named_by;
use lx_cli::{WANT_OF_MEMORY, answer_text, status_of, write_text};
use lx_input::input_laws;
use lx_outside::{Gate, Shelf, Sink};
use lx_runs::Host;
use std::alloc::Global;
use std::sync::Wait;
use std::thread::Threads;

/// What is written where the words are no case, nor a case and a schedule.
const USAGE: &str = "usage: lxfi_trace CASE [SCHEDULE]\n";

/// All that the tracing program does: its words, its shelf of files and its sink. The threads of a case run beside each other, and what is traced is
/// the schedule that arose; or a schedule is named. Its answer is the exit status: 0 behind a whole trace where every call returned and 1 where
/// one did not; 2 for other words; 3 for a fault of the files and 4 for a file that was not read; 5 where the sink did not take all; 6 for want of
/// memory; and 7 where the schedule is not whole. A case is read twice where no schedule is named: 7 comes then of a shelf alone that does not
/// tell its files, whose files differ at the second reading.
pub fn lxfi_trace<R: Threads + Wait + Sync, S: Shelf, K: Sink, G: Gate + Sync>(
    rt: &R,
    alloc: Global,
    words: &[String],
    shelf: &mut S,
    sink: &mut K,
    gate: &G,
) -> u8
    // Every status but 5 and 6 comes with its whole text, 5 with a proper prefix of one, and 6 with nothing. With status 0 or 1 this is the
    // trace of the monitor's run of the program as it is written, under a whole schedule: the one that is named, where one is.
    ensures wrote { result ≢ 5 → result ≢ 6 → (files : List FileText) (told : List ℕ) → S.files shelf.old ≡ Some files → K.bytes sink.old ≡ Some told
        → HasWritten (asked_trace (texts words.now)) (CommandTurn files (asked_trace (texts words.now))) told (K.bytes sink.new) result }
    ensures short { result ≡ 5 → (files : List FileText) (told : List ℕ) → S.files shelf.old ≡ Some files → K.bytes sink.old ≡ Some told
        → HasWrittenPart (asked_trace (texts words.now)) (CommandTurn files (asked_trace (texts words.now))) told (K.bytes sink.new) }
    // So it is where the shelf does not tell its files, for what they may have come to.
    ensures wrote_untold { result ≢ 5 → result ≢ 6 → (told : List ℕ) → K.bytes sink.old ≡ Some told
        → HasWritten (asked_trace (texts words.now)) (UntoldTurn (asked_trace (texts words.now)) (S.faults shelf.old) (S.faults shelf.new)) told (K.bytes sink.new) result }
    ensures short_untold { result ≡ 5 → (told : List ℕ) → K.bytes sink.old ≡ Some told
        → HasWrittenPart (asked_trace (texts words.now)) (UntoldTurn (asked_trace (texts words.now)) (S.faults shelf.old) (S.faults shelf.new)) told (K.bytes sink.new) }
    ensures nothing { result ≡ 6 → K.bytes sink.new ≡ K.bytes sink.old }

    // When each status comes, and there are no others.
    ensures statuses { result ≤ 7 }
    ensures usage { asked_trace (texts words.now) ≡ None → (result ≡ 2) ⊎ (result ≡ 5) }
    ensures usage_only { result ≡ 2 → (asked_trace (texts words.now) ≡ None)
        × ((told : List ℕ) → K.bytes sink.old ≡ Some told → K.bytes sink.new ≡ Some (told ++ usage_line)) }
    ensures fault { (files : List FileText) (f : FaultLine) → S.files shelf.old ≡ Some files → CommandTurn files (asked_trace (texts words.now)) (Err (stops.Fault f))
        → (result ≡ 3) ⊎ (result ≡ 4) ⊎ (result ≡ 5) ⊎ (result ≡ 6) }
    ensures fault_only { result ≡ 3 → (files : List FileText) → S.files shelf.old ≡ Some files
        → (f : FaultLine) × CommandTurn files (asked_trace (texts words.now)) (Err (stops.Fault f)) }
    ensures missing { (files : List FileText) (file : List ℕ) → S.files shelf.old ≡ Some files → CommandTurn files (asked_trace (texts words.now)) (Err (stops.Unread file))
        → file_at files file ≡ None → (result ≡ 4) ⊎ (result ≡ 5) ⊎ (result ≡ 6) }
    ensures unread_only { result ≡ 4 → (file : List ℕ) × (S.faults shelf.new ≡ S.faults shelf.old ++ file ∷ [])
        × ((files : List FileText) → S.files shelf.old ≡ Some files → CommandTurn files (asked_trace (texts words.now)) (Err (stops.Unread file)))
        × ((told : List ℕ) → K.bytes sink.old ≡ Some told → K.bytes sink.new ≡ Some (told ++ unread_line file)) }
    ensures not_taken_only { result ≡ 5 → HasRisen (K.faults sink.old) (K.faults sink.new) }
    ensures broken { (files : List FileText) (i : Input) (entry : ℕ) → S.files shelf.old ≡ Some files → CommandTurn files (asked_trace (texts words.now)) (Ok i)
        → IsBroken i entry → (result ≡ 7) ⊎ (result ≡ 4) ⊎ (result ≡ 5) ⊎ (result ≡ 6) }
    ensures broken_only { result ≡ 7 → (files : List FileText) → S.files shelf.old ≡ Some files
        → (i : Input) × (entry : ℕ) × CommandTurn files (asked_trace (texts words.now)) (Ok i) × IsBroken i entry }
    // The schedule of a run is whole.
    ensures run_whole { (case : List ℕ) → asked_trace (texts words.now) ≡ Some (Run case) → (files : List FileText) → S.files shelf.old ≡ Some files → result ≢ 7 }

    // Files without a fault or a missing one, no new fault of the shelf at one of them, and no new fault of the sink: the trace, or where the
    // schedule is not whole, or want of memory.
    ensures complete { (files : List FileText) (i : Input) → S.files shelf.old ≡ Some files → CommandTurn files (asked_trace (texts words.now)) (Ok i)
        → NoNewFault (S.faults shelf.old) (S.faults shelf.new) (CommandTurn files (asked_trace (texts words.now)))
        → (HasRisen (K.faults sink.old) (K.faults sink.new) → ⊥)
        → EndedBy (asked_trace (texts words.now)) i result ⊎ (result ≡ 6) }
{
    input_laws();
    let Some(named) = named_by(words) else {
        return write_text(sink, USAGE.as_bytes(), 2);
    };
    let host = Host { rt, alloc, gate };
    let Ok(answer) = answer_to(&host, shelf, named) else {
        return WANT_OF_MEMORY;
    };
    let status = status_of(&answer);
    let Ok(text) = answer_text(alloc, answer) else {
        return WANT_OF_MEMORY;
    };
    write_text(sink, text.as_slice(), status)
}
