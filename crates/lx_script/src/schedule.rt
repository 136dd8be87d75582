//! Schedule files.

ghost use Rattle.std.specs.Prelude.{◌≡◌, ℕ, ◌+◌, ◌<◌, ◌≤◌, ◌^◌, List, ◌++◌, length, IfOk, IfErr, OnOk, replicate};
ghost use Rattle.lx_script.specs.declared.fault.CaseFault.{CaseFault as Fault};
ghost use Rattle.lx_script.specs.Schedule.{Adds, Fails, FirstScheduleFault, Reads, Refuses, ScheduleFails};

use crate::fault::{CaseFault, FaultKind, ReadError, met, met_byte};
use crate::run::{Run, run_of};
use crate::words::Words;
use lx_words::{Memory, Schedule};
use std::alloc::Global;

const MOST_ENTRIES: usize = 1_052_672;

const SCHEDULE: &[u8] = b"schedule";

/// Adds a thread some number of times.
fn add_run(entries: &mut Schedule, run: Run) -> Result<(), Memory>
    ensures { OnOk result (entries.new ≡ entries.old ++ replicate run.count run.thread) }
{
    for _ in 0..run.count {
        entries.push(run.thread)?;
    }
    Ok(())
}

/// Adds what a word says.
fn add_word(
    alloc: Global,
    entries: &mut Schedule,
    first: bool,
    word: &[u8],
    line: u32,
) -> Result<(), ReadError>
    requires { length entries.old ≤ MOST_ENTRIES }
    ensures ok { OnOk result (Adds first word.now entries.old entries.new) }
    ensures fault { IfErr result (λ e. Refuses first word.now line (length entries.old) e) }
{
    if first && word == SCHEDULE {
        return Ok(());
    }
    match run_of(word) {
        Err(wrong) => Err(met(alloc, wrong.kind, line, wrong.what)),
        Ok(run) => {
            if run.count as usize > MOST_ENTRIES - entries.len() {
                return Err(met(alloc, FaultKind::Limit, line, b"entries"));
            }
            add_run(entries, run)?;
            Ok(())
        }
    }
}

/// The entries that a text says, or the first fault that is met.
fn entries_in(alloc: Global, text: &[u8]) -> Result<Schedule, ReadError>
    requires { length text.now + 1 < 2 ^ 32 }
    ensures ok { IfOk result (λ entries. Reads text.now entries) }
    ensures fault { IfErr result (λ e. Fails text.now e) }
{
    let mut words = Words {
        rest: text,
        line: 1,
    };
    let mut entries = Schedule::new(alloc);
    let mut first = true;
    while let Some(word) = words.next_word() {
        add_word(alloc, &mut entries, first, word, words.line)?;
        first = false;
    }
    if words.rest.is_empty() {
        return Ok(entries);
    }
    Err(met_byte(alloc, words.line, words.rest[0]))
}

/// The entries of a schedule file: an optional word `schedule`, and words `T*N`, which stand for the thread `T` `N` times.
///
/// # Errors
/// The first fault: `Lexical`, `Statement`, `Range` where `N` is 0 or a number is above 2^32 - 1, or `Limit` where
/// there are more than 1,052,672 entries. `Memory` where there is not enough memory for the entries.
pub fn read_schedule(alloc: Global, bytes: &[u8]) -> Result<Schedule, CaseFault>
    requires { length bytes.now + 1 < 2 ^ 32 }
    ensures ok { IfOk result (λ entries. Reads bytes.now entries) }
    ensures fault { IfErr result (λ e. ScheduleFails bytes.now e) }
{
    let entries = entries_in(alloc, bytes)?;
    Ok(entries)
}

/// A text says one schedule at most, has one first fault at most, and not both.
pub fn one_schedule()
    ensures value { (text a b : List ℕ) → Reads text a → Reads text b → a ≡ b }
    ensures fault { (text : List ℕ) (e f : Fault) → FirstScheduleFault text e → FirstScheduleFault text f → e ≡ f }
    ensures apart { (text a : List ℕ) (f : Fault) → Reads text a → FirstScheduleFault text f → ⊥ }
{}
