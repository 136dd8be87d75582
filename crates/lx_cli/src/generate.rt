//! Cases that are generated, and the summary of their run.
ghost use Rattle.std.specs.Prelude.{◌≡◌, ◌+◌, ◌++◌, List, ℕ, IfOk, IfSome, OnOk};
ghost use Rattle.lx_cli.specs.Answer.{IsSummary, count_refused, count_returned, counted, number_returned, one_refused, one_returned, sum_returned, summary_counts, summary_end, summary_head, summary_text};
ghost use Rattle.lx_generated_laws.specs.Inputs.{generated_files};
ghost use Rattle.lx_input.specs.Laws.{IsReady};

use crate::answer::Answer;
use crate::command::GENERATED_CASE;
use lx_generate::{Generated, generate};
use lx_input::Input;
use lx_model::account::{Account, CallOutcome};
use lx_model::request::Outcome;
use lx_outside::{Bytes, CallNumbers, FileText, Files, Gate, MemShelf, Name as FileName, Names};
use lx_runs::{Host, account_input};
use lx_words::{Memory, Name, put_decimal};
use std::alloc::Global;
use std::sync::Wait;
use std::thread::Threads;

/// A file of this name.
fn file_of(alloc: Global, name: &str, bytes: Vec<u8>) -> Result<FileText, Memory>
    ensures named { IfOk result (λ f. f.name ≡ name.now) }
    ensures holds { IfOk result (λ f. f.bytes ≡ bytes.items) }
{
    match FileName::new(alloc, name) {
        Ok(name) => Ok(FileText {
            name,
            bytes: Bytes::from_vec(bytes),
        }),
        Err(_) => {
            drop(bytes);
            Err(Memory)
        }
    }
}

/// The files of the case of so many calls.
fn generated_files(alloc: Global, count: u32) -> Result<Files, Memory>
    ensures { IfOk result (λ files. files ≡ generated_files count) }
{
    let Generated { case, module } = generate(alloc, count)?;
    let case = file_of(alloc, GENERATED_CASE, case)?;
    let module = file_of(alloc, "gen.ll", module)?;
    let mut files = Files::new(alloc);
    let Ok(()) = files.push(case) else {
        return Err(Memory);
    };
    let Ok(()) = files.push(module) else {
        return Err(Memory);
    };
    Ok(files)
}

/// A shelf in memory with the files of the case of so many calls, and nothing else.
pub(crate) fn generated_shelf(alloc: Global, count: u32) -> Result<MemShelf, Memory>
    ensures { IfOk result (λ shelf. shelf.files ≡ generated_files count) }
{
    let files = generated_files(alloc, count)?;
    Ok(MemShelf {
        files,
        fails: CallNumbers::new(alloc),
        calls: 0,
        faults: Names::new(alloc),
    })
}

/// 1 for a call that returned, and else 0.
fn one_returned(outcome: Outcome) -> u64
    ensures { result ≡ one_returned outcome }
{
    match outcome {
        Outcome::Returned(_) => 1,
        _ => 0,
    }
}

/// 1 for a call that was refused, and else 0.
fn one_refused(outcome: Outcome) -> u64
    ensures { result ≡ one_refused outcome }
{
    match outcome {
        Outcome::Refused(_) => 1,
        _ => 0,
    }
}

/// The number that a call returned, and else 0.
fn number_returned(outcome: Outcome) -> u64
    ensures { result ≡ number_returned outcome }
{
    match outcome {
        Outcome::Returned(Some(word)) => word.bits,
        _ => 0,
    }
}

/// What a summary counts of calls.
#[derive(Clone, Copy)]
struct Counts {
    returned: u64,
    refused: u64,
    sum: u64,
}

/// The same with one call more, if numbers can tell it.
fn with_call(counts: Counts, outcome: Outcome) -> Option<Counts>
    ensures returned { IfSome result (λ c. c.returned ≡ counts.returned + one_returned outcome) }
    ensures refused { IfSome result (λ c. c.refused ≡ counts.refused + one_refused outcome) }
    ensures sum { IfSome result (λ c. c.sum ≡ counts.sum + number_returned outcome) }
{
    Some(Counts {
        returned: counts.returned.checked_add(one_returned(outcome))?,
        refused: counts.refused.checked_add(one_refused(outcome))?,
        sum: counts.sum.checked_add(number_returned(outcome))?,
    })
}

/// How many of the calls returned and were refused, and the sum of what they returned, if numbers can tell it.
fn counts_of(calls: &[CallOutcome]) -> Option<Counts>
    ensures returned { IfSome result (λ c. c.returned ≡ count_returned calls.now) }
    ensures refused { IfSome result (λ c. c.refused ≡ count_refused calls.now) }
    ensures sum { IfSome result (λ c. c.sum ≡ sum_returned calls.now) }
{
    let mut counts = Counts {
        returned: 0,
        refused: 0,
        sum: 0,
    };
    for call in calls {
        counts = with_call(counts, call.outcome)?;
    }
    Some(counts)
}

/// Adds words and a number behind them.
#[tactic(auto, unfolding(crate::specs::Answer::counted))]
fn put_counted(text: &mut Vec<u8>, label: &str, number: u64) -> Result<(), Memory>
    ensures { OnOk result (text.new.items ≡ text.old.items ++ counted label.now number) }
{
    text.extend_from_slice(label.as_bytes())?;
    put_decimal(text, i128::from(number))
}

#[tactic(auto, unfolding(crate::specs::Answer::summary_head))]
fn put_head(text: &mut Vec<u8>, count: u32) -> Result<(), Memory>
    ensures { OnOk result (text.new.items ≡ text.old.items ++ summary_head count) }
{
    put_counted(text, "generate ", u64::from(count))?;
    put_counted(text, " threads 4 calls ", u64::from(count))?;
    Ok(())
}

/// Adds what is counted of the calls. More than a number of 64 bits counts is want of memory.
#[tactic(auto, unfolding(crate::specs::Answer::summary_counts))]
fn put_counts(text: &mut Vec<u8>, calls: &[CallOutcome]) -> Result<(), Memory>
    ensures { OnOk result (text.new.items ≡ text.old.items ++ summary_counts calls.now) }
{
    let Some(counts) = counts_of(calls) else {
        return Err(Memory);
    };
    put_counted(text, " returned ", counts.returned)?;
    put_counted(text, " refused ", counts.refused)?;
    put_counted(text, " sum ", counts.sum)?;
    Ok(())
}

#[tactic(auto, unfolding(crate::specs::Answer::summary_end))]
fn put_end(text: &mut Vec<u8>, events: u64) -> Result<(), Memory>
    ensures { OnOk result (text.new.items ≡ text.old.items ++ summary_end events) }
{
    put_counted(text, " events ", events)?;
    text.extend_from_slice(b"\n")?;
    Ok(())
}

/// The summary of an account of so many calls.
fn summary_text(alloc: Global, count: u32, account: &Account) -> Result<Name, Memory>
    ensures { IfOk result (λ text. text ≡ summary_text count account.now) }
{
    let mut text = Vec::new(alloc);
    put_head(&mut text, count)?;
    put_counts(&mut text, account.outcomes.as_slice())?;
    put_end(&mut text, account.schedule.len() as u64)?;
    Ok(Name::from_vec(text))
}

/// The summary of an input of so many calls.
pub(crate) fn sum_up_input<R: Threads + Wait + Sync, G: Gate + Sync>(
    host: &Host<'_, R, G>,
    input: Input,
    count: u32,
) -> Result<Answer, Memory>
    requires { IsReady input }
    ensures { IfOk result (λ a. (text : List ℕ) × (a ≡ Answer.Text text) × IsSummary count input.program input.script text) }
{
    let account = account_input(host, input)?;
    let text = summary_text(host.alloc, count, &account)?;
    Ok(Answer::Text(text))
}
