//! What the program answers to a command, before it is written.
ghost use Rattle.std.specs.Prelude.{◌≡◌, ◌++◌, IfOk};
ghost use Rattle.lx_cli.specs.Answer.{accepted_line, broken_line, unread_line};
ghost use Rattle.lx_cli.specs.Rows.{answer_text, status_of};
ghost use Rattle.lx_cli.specs.Told.{answer_of, answer_of_why};

use lx_input::{FaultLine, fault_text};
use lx_runs::{Told, Why};
use lx_words::{Memory, Name, put_decimal};
use std::alloc::Global;

/// An answer to a command.
#[derive(Drop)]
pub enum Answer {
    /// The first fault of the input.
    Fault(FaultLine),
    /// The file was not read.
    Unread(Name),
    /// The schedule that is replayed is not whole: the first entry, counted from 0, that names a thread without work, or
    /// the number of entries where work remains.
    Broken(u64),
    /// The report, and whether every call returned.
    Report(Name, bool),
    /// The text of the module's image, the summary of a case that was generated, what each module can come to hold, or the certificates of
    /// a run.
    Text(Name),
    /// Some program has the image.
    Accepted,
    /// No program has the image: its first fault.
    Refused(FaultLine),
}

/// The answer of a run.
pub(crate) fn answer_of_run(told: Told) -> Answer
    ensures { result ≡ answer_of told }
{
    match told {
        Told::Broken(entry) => Answer::Broken(entry),
        Told::Report(text, returned) => Answer::Report(text, returned),
    }
}

/// The answer of a run that is certified.
pub(crate) fn answer_of_why(why: Why) -> Answer
    ensures { result ≡ answer_of_why why }
{
    match why {
        Why::Broken(entry) => Answer::Broken(entry),
        Why::Text(text) => Answer::Text(text),
    }
}

/// The exit status of an answer.
pub fn status_of(answer: &Answer) -> u8
    ensures { result ≡ status_of answer.now }
{
    match answer {
        Answer::Report(_, true) | Answer::Text(_) | Answer::Accepted => 0,
        Answer::Report(_, false) => 1,
        Answer::Fault(_) => 3,
        Answer::Unread(_) => 4,
        Answer::Broken(_) => 7,
        Answer::Refused(_) => 8,
    }
}

/// The line about a file that was not read.
fn unread_line(alloc: Global, file: &[u8]) -> Result<Name, Memory>
    ensures { IfOk result (λ line. line ≡ unread_line file.now) }
{
    let mut line = Vec::new(alloc);
    line.extend_from_slice(b"lxfi: cannot read ")?;
    line.extend_from_slice(file)?;
    line.extend_from_slice(b"\n")?;
    Ok(Name::from_vec(line))
}

/// The line about a schedule that is not whole.
#[tactic(auto, unfolding(crate::specs::Answer::broken_line))]
fn broken_line(alloc: Global, entry: u64) -> Result<Name, Memory>
    ensures { IfOk result (λ line. line ≡ broken_line entry) }
{
    let mut line = Vec::new(alloc);
    line.extend_from_slice(b"lxfi: schedule not whole at entry ")?;
    put_decimal(&mut line, i128::from(entry))?;
    line.extend_from_slice(b"\n")?;
    Ok(Name::from_vec(line))
}

/// The line about an image that some program has.
fn accepted_line(alloc: Global) -> Result<Name, Memory>
    ensures { IfOk result (λ line. line ≡ accepted_line) }
{
    let line = Name::from_bytes(alloc, b"accepted\n")?;
    Ok(line)
}

/// The text that is written of an answer.
///
/// # Errors
/// Want of memory.
pub fn answer_text(alloc: Global, answer: Answer) -> Result<Name, Memory>
    ensures { IfOk result (λ text. text ≡ answer_text answer) }
{
    match answer {
        Answer::Fault(fault) | Answer::Refused(fault) => fault_text(alloc, &fault),
        Answer::Unread(file) => unread_line(alloc, file.as_slice()),
        Answer::Broken(entry) => broken_line(alloc, entry),
        Answer::Report(text, _) | Answer::Text(text) => Ok(text),
        Answer::Accepted => accepted_line(alloc),
    }
}
