//! Case files.

ghost use Rattle.std.specs.Prelude.{◌≡◌, ℕ, List, ◌+◌, ◌<◌, ◌^◌, ◌⊎◌, [], length, IfOk, IfErr};
ghost use Rattle.lx_script.specs.declared.fault.CaseFault.{CaseFault as Fault};
ghost use Rattle.lx_script.specs.Case.{Case as Said};
ghost use Rattle.lx_script.specs.Grammar.{CaseFails, FirstCaseFault, HasTooFew, HasWrongStatement, SaysCase};
ghost use Rattle.lx_script.specs.Lines.{statements_of};
ghost use Rattle.lx_script.specs.Reading.{Gives, body_at, case_at, next_at};

use crate::case::Case;
use crate::draft::Draft;
use crate::fault::{CaseFault, FaultKind, ReadError, met};
use crate::keyword::{INTERFACE, KERNEL};
use crate::reading::{origin, version};
use crate::statement::{Statement, Statements};
use std::alloc::Global;

/// The next of the first three statements; where there is none, the text ends behind the line `row`.
#[tactic(auto, unfolding(crate::specs::Reading::next_at))]
fn next<'a>(
    alloc: Global,
    row: u32,
    statements: &mut Statements<'a>,
) -> Result<Statement<'a>, ReadError>
    ensures { Gives (λ s. (s, statements.new)) result (next_at row statements.old) }
{
    match statements.next_statement() {
        Some(statement) => Ok(statement),
        None => Err(met(alloc, FaultKind::Statement, row, b"end")),
    }
}

/// The modules and threads.
fn body<'a>(alloc: Global, statements: &mut Statements<'a>) -> Result<Draft<'a>, ReadError>
    ensures { Gives (λ d. d) result (body_at (record { modules = []; threads = [] }) statements.old) }
{
    let mut draft = Draft::new(alloc);
    while let Some(mut statement) = statements.next_statement() {
        draft.add(alloc, &mut statement)?;
    }
    Ok(draft)
}

/// The case that a text says, or the first fault that is met.
#[tactic(auto, unfolding(crate::specs::Reading::case_at))]
fn case_in(alloc: Global, text: &[u8]) -> Result<Case, ReadError>
    requires { length text.now + 1 < 2 ^ 32 }
    ensures { Gives (λ c. c) result (case_at (statements_of text.now)) }
{
    let mut statements = Statements::new(text);
    let mut first = next(alloc, 1, &mut statements)?;
    let row = first.row;
    version(alloc, &mut first)?;
    let mut second = next(alloc, row, &mut statements)?;
    let row = second.row;
    let kernel = origin(alloc, KERNEL, &mut second)?;
    let mut third = next(alloc, row, &mut statements)?;
    let interface = origin(alloc, INTERFACE, &mut third)?;
    let draft = body(alloc, &mut statements)?;
    let case = draft.into_case(alloc, kernel, interface)?;
    Ok(case)
}

/// The case that a file says.
///
/// # Errors
/// The first fault that is met: `Lexical`, `Statement`, `Unknown`, `Twice`, `Range` or `Limit`. `Memory` where there is
/// not enough memory for the case.
pub fn read_case(alloc: Global, bytes: &[u8]) -> Result<Case, CaseFault>
    requires { length bytes.now + 1 < 2 ^ 32 }
    ensures ok { IfOk result (λ case. SaysCase bytes.now case) }
    ensures fault { IfErr result (λ e. CaseFails bytes.now e) }
{
    let case = case_in(alloc, bytes)?;
    Ok(case)
}

/// A text says one case at most, has one first fault at most, and one of both.
pub fn one_case()
    ensures value { (text : List ℕ) (a b : Said) → SaysCase text a → SaysCase text b → a ≡ b }
    ensures fault { (text : List ℕ) (e f : Fault) → FirstCaseFault text e → FirstCaseFault text f → e ≡ f }
    ensures apart { (text : List ℕ) (a : Said) (f : Fault) → SaysCase text a → FirstCaseFault text f → ⊥ }
    // Some case begins with the statements before the fault, and none goes on with the one that has it.
    ensures place { (text : List ℕ) (f : Fault) → FirstCaseFault text f → HasTooFew (statements_of text) ⊎ HasWrongStatement (statements_of text) }
    ensures either { (text : List ℕ) → ((a : Said) × SaysCase text a) ⊎ ((f : Fault) × FirstCaseFault text f) }
{}
