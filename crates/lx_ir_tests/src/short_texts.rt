//! Rules of the grammar, each by itself, over short texts.

use crate::constants::constant_is_printed;
use crate::instructions::instruction_is_printed;
use crate::known::{Known, meaning, put_names};
use crate::operands::{Part, operand_is_read};
use crate::statements::{Asked, statements_are};
use lx_ir_calls::TextForm;
use lx_ir_constants::is_misplaced;
use lx_ir_terms::{Fault, FaultKind, ReadError, Reader};
use lx_ir_tokens::{IrTokens, read_tokens};
use lx_words::Items;
use std::alloc::Global;
use std::process::Abort;

/// A rule by which tokens are read, and what it answers.
#[derive(Clone, Copy)]
pub enum Rule<'a> {
    /// Reads no token, and answers yes.
    Nothing,
    /// Whether the global `@g` with a type and an initialiser is printed so.
    Constant(&'a [u8]),
    /// Whether the indices of a constant `getelementptr` name no part. Reads no token.
    Misplaced,
    Operand(Part),
    /// Whether the function `@f` of one instruction is printed so.
    Instruction(TextForm, &'a [u8]),
    /// Reads to the end.
    Statements(Asked<'a>),
}

/// How a text is read.
#[derive(Clone, Copy)]
pub enum Outcome {
    /// What the rule answers, and how many tokens are left.
    Read(bool, usize),
    Fault(Fault),
    /// The text is too long, or there is not enough memory.
    Memory,
}

/// Reads tokens by a rule, and gives its answer.
fn read(
    alloc: Global,
    tokens: &IrTokens,
    known: &Known,
    reader: &mut Reader<'_>,
    rule: Rule<'_>,
) -> Result<bool, ReadError> {
    match rule {
        Rule::Nothing => Ok(true),
        Rule::Constant(printed) => {
            let context = meaning(tokens, &[], &[], true);
            constant_is_printed(alloc, reader, &context, printed)
        }
        Rule::Misplaced => {
            let context = meaning(tokens, &[], &[], true);
            let misplaced = is_misplaced(alloc, tokens.toks.as_slice(), &context)?;
            Ok(misplaced)
        }
        Rule::Operand(part) => {
            let context = meaning(tokens, &[], &[], false);
            operand_is_read(alloc, reader, &context, part)
        }
        Rule::Instruction(form, printed) => {
            let registers = known.registers.as_slice();
            let context = meaning(tokens, registers, known.symbols.as_slice(), true);
            instruction_is_printed(alloc, reader, &context, form, printed)
        }
        Rule::Statements(asked) => {
            statements_are(alloc, tokens, known.registers.as_slice(), reader, asked)
        }
    }
}

/// How tokens are read by a rule.
fn outcome_by(alloc: Global, tokens: &IrTokens, known: &Known, rule: Rule<'_>) -> Outcome {
    let mut reader = Reader::new(tokens.toks.as_slice());
    match read(alloc, tokens, known, &mut reader, rule) {
        Ok(answer) => Outcome::Read(answer, reader.left()),
        Err(ReadError::Fault(fault)) => Outcome::Fault(fault),
        Err(ReadError::Memory) => Outcome::Memory,
    }
}

/// How a text is read by a rule.
pub fn outcome_of(alloc: Global, text: &[u8], rule: Rule<'_>) -> Outcome {
    if text.len() > 1000 {
        return Outcome::Memory;
    }
    match read_tokens(alloc, text) {
        Ok(tokens) => {
            let mut known = Known {
                registers: Items::new(alloc),
                symbols: Items::new(alloc),
            };
            let put = put_names(&tokens, &mut known);
            let outcome = outcome_by(alloc, &tokens, &known, rule);
            drop(known);
            drop(tokens);
            if put.is_ok() {
                outcome
            } else {
                Outcome::Memory
            }
        }
        Err(_) => Outcome::Memory,
    }
}

/// What a rule answers of a text without a fault.
pub fn answer_of(alloc: Global, text: &[u8], rule: Rule<'_>) -> Option<bool> {
    match outcome_of(alloc, text, rule) {
        Outcome::Read(answer, _) => Some(answer),
        _ => None,
    }
}

/// Whether a rule answers yes, and leaves so many tokens.
pub fn is_read(alloc: Global, text: &[u8], rule: Rule<'_>, left: usize) -> bool {
    match outcome_of(alloc, text, rule) {
        Outcome::Read(answer, rest) => answer && rest == left,
        _ => false,
    }
}

/// Whether a text has a fault of this kind, with so many tokens left.
pub fn is_refused(
    alloc: Global,
    text: &[u8],
    rule: Rule<'_>,
    kind: FaultKind,
    left: usize,
) -> bool {
    match outcome_of(alloc, text, rule) {
        Outcome::Fault(fault) => fault.kind == kind && fault.left == left,
        _ => false,
    }
}

/// A text, and its fault: the kind, and how many tokens are left.
pub struct Faulty(pub &'static str, pub FaultKind, pub usize);

/// Each text has its fault, by one rule.
pub fn assert_refused(rt: &impl Abort, alloc: Global, rule: Rule<'_>, rows: &[Faulty]) {
    for (number, row) in rows.iter().enumerate() {
        assert!(rt;
            is_refused(alloc, row.0.as_bytes(), rule, row.1, row.2),
            "row {number}"
        );
    }
}
