//! Calls.

ghost use Rattle.std.specs.Prelude.{◌≡◌, ◌≤◌, length, is_some};
ghost use Rattle.lx_ir_terms.specs.Reading.{Gives, Passes, behind, has, pick_at};
ghost use Rattle.lx_ir_terms.specs.Types.{result_in};
ghost use Rattle.lx_ir_constants.specs.Constants.{skipped, when, word_refusal};
ghost use Rattle.lx_ir_calls.specs.Calls.{callee_of, callee_refusal, callee_at, plain_call_at, intrinsic_call_at, called_at, call_result_in, call_result_refusal, call_result_at, call_behind, is_tail_word, is_call_word, tail_call_at};

use crate::arguments::arguments;
use crate::intrinsics::{Intrinsic, TextForm, intrinsic_behind, intrinsic_next};
use lx_ir::instr::{Callee, Op};
use lx_ir::types::Scalar;
use lx_ir_operands::{attributes, scalar_in, skip_flags, type_word_refusal, when, word_refusal};
use lx_ir_terms::{Context, FaultKind, ReadError, Reader, refusal};
use lx_ir_tokens::{InstructionWord, Keyword, Kind, Mark, Tok};
use std::alloc::Global;

fn callee_of(context: &Context<'_>, token: Tok) -> Option<Callee>
    ensures { result ≡ callee_of context.now token.kind token.name }
{
    match token.kind {
        Kind::Local => Some(Callee::Register(context.register(token.name))),
        Kind::Global => Some(Callee::Symbol(context.symbol(token.name)?)),
        _ => None,
    }
}

fn callee_refusal(kind: Kind) -> FaultKind
    ensures { result ≡ callee_refusal kind }
{
    match kind {
        Kind::Global => FaultKind::Unknown,
        _ => refusal(kind),
    }
}

/// What a call calls.
fn callee(reader: &mut Reader<'_>, context: &Context<'_>) -> Result<Callee, ReadError>
    ensures reads { Gives result reader.new (callee_at context.now reader.old) }
    ensures shrinks { length reader.new ≤ length reader.old }
{
    let [token, ..] = reader.rest else {
        return Err(reader.fault(FaultKind::Statement));
    };
    let callee = reader.picked(callee_of(context, *token), callee_refusal(token.kind))?;
    Ok(callee)
}

/// What is called, and its arguments, where no name says what the call does.
fn plain_call(
    alloc: Global,
    reader: &mut Reader<'_>,
    context: &Context<'_>,
    to: Option<u32>,
    ret: Option<Scalar>,
) -> Result<Op, ReadError>
    ensures reads { Gives result reader.new (plain_call_at context.now to ret reader.old) }
    ensures shrinks { length reader.new ≤ length reader.old }
{
    let callee = callee(reader, context)?;
    reader.mark(Mark::OpenParenthesis)?;
    let args = arguments(alloc, reader, context)?;
    Ok(Op::Call {
        to,
        ret,
        callee,
        args,
    })
}

/// A call whose name says what it does, at that name. It gives nothing.
fn intrinsic_call(
    alloc: Global,
    reader: &mut Reader<'_>,
    context: &Context<'_>,
    intrinsic: Intrinsic,
    ret: Option<Scalar>,
) -> Result<Op, ReadError>
    ensures reads { Gives result reader.new (intrinsic_call_at context.now intrinsic ret reader.old) }
    ensures shrinks { length reader.new ≤ length reader.old }
{
    if let Some(_) = ret {
        return Err(reader.fault(FaultKind::Statement));
    }
    reader.skip();
    let op = intrinsic_behind(alloc, reader, context, intrinsic)?;
    Ok(op)
}

/// What is called, and its arguments.
fn called(
    alloc: Global,
    reader: &mut Reader<'_>,
    context: &Context<'_>,
    form: TextForm,
    to: Option<u32>,
    ret: Option<Scalar>,
) -> Result<Op, ReadError>
    ensures reads { Gives result reader.new (called_at context.now form to ret reader.old) }
    ensures shrinks { length reader.new ≤ length reader.old }
{
    if let Some(intrinsic) = intrinsic_next(reader, context, form) {
        let op = intrinsic_call(alloc, reader, context, intrinsic, ret)?;
        return Ok(op);
    }
    let op = plain_call(alloc, reader, context, to, ret)?;
    Ok(op)
}

/// The result of a call that is no `void` where a register is given.
fn call_result_in(gives: bool, kind: Kind) -> Option<Option<Scalar>>
    ensures { result ≡ call_result_in gives kind }
{
    match kind {
        Kind::Word(Keyword::Void) => { if gives { None } else { Some(None) } }
        _ => Some(Some(scalar_in(kind)?)),
    }
}

fn call_result_refusal(kind: Kind) -> FaultKind
    ensures { result ≡ call_result_refusal kind }
{
    match kind {
        Kind::Word(Keyword::Void) => FaultKind::Statement,
        _ => type_word_refusal(kind),
    }
}

/// The type of a call's result behind words that are passed over.
fn call_result(reader: &mut Reader<'_>, gives: bool) -> Result<Option<Scalar>, ReadError>
    ensures reads { Gives result reader.new (call_result_at gives reader.old) }
    ensures shrinks { length reader.new ≤ length reader.old }
{
    skip_flags(reader);
    reader.passed(false)?;
    let [token, ..] = reader.rest else {
        return Err(reader.fault(FaultKind::Statement));
    };
    let ret = reader.picked(
        call_result_in(gives, token.kind),
        call_result_refusal(token.kind),
    )?;
    Ok(ret)
}

/// A call behind its word, which gives its result to this register; with a register the result is not `void`. The words
/// behind its parentheses are passed over.
///
/// A fault is at the first token that cannot stand where it stands.
pub fn call(
    alloc: Global,
    reader: &mut Reader<'_>,
    context: &Context<'_>,
    form: TextForm,
    to: Option<u32>,
) -> Result<Op, ReadError>
    ensures reads { Gives result reader.new (call_behind context.now form to reader.old) }
    ensures shrinks { length reader.new ≤ length reader.old }
{
    let ret = call_result(reader, to.is_some())?;
    let op = called(alloc, reader, context, form, to, ret)?;
    attributes(reader)?;
    Ok(op)
}

fn is_tail_word(kind: Kind) -> bool
    ensures { result ≡ is_tail_word kind }
{
    matches!(kind, Kind::Word(Keyword::Tail))
}

/// Whether `tail` or `notail` stands next.
pub fn has_tail_word(reader: &Reader<'_>) -> bool
    ensures { result ≡ has is_tail_word reader.now }
{
    match reader.rest {
        [] => false,
        [token, ..] => is_tail_word(token.kind),
    }
}

/// Goes over the words before `call`.
#[tactic(auto, using(lx_ir_constants::proofs::Skips::skips))]
fn skip_tails(reader: &mut Reader<'_>)
    ensures passed { reader.new ≡ skipped is_tail_word reader.old }
    ensures shrinks { length reader.new ≤ length reader.old }
{
    while has_tail_word(reader) {
        reader.skip();
    }
}

fn is_call_word(kind: Kind) -> bool
    ensures { result ≡ is_call_word kind }
{
    matches!(
        kind,
        Kind::Word(Keyword::Instruction(InstructionWord::Call))
    )
}

/// Goes over `call`, where words are passed over before it.
fn call_word(reader: &mut Reader<'_>) -> Result<(), ReadError>
    ensures reads { Passes result reader.new (pick_at (λ t. when (is_call_word t.kind)) word_refusal reader.old) }
    ensures shrinks { length reader.new ≤ length reader.old }
{
    let [token, ..] = reader.rest else {
        return Err(reader.fault(FaultKind::Statement));
    };
    reader.picked(when(is_call_word(token.kind)), word_refusal(token.kind))?;
    Ok(())
}

/// A call with its word and the words `tail` and `notail` before it, which gives its result to this register.
///
/// A fault is at the first token that cannot stand where it stands; any word but `call` behind them is outside the profile.
pub fn tail_call(
    alloc: Global,
    reader: &mut Reader<'_>,
    context: &Context<'_>,
    form: TextForm,
    to: Option<u32>,
) -> Result<Op, ReadError>
    ensures reads { Gives result reader.new (tail_call_at context.now form to reader.old) }
    ensures shrinks { length reader.new ≤ length reader.old }
{
    skip_tails(reader);
    call_word(reader)?;
    let op = call(alloc, reader, context, form, to)?;
    Ok(op)
}
