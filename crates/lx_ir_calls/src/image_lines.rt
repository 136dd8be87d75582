//! The lines that images alone have.

ghost use Rattle.std.specs.Prelude.{◌≡◌, ◌≤◌, length};
ghost use Rattle.lx_ir.specs.Operands.{guard_width};
ghost use Rattle.lx_ir_terms.specs.Reading.{Gives, pick_at};
ghost use Rattle.lx_ir_calls.specs.ImageLines.{image_line_named, guard_behind, check_behind, symbol_in, symbol_refusal, symbol_argument_at, crossing, crossing_behind, action_in, action_refusal, action_at, action, action_behind, image_line_behind};

use crate::arguments::{given_argument, given_type, next_argument};
use lx_ir::instr::Op;
use lx_ir::module::Symbol;
use lx_ir::types::Scalar;
use lx_ir_constants::number_in;
use lx_ir_operands::word_refusal;
use lx_ir_terms::{Context, FaultKind, ReadError, Reader};
use lx_ir_tokens::{Kind, Mark, Tok};
use lx_words::Width;
use std::alloc::Global;

/// A line that images alone have.
#[derive(Clone, Copy)]
pub enum ImageLine {
    /// `lxfi.guard`, or `lxfi.guard32` where its size is an `i32`.
    Guard { narrow: bool },
    /// `lxfi.check`
    Check,
    /// `lxfi.enter`, or `lxfi.leave`.
    Crossing { leaves: bool },
    /// `lxfi.pre`, or `lxfi.post` where it stands behind the call.
    Action { after: bool },
}

/// The line that a name calls.
pub fn image_line_named(name: &[u8]) -> Option<ImageLine>
    ensures { result ≡ image_line_named name.now }
{
    if name == b"lxfi.guard".as_slice() {
        Some(ImageLine::Guard { narrow: false })
    } else if name == b"lxfi.guard32".as_slice() {
        Some(ImageLine::Guard { narrow: true })
    } else if name == b"lxfi.check".as_slice() {
        Some(ImageLine::Check)
    } else if name == b"lxfi.enter".as_slice() {
        Some(ImageLine::Crossing { leaves: false })
    } else if name == b"lxfi.leave".as_slice() {
        Some(ImageLine::Crossing { leaves: true })
    } else if name == b"lxfi.pre".as_slice() {
        Some(ImageLine::Action { after: false })
    } else if name == b"lxfi.post".as_slice() {
        Some(ImageLine::Action { after: true })
    } else {
        None
    }
}

fn guard_width(narrow: bool) -> Width
    ensures { result ≡ guard_width narrow }
{
    if narrow { Width::W32 } else { Width::W64 }
}

/// A guard behind its name.
fn guard(
    alloc: Global,
    reader: &mut Reader<'_>,
    context: &Context<'_>,
    narrow: bool,
) -> Result<Op, ReadError>
    ensures reads { Gives result reader.new (guard_behind context.now narrow reader.old) }
    ensures shrinks { length reader.new ≤ length reader.old }
{
    reader.mark(Mark::OpenParenthesis)?;
    let at = given_argument(alloc, reader, context, Scalar::Ptr)?;
    let size = next_argument(alloc, reader, context, Scalar::Int(guard_width(narrow)))?;
    reader.mark(Mark::CloseParenthesis)?;
    Ok(Op::Guard { at, size, narrow })
}

/// A check behind its name.
fn check(alloc: Global, reader: &mut Reader<'_>, context: &Context<'_>) -> Result<Op, ReadError>
    ensures reads { Gives result reader.new (check_behind context.now reader.old) }
    ensures shrinks { length reader.new ≤ length reader.old }
{
    reader.mark(Mark::OpenParenthesis)?;
    let target = given_argument(alloc, reader, context, Scalar::Ptr)?;
    reader.mark(Mark::CloseParenthesis)?;
    Ok(Op::Check { target })
}

fn symbol_in(context: &Context<'_>, token: Tok) -> Option<Symbol>
    ensures { result ≡ symbol_in context.now token.kind token.name }
{
    match token.kind {
        Kind::Global => Some(context.symbol(token.name)?),
        _ => None,
    }
}

/// How a token is refused where the name of a function or global has to stand.
fn symbol_refusal(kind: Kind) -> FaultKind
    ensures { result ≡ symbol_refusal kind }
{
    match kind {
        Kind::Global => FaultKind::Unknown,
        _ => word_refusal(kind),
    }
}

/// An argument that is a function or global by its name.
fn symbol_argument(reader: &mut Reader<'_>, context: &Context<'_>) -> Result<Symbol, ReadError>
    ensures reads { Gives result reader.new (symbol_argument_at context.now reader.old) }
    ensures shrinks { length reader.new ≤ length reader.old }
{
    given_type(reader, Scalar::Ptr)?;
    reader.passed(false)?;
    let [token, ..] = reader.rest else {
        return Err(reader.fault(FaultKind::Statement));
    };
    let symbol = reader.picked(symbol_in(context, *token), symbol_refusal(token.kind))?;
    Ok(symbol)
}

fn crossing_line(leaves: bool, f: Symbol) -> Op
    ensures { result ≡ crossing leaves f }
{
    if leaves {
        Op::Leave { f }
    } else {
        Op::Enter { f }
    }
}

/// Where a wrapper is entered or left, behind the name.
fn crossing(reader: &mut Reader<'_>, context: &Context<'_>, leaves: bool) -> Result<Op, ReadError>
    ensures reads { Gives result reader.new (crossing_behind context.now leaves reader.old) }
    ensures shrinks { length reader.new ≤ length reader.old }
{
    reader.mark(Mark::OpenParenthesis)?;
    let symbol = symbol_argument(reader, context)?;
    reader.mark(Mark::CloseParenthesis)?;
    Ok(crossing_line(leaves, symbol))
}

/// The number of an action that a token says.
fn action_in(kind: Kind) -> Option<u32>
    ensures { result ≡ action_in kind }
{
    let number = number_in(Width::W32, kind)?;
    Some(number.bits as u32)
}

/// How a token is refused where the number of an action has to stand.
fn action_refusal(kind: Kind) -> FaultKind
    ensures { result ≡ action_refusal kind }
{
    match kind {
        Kind::Number { .. } => FaultKind::OutOfProfile,
        _ => word_refusal(kind),
    }
}

/// The number of an action behind a comma.
fn action_number(reader: &mut Reader<'_>) -> Result<u32, ReadError>
    ensures reads { Gives result reader.new (action_at reader.old) }
    ensures shrinks { length reader.new ≤ length reader.old }
{
    reader.mark(Mark::Comma)?;
    given_type(reader, Scalar::Int(Width::W32))?;
    reader.passed(false)?;
    let [token, ..] = reader.rest else {
        return Err(reader.fault(FaultKind::Statement));
    };
    let number = reader.picked(action_in(token.kind), action_refusal(token.kind))?;
    Ok(number)
}

fn action_line(after: bool, f: Symbol, k: u32) -> Op
    ensures { result ≡ action after f k }
{
    if after {
        Op::Post { f, k }
    } else {
        Op::Pre { f, k }
    }
}

/// An action behind its name.
fn action(reader: &mut Reader<'_>, context: &Context<'_>, after: bool) -> Result<Op, ReadError>
    ensures reads { Gives result reader.new (action_behind context.now after reader.old) }
    ensures shrinks { length reader.new ≤ length reader.old }
{
    reader.mark(Mark::OpenParenthesis)?;
    let symbol = symbol_argument(reader, context)?;
    let number = action_number(reader)?;
    reader.mark(Mark::CloseParenthesis)?;
    Ok(action_line(after, symbol, number))
}

/// A line behind its name.
pub fn image_line(
    alloc: Global,
    reader: &mut Reader<'_>,
    context: &Context<'_>,
    line: ImageLine,
) -> Result<Op, ReadError>
    ensures reads { Gives result reader.new (image_line_behind context.now line reader.old) }
    ensures shrinks { length reader.new ≤ length reader.old }
{
    let op = match line {
        ImageLine::Guard { narrow } => guard(alloc, reader, context, narrow)?,
        ImageLine::Check => check(alloc, reader, context)?,
        ImageLine::Crossing { leaves } => crossing(reader, context, leaves)?,
        ImageLine::Action { after } => action(reader, context, after)?,
    };
    Ok(op)
}
