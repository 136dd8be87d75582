//! Arguments of calls.

ghost use Rattle.std.specs.Prelude.{◌≡◌, ◌≤◌, [], length};
ghost use Rattle.lx_ir_terms.specs.Reading.{Gives, Passes, has, items_at, listed_at};
ghost use Rattle.lx_ir_constants.specs.Constants.{begins_expression};
ghost use Rattle.lx_ir_calls.specs.Arguments.{is_stray_at_value, strict_value_at, passed_value_at, argument_at, fits_scalar, is_scalar_word, given_type_refusal, given_type_at, given_argument_at, next_argument_at};

use lx_ir::instr::Argument;
use lx_ir::module::{Constant, Value};
use lx_ir::types::Scalar;
use lx_ir_constants::value;
use lx_ir_operands::{same_scalar, scalar_in, scalar_refusal, when};
use lx_ir_terms::{Context, FaultKind, ReadError, Reader};
use lx_ir_tokens::{ConversionWord, InstructionWord, Keyword, Kind, Mark};
use lx_words::Items;
use std::alloc::Global;

/// Whether a word begins a constant expression.
fn begins_expression(kind: Kind) -> bool
    ensures { result ≡ begins_expression kind }
{
    match kind {
        Kind::Word(Keyword::Instruction(word)) => matches!(
            word,
            InstructionWord::GetElementPtr
                | InstructionWord::Conversion(ConversionWord::PtrToInt | ConversionWord::IntToPtr)
        ),
        _ => false,
    }
}

/// Whether a token is a word that begins no value.
fn is_stray_at_value(kind: Kind) -> bool
    ensures { result ≡ is_stray_at_value kind }
{
    match kind {
        Kind::Word(Keyword::Constant(_)) => false,
        Kind::Word(_) => !begins_expression(kind),
        _ => false,
    }
}

fn has_stray_at_value(reader: &Reader<'_>) -> bool
    ensures { result ≡ has is_stray_at_value reader.now }
{
    match reader.rest {
        [] => false,
        [token, ..] => is_stray_at_value(token.kind),
    }
}

/// A value where words are passed over before it.
fn strict_value(
    alloc: Global,
    reader: &mut Reader<'_>,
    context: &Context<'_>,
    ty: Scalar,
) -> Result<Value, ReadError>
    ensures reads { Gives result reader.new (strict_value_at context.now ty reader.old) }
    ensures shrinks { length reader.new ≤ length reader.old }
{
    if has_stray_at_value(reader) {
        return Err(reader.fault(FaultKind::OutOfProfile));
    }
    let value = value(alloc, reader, context, ty)?;
    Ok(value)
}

/// A value behind words that are passed over.
fn passed_value(
    alloc: Global,
    reader: &mut Reader<'_>,
    context: &Context<'_>,
    ty: Scalar,
) -> Result<Value, ReadError>
    ensures reads { Gives result reader.new (passed_value_at context.now ty reader.old) }
    ensures shrinks { length reader.new ≤ length reader.old }
{
    reader.passed(false)?;
    let value = strict_value(alloc, reader, context, ty)?;
    Ok(value)
}

/// An argument with its type.
fn argument(
    alloc: Global,
    reader: &mut Reader<'_>,
    context: &Context<'_>,
) -> Result<Argument, ReadError>
    ensures reads { Gives result reader.new (argument_at context.now reader.old) }
    ensures shrinks { length reader.new ≤ length reader.old }
{
    let ty = reader.scalar()?;
    let value = passed_value(alloc, reader, context, ty)?;
    Ok(Argument { ty, value })
}

/// One argument or more.
fn some_arguments(
    alloc: Global,
    reader: &mut Reader<'_>,
    context: &Context<'_>,
) -> Result<Items<Argument>, ReadError>
    ensures reads { Gives result reader.new (items_at (argument_at context.now) reader.old) }
    ensures shrinks { length reader.new ≤ length reader.old }
{
    let first = argument(alloc, reader, context)?;
    // The prover's part on loans is told of the types in the list by these.
    let _seen: Option<Constant> = None;
    let _seen_too: Option<Value> = None;
    let mut arguments = Items::new(alloc);
    arguments.push(first)?;
    while reader.takes(Mark::Comma) {
        let next = argument(alloc, reader, context)?;
        arguments.push(next)?;
    }
    Ok(arguments)
}

/// The arguments of a call behind its parenthesis.
pub fn arguments(
    alloc: Global,
    reader: &mut Reader<'_>,
    context: &Context<'_>,
) -> Result<Items<Argument>, ReadError>
    ensures reads { Gives result reader.new (listed_at Mark.CloseParenthesis (argument_at context.now) reader.old) }
    ensures shrinks { length reader.new ≤ length reader.old }
{
    if reader.takes(Mark::CloseParenthesis) {
        return Ok(Items::new(alloc));
    }
    let arguments = some_arguments(alloc, reader, context)?;
    reader.mark(Mark::CloseParenthesis)?;
    Ok(arguments)
}

fn is_scalar_word(ty: Scalar, kind: Kind) -> bool
    ensures { result ≡ is_scalar_word ty kind }
{
    match scalar_in(kind) {
        Some(other) => same_scalar(other, ty),
        None => false,
    }
}

/// How a token is refused where the called name gives the type of an argument.
fn given_type_refusal(kind: Kind) -> FaultKind
    ensures { result ≡ given_type_refusal kind }
{
    match kind {
        Kind::Word(Keyword::Scalar(_)) => FaultKind::Statement,
        _ => scalar_refusal(kind),
    }
}

/// Goes over the type of an argument that the called name gives.
pub fn given_type(reader: &mut Reader<'_>, ty: Scalar) -> Result<(), ReadError>
    ensures reads { Passes result reader.new (given_type_at ty reader.old) }
    ensures shrinks { length reader.new ≤ length reader.old }
{
    let [token, ..] = reader.rest else {
        return Err(reader.fault(FaultKind::Statement));
    };
    reader.picked(
        when(is_scalar_word(ty, token.kind)),
        given_type_refusal(token.kind),
    )?;
    Ok(())
}

/// An argument of the type that the called name gives.
pub fn given_argument(
    alloc: Global,
    reader: &mut Reader<'_>,
    context: &Context<'_>,
    ty: Scalar,
) -> Result<Value, ReadError>
    ensures reads { Gives result reader.new (given_argument_at context.now ty reader.old) }
    ensures shrinks { length reader.new ≤ length reader.old }
{
    given_type(reader, ty)?;
    let value = passed_value(alloc, reader, context, ty)?;
    Ok(value)
}

/// A further argument of the type that the called name gives.
pub fn next_argument(
    alloc: Global,
    reader: &mut Reader<'_>,
    context: &Context<'_>,
    ty: Scalar,
) -> Result<Value, ReadError>
    ensures reads { Gives result reader.new (next_argument_at context.now ty reader.old) }
    ensures shrinks { length reader.new ≤ length reader.old }
{
    reader.mark(Mark::Comma)?;
    let value = given_argument(alloc, reader, context, ty)?;
    Ok(value)
}
