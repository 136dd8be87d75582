//! Reading constants and operands.

ghost use Rattle.std.specs.Prelude.{◌≡◌, ◌≤◌, length};
ghost use Rattle.lx_ir_terms.specs.Reading.{Gives, has};
ghost use Rattle.lx_ir_terms.specs.Types.{depth_limit};
ghost use Rattle.lx_ir_constants.specs.Constants.{is_cast_word, blank_at_type, constant_of_word, number_at_type, flat_constant_of, flat_constant_at, cast_behind, address_constant_at, begins_expression, expression_at, constant_at, is_register, value_at, pointer_at};

use crate::numbers::number_in;
use crate::pointers::{
    begins_pointer, blank_of, constant_refusal, opened, pointer_within, pointer_word,
};
use lx_ir::module::{Blank, Constant, Pointer, Value};
use lx_ir::types::Scalar;
use lx_ir_terms::{Context, DEPTH_LIMIT, FaultKind, ReadError, Reader, is_mark, refusal};
use lx_ir_tokens::{ConstantWord, ConversionWord, InstructionWord, Keyword, Kind, Mark, Tok};
use std::alloc::Global;

fn blank_at_type(ty: Scalar, blank: Blank) -> Constant
    ensures { result ≡ blank_at_type ty blank }
{
    match ty {
        Scalar::Int(width) => Constant::Blank(blank, width),
        Scalar::Ptr => Constant::Pointer(Pointer::Blank(blank)),
    }
}

fn constant_of_word(ty: Scalar, word: ConstantWord) -> Option<Constant>
    ensures { result ≡ constant_of_word ty word }
{
    match word {
        ConstantWord::True => Some(Constant::Truth(true)),
        ConstantWord::False => Some(Constant::Truth(false)),
        ConstantWord::Null => Some(Constant::Pointer(Pointer::Null)),
        _ => Some(blank_at_type(ty, blank_of(word)?)),
    }
}

fn number_at_type(ty: Scalar, kind: Kind) -> Option<Constant>
    ensures { result ≡ number_at_type ty kind }
{
    match ty {
        Scalar::Int(width) => Some(Constant::Number(number_in(width, kind)?)),
        Scalar::Ptr => None,
    }
}

/// A constant that is one token.
fn flat_constant_of(context: &Context<'_>, ty: Scalar, token: Tok) -> Option<Constant>
    ensures { result ≡ flat_constant_of context.now ty token.kind token.name }
{
    match token.kind {
        Kind::Word(Keyword::Constant(word)) => constant_of_word(ty, word),
        Kind::Global => {
            let symbol = context.symbol(token.name)?;
            Some(Constant::Pointer(Pointer::Symbol(symbol, 0)))
        }
        Kind::Number { .. } => number_at_type(ty, token.kind),
        _ => None,
    }
}

fn is_cast_word(kind: Kind) -> bool
    ensures { result ≡ is_cast_word kind }
{
    matches!(
        kind,
        Kind::Word(Keyword::Instruction(InstructionWord::Conversion(ConversionWord::PtrToInt)))
    )
}

/// Whether the word of a `ptrtoint` stands next.
fn has_cast_word(reader: &Reader<'_>) -> bool
    ensures { result ≡ has is_cast_word reader.now }
{
    match reader.rest {
        [] => false,
        [token, ..] => is_cast_word(token.kind),
    }
}

/// Whether a word that begins a constant expression stands next.
pub fn has_expression(reader: &Reader<'_>) -> bool
    ensures { result ≡ has begins_expression reader.now }
{
    match reader.rest {
        [] => false,
        [token, ..] => is_cast_word(token.kind) || begins_pointer(token.kind),
    }
}

/// A constant that is one token.
fn flat_constant(
    reader: &mut Reader<'_>,
    context: &Context<'_>,
    ty: Scalar,
) -> Result<Constant, ReadError>
    ensures reads { Gives result reader.new (flat_constant_at context.now ty reader.old) }
    ensures shrinks { length reader.new ≤ length reader.old }
{
    let [token, ..] = reader.rest else {
        return Err(reader.fault(FaultKind::Statement));
    };
    let constant = reader.picked(
        flat_constant_of(context, ty, *token),
        constant_refusal(token.kind),
    )?;
    Ok(constant)
}

/// A `ptrtoint` behind its word, with so many nestings left for its pointer.
fn cast(
    alloc: Global,
    reader: &mut Reader<'_>,
    context: &Context<'_>,
    depth: u32,
) -> Result<Constant, ReadError>
    ensures reads { Gives result reader.new (cast_behind (pointer_at context.now depth) reader.old) }
    ensures shrinks { length reader.new ≤ length reader.old }
{
    opened(reader)?;
    pointer_word(reader)?;
    let base = pointer_within(alloc, reader, context, depth)?;
    reader.to()?;
    let width = reader.integer()?;
    reader.mark(Mark::CloseParenthesis)?;
    Ok(Constant::Cast(base, width))
}

/// A pointer as a constant.
fn address_constant(
    alloc: Global,
    reader: &mut Reader<'_>,
    context: &Context<'_>,
    depth: u32,
) -> Result<Constant, ReadError>
    ensures reads { Gives result reader.new (address_constant_at (pointer_at context.now depth) reader.old) }
    ensures shrinks { length reader.new ≤ length reader.old }
{
    let pointer = pointer_within(alloc, reader, context, depth)?;
    Ok(Constant::Pointer(pointer))
}

/// A constant expression, with so many nestings left.
#[tactic(auto, using(crate::proofs::Expressions::expressions))]
pub fn expression(
    alloc: Global,
    reader: &mut Reader<'_>,
    context: &Context<'_>,
    depth: u32,
) -> Result<Constant, ReadError>
    ensures reads { Gives result reader.new (expression_at context.now depth reader.old) }
    ensures shrinks { length reader.new ≤ length reader.old }
{
    if depth == 0 {
        return Err(reader.fault(FaultKind::OutOfProfile));
    }
    if has_cast_word(reader) {
        reader.skip();
        let cast = cast(alloc, reader, context, depth - 1)?;
        return Ok(cast);
    }
    let address = address_constant(alloc, reader, context, depth)?;
    Ok(address)
}

/// A constant with the type of a register before it, with so many nestings left.
#[tactic(auto, unfolding(crate::specs::Constants::constant_at))]
fn constant_within(
    alloc: Global,
    reader: &mut Reader<'_>,
    context: &Context<'_>,
    depth: u32,
    ty: Scalar,
) -> Result<Constant, ReadError>
    ensures reads { Gives result reader.new (constant_at context.now depth ty reader.old) }
    ensures shrinks { length reader.new ≤ length reader.old }
{
    if has_expression(reader) {
        let expression = expression(alloc, reader, context, depth)?;
        return Ok(expression);
    }
    let flat = flat_constant(reader, context, ty)?;
    Ok(flat)
}

/// A constant with the type of a register before it.
pub fn constant(
    alloc: Global,
    reader: &mut Reader<'_>,
    context: &Context<'_>,
    ty: Scalar,
) -> Result<Constant, ReadError>
    ensures reads { Gives result reader.new (constant_at context.now depth_limit ty reader.old) }
    ensures shrinks { length reader.new ≤ length reader.old }
{
    let constant = constant_within(alloc, reader, context, DEPTH_LIMIT, ty)?;
    Ok(constant)
}

/// A register or a constant, with its type before it.
pub fn value(
    alloc: Global,
    reader: &mut Reader<'_>,
    context: &Context<'_>,
    ty: Scalar,
) -> Result<Value, ReadError>
    ensures reads { Gives result reader.new (value_at context.now ty reader.old) }
    ensures shrinks { length reader.new ≤ length reader.old }
{
    if let [
        Tok {
            kind: Kind::Local,
            name,
        },
        ..
    ] = reader.rest
    {
        let register = context.register(*name);
        reader.skip();
        return Ok(Value::Register(register));
    }
    let constant = constant(alloc, reader, context, ty)?;
    Ok(Value::Constant(constant))
}
