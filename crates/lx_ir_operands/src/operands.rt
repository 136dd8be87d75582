//! Operands of instructions.

ghost use Rattle.std.specs.Prelude.{◌≡◌, ◌≤◌, length, IfOk};
ghost use Rattle.lx_ir.specs.Lawful.{same_scalar};
ghost use Rattle.lx_ir_terms.specs.Reading.{Gives, Passes, behind, has, next_at};
ghost use Rattle.lx_ir_constants.specs.Constants.{is_pointer_word, form_type_at};
ghost use Rattle.lx_ir_terms.specs.Words as passing;
ghost use Rattle.lx_ir_terms.specs.Types.{scalar_in, is_opening, scalar_refusal, scalar_at};
ghost use Rattle.lx_ir_operands.specs.Operands.{flagged_scalar_at, is_stray_at_type, strict_type_at, flagged_type_at, is_truth_word, named_type_refusal, truth_type_at, typed_at, flagged_typed_at, second_at, address_at, misfit, kept_constant, kept_value, again_at, is_label_word, local_in, local_at, label_at, next_label_at, edge_at, case_at, has_case};

use crate::steps::{skip_flags, when};
use lx_ir::instr::{Argument, Edge, SwitchCase};
use lx_ir::module::{Constant, Pointer, Value};
use lx_ir::types::{IrType, Scalar};
use lx_ir_constants::{constant, value};
use lx_ir_terms::{Context, FaultKind, ReadError, Reader, is_mark, refusal};
use lx_ir_tokens::{Keyword, Kind, Mark, ScalarWord, Tok};
use lx_words::{Items, Name, Width};
use std::alloc::Global;

/// Whether two types are the same.
pub fn same_scalar(a: Scalar, b: Scalar) -> bool
    ensures { result ≡ same_scalar a b }
{
    match (a, b) {
        (Scalar::Int(v), Scalar::Int(w)) => v.bit_count() == w.bit_count(),
        (Scalar::Ptr, Scalar::Ptr) => true,
        _ => false,
    }
}

/// The type that a token says.
pub fn scalar_in(kind: Kind) -> Option<Scalar>
    ensures { result ≡ scalar_in kind }
{
    match kind {
        Kind::Word(Keyword::Scalar(ScalarWord::Int(width))) => Some(Scalar::Int(width)),
        Kind::Word(Keyword::Scalar(ScalarWord::Ptr)) => Some(Scalar::Ptr),
        _ => None,
    }
}

/// Whether a mark opens a type.
fn is_opening(kind: Kind) -> bool
    ensures { result ≡ is_opening kind }
{
    is_mark(kind, Mark::OpenBracket) || is_mark(kind, Mark::OpenBrace) || is_mark(kind, Mark::Less)
}

/// How a token is refused where the type of a register has to stand: another type is outside the profile.
pub fn scalar_refusal(kind: Kind) -> FaultKind
    ensures { result ≡ scalar_refusal kind }
{
    match kind {
        Kind::Local | Kind::Word(Keyword::Scalar(_) | Keyword::Void) => FaultKind::OutOfProfile,
        _ => {
            if is_opening(kind) {
                FaultKind::OutOfProfile
            } else {
                refusal(kind)
            }
        }
    }
}

/// How a token is refused where words are passed over and the type of a register has to stand: any other word is outside
/// the profile.
pub fn type_word_refusal(kind: Kind) -> FaultKind
    ensures { result ≡ passing.word_refusal kind }
{
    match kind {
        Kind::Word(_) => FaultKind::OutOfProfile,
        _ => scalar_refusal(kind),
    }
}

/// The type of a register behind flags.
///
/// A fault is at the first token that cannot stand there; a word that is none is outside the profile.
pub fn flagged_scalar(reader: &mut Reader<'_>) -> Result<Scalar, ReadError>
    ensures reads { Gives result reader.new (flagged_scalar_at reader.old) }
    ensures shrinks { length reader.new ≤ length reader.old }
{
    skip_flags(reader);
    let [token, ..] = reader.rest else {
        return Err(reader.fault(FaultKind::Statement));
    };
    let scalar = reader.picked(scalar_in(token.kind), type_word_refusal(token.kind))?;
    Ok(scalar)
}

/// Whether a word stands next that begins no type.
fn is_stray_at_type(kind: Kind) -> bool
    ensures { result ≡ is_stray_at_type kind }
{
    match kind {
        Kind::Word(word) => !matches!(word, Keyword::Scalar(_)),
        _ => false,
    }
}

fn has_stray_at_type(reader: &Reader<'_>) -> bool
    ensures { result ≡ has is_stray_at_type reader.now }
{
    match reader.rest {
        [] => false,
        [token, ..] => is_stray_at_type(token.kind),
    }
}

/// Any type behind flags.
///
/// A fault is at the first token that cannot stand there; a word that begins no type is outside the profile.
pub fn flagged_type(
    alloc: Global,
    reader: &mut Reader<'_>,
    context: &Context<'_>,
) -> Result<IrType, ReadError>
    ensures reads { Gives result reader.new (flagged_type_at context.now reader.old) }
    ensures shrinks { length reader.new ≤ length reader.old }
{
    skip_flags(reader);
    if has_stray_at_type(reader) {
        return Err(reader.fault(FaultKind::OutOfProfile));
    }
    let ty = reader.ty(alloc, context)?;
    Ok(ty)
}

fn is_truth_word(kind: Kind) -> bool
    ensures { result ≡ is_truth_word kind }
{
    matches!(
        kind,
        Kind::Word(Keyword::Scalar(ScalarWord::Int(Width::W1)))
    )
}

/// How a token is refused where a form names the type behind its flags.
fn named_type_refusal(kind: Kind) -> FaultKind
    ensures { result ≡ named_type_refusal kind }
{
    match kind {
        Kind::Word(word) => match word {
            Keyword::Scalar(_) | Keyword::Void => FaultKind::Statement,
            _ => FaultKind::OutOfProfile,
        },
        _ => FaultKind::Statement,
    }
}

/// Goes over the `i1` of a form, where flags stood before.
///
/// A fault is at the first token that cannot stand there: another type is a wrong token, any other word is outside the
/// profile.
pub fn truth_type(reader: &mut Reader<'_>) -> Result<(), ReadError>
    ensures reads { Passes result reader.new (truth_type_at reader.old) }
    ensures shrinks { length reader.new ≤ length reader.old }
{
    let [token, ..] = reader.rest else {
        return Err(reader.fault(FaultKind::Statement));
    };
    reader.picked(
        when(is_truth_word(token.kind)),
        named_type_refusal(token.kind),
    )?;
    Ok(())
}

fn is_pointer_word(kind: Kind) -> bool
    ensures { result ≡ is_pointer_word kind }
{
    matches!(kind, Kind::Word(Keyword::Scalar(ScalarWord::Ptr)))
}

/// Goes over the `ptr` of a form.
fn pointer_word(reader: &mut Reader<'_>) -> Result<(), ReadError>
    ensures reads { Passes result reader.new (form_type_at is_pointer_word reader.old) }
    ensures shrinks { length reader.new ≤ length reader.old }
{
    let [token, ..] = reader.rest else {
        return Err(reader.fault(FaultKind::Statement));
    };
    reader.picked(when(is_pointer_word(token.kind)), refusal(token.kind))?;
    Ok(())
}

/// The type of a register and a value of it.
///
/// A fault is at the first token that cannot stand there.
pub fn typed(
    alloc: Global,
    reader: &mut Reader<'_>,
    context: &Context<'_>,
) -> Result<Argument, ReadError>
    ensures reads { Gives result reader.new (typed_at context.now reader.old) }
    ensures shrinks { length reader.new ≤ length reader.old }
{
    let ty = reader.scalar()?;
    let value = value(alloc, reader, context, ty)?;
    Ok(Argument { ty, value })
}

/// The type of a register behind flags, and a value of it.
///
/// A fault is at the first token that cannot stand there; a word in the place of the type is outside the profile.
pub fn flagged_typed(
    alloc: Global,
    reader: &mut Reader<'_>,
    context: &Context<'_>,
) -> Result<Argument, ReadError>
    ensures reads { Gives result reader.new (flagged_typed_at context.now reader.old) }
    ensures shrinks { length reader.new ≤ length reader.old }
{
    let ty = flagged_scalar(reader)?;
    let value = value(alloc, reader, context, ty)?;
    Ok(Argument { ty, value })
}

/// A further value of this type behind a comma.
///
/// A fault is at the first token that cannot stand there.
pub fn second(
    alloc: Global,
    reader: &mut Reader<'_>,
    context: &Context<'_>,
    ty: Scalar,
) -> Result<Value, ReadError>
    ensures reads { Gives result reader.new (second_at context.now ty reader.old) }
    ensures shrinks { length reader.new ≤ length reader.old }
{
    reader.mark(Mark::Comma)?;
    let value = value(alloc, reader, context, ty)?;
    Ok(value)
}

/// A pointer with its type behind a comma.
///
/// A fault is at the first token that cannot stand there; another type than `ptr` is a wrong token.
pub fn address(
    alloc: Global,
    reader: &mut Reader<'_>,
    context: &Context<'_>,
) -> Result<Value, ReadError>
    ensures reads { Gives result reader.new (address_at context.now reader.old) }
    ensures shrinks { length reader.new ≤ length reader.old }
{
    reader.mark(Mark::Comma)?;
    pointer_word(reader)?;
    let value = value(alloc, reader, context, Scalar::Ptr)?;
    Ok(value)
}

/// A constant that does not fit this type.
fn misfit(ty: Scalar) -> Constant
    ensures { result ≡ misfit ty }
{
    match ty {
        Scalar::Int(_) => Constant::Pointer(Pointer::Null),
        Scalar::Ptr => Constant::Truth(true),
    }
}

fn kept_constant(ty: Scalar, other: Scalar, constant: Constant) -> Constant
    ensures { result ≡ kept_constant ty other constant }
{
    if same_scalar(other, ty) {
        constant
    } else {
        misfit(ty)
    }
}

fn kept_value(ty: Scalar, other: Scalar, value: Value) -> Value
    ensures { result ≡ kept_value ty other value }
{
    if same_scalar(other, ty) {
        value
    } else {
        Value::Constant(misfit(ty))
    }
}

/// A further operand with its type behind a comma, where the form wrote this type before. One of another type is kept
/// as a constant that does not fit.
///
/// A fault is at the first token that cannot stand there.
pub fn again(
    alloc: Global,
    reader: &mut Reader<'_>,
    context: &Context<'_>,
    ty: Scalar,
) -> Result<Value, ReadError>
    ensures reads { Gives result reader.new (again_at context.now ty reader.old) }
    ensures shrinks { length reader.new ≤ length reader.old }
{
    reader.mark(Mark::Comma)?;
    let operand = typed(alloc, reader, context)?;
    Ok(kept_value(ty, operand.ty, operand.value))
}

/// Goes over `label`.
fn label_word(reader: &mut Reader<'_>) -> Result<(), ReadError>
    ensures reads { Passes result reader.new (next_at is_label_word reader.old) }
    ensures shrinks { length reader.new ≤ length reader.old }
{
    match reader.rest {
        [
            Tok {
                kind: Kind::Word(Keyword::Label),
                ..
            },
            rest @ ..,
        ] => {
            reader.rest = rest;
            Ok(())
        }
        _ => Err(reader.fault(FaultKind::Statement)),
    }
}

/// Whether `label` stands next.
pub fn has_label_word(reader: &Reader<'_>) -> bool
    ensures { result ≡ has is_label_word reader.now }
{
    match reader.rest {
        [
            Tok {
                kind: Kind::Word(Keyword::Label),
                ..
            },
            ..
        ] => true,
        _ => false,
    }
}

/// The name of a block behind its `label`.
///
/// A fault is at the first token that cannot stand there.
pub fn local(
    alloc: Global,
    reader: &mut Reader<'_>,
    context: &Context<'_>,
) -> Result<Name, ReadError>
    ensures reads { Gives result reader.new (local_at context.now reader.old) }
    ensures shrinks { length reader.new ≤ length reader.old }
{
    match reader.rest {
        [
            Tok {
                kind: Kind::Local,
                name,
            },
            rest @ ..,
        ] => {
            let label = Items::from_bytes(alloc, context.bytes(*name))?;
            reader.rest = rest;
            Ok(label)
        }
        _ => Err(reader.fault(FaultKind::Statement)),
    }
}

/// A label.
fn label(alloc: Global, reader: &mut Reader<'_>, context: &Context<'_>) -> Result<Name, ReadError>
    ensures reads { Gives result reader.new (label_at context.now reader.old) }
    ensures shrinks { length reader.new ≤ length reader.old }
{
    label_word(reader)?;
    let label = local(alloc, reader, context)?;
    Ok(label)
}

/// A comma, `label` and the name of a block.
///
/// A fault is at the first token that cannot stand there.
pub fn next_label(
    alloc: Global,
    reader: &mut Reader<'_>,
    context: &Context<'_>,
) -> Result<Name, ReadError>
    ensures reads { Gives result reader.new (next_label_at context.now reader.old) }
    ensures shrinks { length reader.new ≤ length reader.old }
{
    reader.mark(Mark::Comma)?;
    let label = label(alloc, reader, context)?;
    Ok(label)
}

/// A value of a `phi`, and the block that it comes from, in brackets.
///
/// A fault is at the first token that cannot stand there.
pub fn edge(
    alloc: Global,
    reader: &mut Reader<'_>,
    context: &Context<'_>,
    ty: Scalar,
) -> Result<Edge, ReadError>
    ensures reads { Gives result reader.new (edge_at context.now ty reader.old) }
    ensures shrinks { length reader.new ≤ length reader.old }
{
    reader.mark(Mark::OpenBracket)?;
    let value = value(alloc, reader, context, ty)?;
    reader.mark(Mark::Comma)?;
    let label = local(alloc, reader, context)?;
    reader.mark(Mark::CloseBracket)?;
    Ok(Edge { value, label })
}

/// Whether a token stands next that does not close the cases of a `switch`.
pub fn has_case(reader: &Reader<'_>) -> bool
    ensures { result ≡ has_case reader.now }
{
    match reader.rest {
        [] => false,
        [token, ..] => !is_mark(token.kind, Mark::CloseBracket),
    }
}

/// The type of a case.
fn case_type(reader: &mut Reader<'_>) -> Result<Scalar, ReadError>
    ensures reads { Gives result reader.new (scalar_at reader.old) }
    ensures shrinks { IfOk result (λ ty. length reader.new ≤ length (behind reader.old)) }
    ensures stays { length reader.new ≤ length reader.old }
{
    let [token, ..] = reader.rest else {
        return Err(reader.fault(FaultKind::Statement));
    };
    let scalar = reader.picked(scalar_in(token.kind), scalar_refusal(token.kind))?;
    Ok(scalar)
}

/// A case of a `switch` over this type: its type, its constant and its label. One of another type is kept with a
/// constant that does not fit.
///
/// A fault is at the first token that cannot stand there.
pub fn case(
    alloc: Global,
    reader: &mut Reader<'_>,
    context: &Context<'_>,
    ty: Scalar,
) -> Result<SwitchCase, ReadError>
    ensures reads { Gives result reader.new (case_at context.now ty reader.old) }
    ensures shrinks { IfOk result (λ c. length reader.new ≤ length (behind reader.old)) }
    ensures stays { length reader.new ≤ length reader.old }
{
    let other = case_type(reader)?;
    let constant = constant(alloc, reader, context, other)?;
    let label = next_label(alloc, reader, context)?;
    let value = Value::Constant(kept_constant(ty, other, constant));
    Ok(SwitchCase { value, label })
}
