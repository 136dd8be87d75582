//! Reading constant pointers.

ghost use Rattle.std.specs.Prelude.{◌≡◌, ◌≤◌, length};
ghost use Rattle.lx_words.specs.declared.word.Width.TheVariants.{W64};
ghost use Rattle.lx_ir_terms.specs.Reading.{Gives, Passes, has, items_at, closed_at};
ghost use Rattle.lx_ir_constants.specs.Constants.{constant_refusal, number_refusal, number_at, is_flag_word, skipped, word_refusal, when, opened_at, is_pointer_word, is_long_word, form_type_at, is_element_word, is_address_word, blank_of, pointer_of_word, flat_pointer_of, flat_pointer_at, index_at, element_behind, address_behind, begins_pointer, nested_pointer_at, pointer_at};

use crate::element::{Element, address_of};
use crate::numbers::number_in;
use lx_ir::module::{Blank, Pointer};
use lx_ir_terms::{Context, DEPTH_LIMIT, FaultKind, ReadError, Reader, is_mark, refusal};
use lx_ir_tokens::{
    ConstantWord, ConversionWord, InstructionWord, Keyword, Kind, Mark, ScalarWord, Tok,
};
use lx_words::{Items, Width, Word};
use std::alloc::Global;

/// How a token is refused where a constant has to stand.
pub fn constant_refusal(kind: Kind) -> FaultKind
    ensures { result ≡ constant_refusal kind }
{
    match kind {
        Kind::Number { .. } => FaultKind::OutOfProfile,
        Kind::Global => FaultKind::Unknown,
        _ => refusal(kind),
    }
}

/// How a token is refused where a number has to stand.
fn number_refusal(kind: Kind) -> FaultKind
    ensures { result ≡ number_refusal kind }
{
    match kind {
        Kind::Number { .. } => FaultKind::OutOfProfile,
        _ => refusal(kind),
    }
}

/// How a token is refused where words are passed over.
pub fn word_refusal(kind: Kind) -> FaultKind
    ensures { result ≡ word_refusal kind }
{
    match kind {
        Kind::Word(_) => FaultKind::OutOfProfile,
        _ => FaultKind::Statement,
    }
}

fn is_flag_word(kind: Kind) -> bool
    ensures { result ≡ is_flag_word kind }
{
    matches!(kind, Kind::Word(Keyword::Flag))
}

fn is_pointer_word(kind: Kind) -> bool
    ensures { result ≡ is_pointer_word kind }
{
    matches!(kind, Kind::Word(Keyword::Scalar(ScalarWord::Ptr)))
}

fn is_long_word(kind: Kind) -> bool
    ensures { result ≡ is_long_word kind }
{
    matches!(
        kind,
        Kind::Word(Keyword::Scalar(ScalarWord::Int(Width::W64)))
    )
}

fn is_element_word(kind: Kind) -> bool
    ensures { result ≡ is_element_word kind }
{
    matches!(
        kind,
        Kind::Word(Keyword::Instruction(InstructionWord::GetElementPtr))
    )
}

fn is_address_word(kind: Kind) -> bool
    ensures { result ≡ is_address_word kind }
{
    matches!(
        kind,
        Kind::Word(Keyword::Instruction(InstructionWord::Conversion(ConversionWord::IntToPtr)))
    )
}

/// Whether a word begins an expression that is a pointer.
pub fn begins_pointer(kind: Kind) -> bool
    ensures { result ≡ begins_pointer kind }
{
    is_element_word(kind) || is_address_word(kind)
}

/// The constants whose bytes are all 0.
pub fn blank_of(word: ConstantWord) -> Option<Blank>
    ensures { result ≡ blank_of word }
{
    match word {
        ConstantWord::Undef => Some(Blank::Undef),
        ConstantWord::Poison => Some(Blank::Poison),
        ConstantWord::Zero => Some(Blank::Zero),
        ConstantWord::True | ConstantWord::False | ConstantWord::Null => None,
    }
}

fn pointer_of_word(word: ConstantWord) -> Option<Pointer>
    ensures { result ≡ pointer_of_word word }
{
    match word {
        ConstantWord::Null => Some(Pointer::Null),
        _ => Some(Pointer::Blank(blank_of(word)?)),
    }
}

/// A pointer that is one token.
fn flat_pointer_of(context: &Context<'_>, token: Tok) -> Option<Pointer>
    ensures { result ≡ flat_pointer_of context.now token.kind token.name }
{
    match token.kind {
        Kind::Word(Keyword::Constant(word)) => pointer_of_word(word),
        Kind::Global => Some(Pointer::Symbol(context.symbol(token.name)?, 0)),
        _ => None,
    }
}

/// Something without content, where the test holds.
fn when(test: bool) -> Option<()>
    ensures { result ≡ when test }
{
    if test { Some(()) } else { None }
}

/// A number at an integer type.
pub fn number(reader: &mut Reader<'_>, width: Width) -> Result<Word, ReadError>
    ensures reads { Gives result reader.new (number_at width reader.old) }
    ensures shrinks { length reader.new ≤ length reader.old }
{
    let [token, ..] = reader.rest else {
        return Err(reader.fault(FaultKind::Statement));
    };
    let word = reader.picked(number_in(width, token.kind), number_refusal(token.kind))?;
    Ok(word)
}

/// Whether a flag stands next.
fn has_flag(reader: &Reader<'_>) -> bool
    ensures { result ≡ has is_flag_word reader.now }
{
    match reader.rest {
        [] => false,
        [token, ..] => is_flag_word(token.kind),
    }
}

/// Goes over the flags that stand next.
#[tactic(auto, using(crate::proofs::Skips::skips))]
fn skip_flags(reader: &mut Reader<'_>)
    ensures passed { reader.new ≡ skipped is_flag_word reader.old }
    ensures shrinks { length reader.new ≤ length reader.old }
{
    while has_flag(reader) {
        reader.skip();
    }
}

/// Goes over flags, and the parenthesis behind them.
pub fn opened(reader: &mut Reader<'_>) -> Result<(), ReadError>
    ensures reads { Passes result reader.new (opened_at reader.old) }
    ensures shrinks { length reader.new ≤ length reader.old }
{
    skip_flags(reader);
    let [token, ..] = reader.rest else {
        return Err(reader.fault(FaultKind::Statement));
    };
    let is_open = is_mark(token.kind, Mark::OpenParenthesis);
    reader.picked(when(is_open), word_refusal(token.kind))?;
    Ok(())
}

/// Goes over the `ptr` of a form.
pub fn pointer_word(reader: &mut Reader<'_>) -> Result<(), ReadError>
    ensures reads { Passes result reader.new (form_type_at is_pointer_word reader.old) }
    ensures shrinks { length reader.new ≤ length reader.old }
{
    let [token, ..] = reader.rest else {
        return Err(reader.fault(FaultKind::Statement));
    };
    reader.picked(when(is_pointer_word(token.kind)), refusal(token.kind))?;
    Ok(())
}

/// Goes over the `i64` of a form.
fn long_word(reader: &mut Reader<'_>) -> Result<(), ReadError>
    ensures reads { Passes result reader.new (form_type_at is_long_word reader.old) }
    ensures shrinks { length reader.new ≤ length reader.old }
{
    let [token, ..] = reader.rest else {
        return Err(reader.fault(FaultKind::Statement));
    };
    reader.picked(when(is_long_word(token.kind)), refusal(token.kind))?;
    Ok(())
}

/// An index of a `getelementptr`, behind its type.
fn index(reader: &mut Reader<'_>) -> Result<Word, ReadError>
    ensures reads { Gives result reader.new (index_at reader.old) }
    ensures shrinks { length reader.new ≤ length reader.old }
{
    let width = reader.integer()?;
    let index = number(reader, width)?;
    Ok(index)
}

/// One index or more.
fn some_indices(alloc: Global, reader: &mut Reader<'_>) -> Result<Items<Word>, ReadError>
    ensures reads { Gives result reader.new (items_at index_at reader.old) }
    ensures shrinks { length reader.new ≤ length reader.old }
{
    let mut indices = Items::new(alloc);
    indices.push(index(reader)?)?;
    while reader.takes(Mark::Comma) {
        let next = index(reader)?;
        indices.push(next)?;
    }
    Ok(indices)
}

/// The indices, and the parenthesis behind them.
fn indices(alloc: Global, reader: &mut Reader<'_>) -> Result<Items<Word>, ReadError>
    ensures reads { Gives result reader.new (closed_at Mark.CloseParenthesis index_at reader.old) }
    ensures shrinks { length reader.new ≤ length reader.old }
{
    let indices = some_indices(alloc, reader)?;
    reader.mark(Mark::CloseParenthesis)?;
    Ok(indices)
}

/// The operands of a constant `getelementptr` behind its word, with so many nestings left for its pointer.
#[cycle(pointers)]
pub fn element_within(
    alloc: Global,
    reader: &mut Reader<'_>,
    context: &Context<'_>,
    depth: u32,
) -> Result<Element, ReadError>
    ensures reads { Gives result reader.new (element_behind context.now (pointer_at context.now depth) reader.old) }
    ensures shrinks { length reader.new ≤ length reader.old }
{
    opened(reader)?;
    let ty = reader.ty(alloc, context)?;
    reader.mark(Mark::Comma)?;
    pointer_word(reader)?;
    let base = pointer_within(alloc, reader, context, depth)?;
    reader.mark(Mark::Comma)?;
    let indices = indices(alloc, reader)?;
    Ok(Element { ty, base, indices })
}

/// An `inttoptr` behind its word.
fn address(reader: &mut Reader<'_>) -> Result<Pointer, ReadError>
    ensures reads { Gives result reader.new (address_behind reader.old) }
    ensures shrinks { length reader.new ≤ length reader.old }
{
    opened(reader)?;
    long_word(reader)?;
    let number = number(reader, Width::W64)?;
    reader.to()?;
    pointer_word(reader)?;
    reader.mark(Mark::CloseParenthesis)?;
    Ok(Pointer::Number(number.bits))
}

/// Whether a word that begins an expression that is a pointer stands next.
fn has_pointer_expression(reader: &Reader<'_>) -> bool
    ensures { result ≡ has begins_pointer reader.now }
{
    match reader.rest {
        [] => false,
        [token, ..] => begins_pointer(token.kind),
    }
}

/// Whether the word of a `getelementptr` stands next.
pub fn has_element_word(reader: &Reader<'_>) -> bool
    ensures { result ≡ has is_element_word reader.now }
{
    match reader.rest {
        [] => false,
        [token, ..] => is_element_word(token.kind),
    }
}

/// A pointer that is one token.
fn flat_pointer(reader: &mut Reader<'_>, context: &Context<'_>) -> Result<Pointer, ReadError>
    ensures reads { Gives result reader.new (flat_pointer_at context.now reader.old) }
    ensures shrinks { length reader.new ≤ length reader.old }
{
    let [token, ..] = reader.rest else {
        return Err(reader.fault(FaultKind::Statement));
    };
    let pointer = reader.picked(
        flat_pointer_of(context, *token),
        constant_refusal(token.kind),
    )?;
    Ok(pointer)
}

/// A `getelementptr` or an `inttoptr`.
#[cycle(pointers)]
fn nested_pointer(
    alloc: Global,
    reader: &mut Reader<'_>,
    context: &Context<'_>,
    depth: u32,
) -> Result<Pointer, ReadError>
    ensures reads { Gives result reader.new (nested_pointer_at context.now (pointer_at context.now depth) reader.old) }
    ensures shrinks { length reader.new ≤ length reader.old }
{
    if has_element_word(reader) {
        reader.skip();
        let element = element_within(alloc, reader, context, depth)?;
        return Ok(address_of(context, &element));
    }
    reader.skip();
    let address = address(reader)?;
    Ok(address)
}

/// A constant pointer, with so many nestings left.
#[cycle(pointers)]
#[tactic(auto, unfolding(crate::specs::Constants::pointer_at))]
pub fn pointer_within(
    alloc: Global,
    reader: &mut Reader<'_>,
    context: &Context<'_>,
    depth: u32,
) -> Result<Pointer, ReadError>
    ensures reads { Gives result reader.new (pointer_at context.now depth reader.old) }
    ensures shrinks { length reader.new ≤ length reader.old }
{
    if !has_pointer_expression(reader) {
        let flat = flat_pointer(reader, context)?;
        return Ok(flat);
    }
    if depth == 0 {
        return Err(reader.fault(FaultKind::OutOfProfile));
    }
    let nested = nested_pointer(alloc, reader, context, depth - 1)?;
    Ok(nested)
}
