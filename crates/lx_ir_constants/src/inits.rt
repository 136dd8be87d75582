//! Reading initialisers.

ghost use Rattle.std.specs.Prelude.{◌≡◌, ◌≤◌, [], length, option_map, IfOk};
ghost use Rattle.lx_ir.specs.Init.{Bytes};
ghost use Rattle.lx_ir_terms.specs.Reading.{Gives, has};
ghost use Rattle.lx_ir_terms.specs.Types.{depth_limit};
ghost use Rattle.lx_ir_constants.specs.Inits.{init_of_word, symbol_init, number_init, flat_init_of, flat_init_at, leaf_at, member_at, members_of, some_members_at, braced_at, bracketed_at, group, packed_group_behind, group_at, init_at};

use crate::constants::{expression, has_expression};
use crate::numbers::number_in;
use crate::pointers::{blank_of, constant_refusal};
use lx_ir::module::{Brackets, Constant, Init, InitNode, Pointer, Symbol};
use lx_ir::types::{IrType, Scalar, TypeNode};
use lx_ir_terms::{Context, DEPTH_LIMIT, FaultKind, ReadError, Reader};
use lx_ir_tokens::{ConstantWord, Keyword, Kind, Mark, Tok};
use lx_words::{Items, Memory};
use std::alloc::Global;

/// An item of a group, with its type.
#[derive(Drop)]
struct Member {
    ty: IrType,
    init: Init,
}

/// The items of a group, and their types.
#[derive(Drop)]
struct Members {
    types: Items<IrType>,
    inits: Items<Init>,
}

fn init_of_word(word: ConstantWord) -> Option<Init>
    ensures { result ≡ init_of_word word }
{
    let node = match word {
        ConstantWord::True => InitNode::Plain(Constant::Truth(true)),
        ConstantWord::False => InitNode::Plain(Constant::Truth(false)),
        ConstantWord::Null => InitNode::Plain(Constant::Pointer(Pointer::Null)),
        _ => InitNode::Blank(blank_of(word)?),
    };
    Some(Init { node })
}

fn number_init(ty: &IrType, kind: Kind) -> Option<Init>
    ensures { result ≡ number_init ty.now kind }
{
    match &ty.node {
        TypeNode::Scalar(Scalar::Int(width)) => {
            let node = InitNode::Plain(Constant::Number(number_in(*width, kind)?));
            Some(Init { node })
        }
        _ => None,
    }
}

/// A byte string.
fn bytes_init(alloc: Global, bytes: &[u8]) -> Result<Init, Memory>
    ensures { IfOk result (λ init. init ≡ Bytes bytes.now) }
{
    let node = InitNode::Bytes(Items::from_bytes(alloc, bytes)?);
    Ok(Init { node })
}

/// An initialiser that is one token.
fn flat_init_of(
    alloc: Global,
    context: &Context<'_>,
    ty: &IrType,
    token: Tok,
) -> Result<Option<Init>, Memory>
    ensures { IfOk result (λ init. init ≡ flat_init_of context.now ty.now token.kind token.name) }
{
    match token.kind {
        Kind::Word(Keyword::Constant(word)) => Ok(init_of_word(word)),
        Kind::Global => Ok(symbol_init(context.symbol(token.name))),
        Kind::Number { .. } => Ok(number_init(ty, token.kind)),
        Kind::Bytes => {
            let init = bytes_init(alloc, context.bytes(token.name))?;
            Ok(Some(init))
        }
        _ => Ok(None),
    }
}

fn symbol_init(symbol: Option<Symbol>) -> Option<Init>
    ensures { result ≡ option_map symbol_init symbol }
{
    let node = InitNode::Plain(Constant::Pointer(Pointer::Symbol(symbol?, 0)));
    Some(Init { node })
}

/// An initialiser that is one token.
fn flat_init(
    alloc: Global,
    reader: &mut Reader<'_>,
    context: &Context<'_>,
    ty: &IrType,
) -> Result<Init, ReadError>
    ensures reads { Gives result reader.new (flat_init_at context.now ty.now reader.old) }
    ensures shrinks { length reader.new ≤ length reader.old }
{
    let [token, ..] = reader.rest else {
        return Err(reader.fault(FaultKind::Statement));
    };
    let picked = flat_init_of(alloc, context, ty, *token)?;
    let init = reader.picked(picked, constant_refusal(token.kind))?;
    Ok(init)
}

/// An initialiser without others in it.
fn leaf(
    alloc: Global,
    reader: &mut Reader<'_>,
    context: &Context<'_>,
    depth: u32,
    ty: &IrType,
) -> Result<Init, ReadError>
    ensures reads { Gives result reader.new (leaf_at context.now depth ty.now reader.old) }
    ensures shrinks { length reader.new ≤ length reader.old }
{
    if has_expression(reader) {
        let node = InitNode::Plain(expression(alloc, reader, context, depth)?);
        return Ok(Init { node });
    }
    let flat = flat_init(alloc, reader, context, ty)?;
    Ok(flat)
}

fn group(brackets: Brackets, members: Members) -> Init
    ensures { result ≡ group brackets members }
{
    let node = InitNode::Group(brackets, members.types, members.inits.into_vec());
    Init { node }
}

impl Members {
    fn none(alloc: Global) -> Self
        ensures { result ≡ members_of [] }
    {
        Members {
            types: Items::new(alloc),
            inits: Items::new(alloc),
        }
    }
}

/// An item of a group behind its type, with so many nestings left for it.
#[cycle(inits)]
fn one_member(
    alloc: Global,
    reader: &mut Reader<'_>,
    context: &Context<'_>,
    depth: u32,
) -> Result<Member, ReadError>
    ensures reads { Gives result reader.new (member_at context.now (init_at context.now depth) reader.old) }
    ensures shrinks { length reader.new ≤ length reader.old }
{
    let ty = reader.ty(alloc, context)?;
    let init = init_within(alloc, reader, context, depth, &ty)?;
    Ok(Member { ty, init })
}

/// One item of a group or more.
#[cycle(inits)]
fn some_members(
    alloc: Global,
    reader: &mut Reader<'_>,
    context: &Context<'_>,
    depth: u32,
) -> Result<Members, ReadError>
    ensures reads { Gives result reader.new (some_members_at (member_at context.now (init_at context.now depth)) reader.old) }
    ensures shrinks { length reader.new ≤ length reader.old }
{
    let mut types = Items::new(alloc);
    let mut inits = Items::new(alloc);
    let first = one_member(alloc, reader, context, depth)?;
    types.push(first.ty)?;
    inits.push(first.init)?;
    while reader.takes(Mark::Comma) {
        let next = one_member(alloc, reader, context, depth)?;
        types.push(next.ty)?;
        inits.push(next.init)?;
    }
    Ok(Members { types, inits })
}

/// The items of a group up to its closing brace.
#[cycle(inits)]
fn braced(
    alloc: Global,
    reader: &mut Reader<'_>,
    context: &Context<'_>,
    depth: u32,
) -> Result<Members, ReadError>
    ensures reads { Gives result reader.new (braced_at (member_at context.now (init_at context.now depth)) reader.old) }
    ensures shrinks { length reader.new ≤ length reader.old }
{
    if reader.takes(Mark::CloseBrace) {
        return Ok(Members::none(alloc));
    }
    let members = some_members(alloc, reader, context, depth)?;
    reader.mark(Mark::CloseBrace)?;
    Ok(members)
}

/// The items of a group up to its closing bracket.
#[cycle(inits)]
fn bracketed(
    alloc: Global,
    reader: &mut Reader<'_>,
    context: &Context<'_>,
    depth: u32,
) -> Result<Members, ReadError>
    ensures reads { Gives result reader.new (bracketed_at (member_at context.now (init_at context.now depth)) reader.old) }
    ensures shrinks { length reader.new ≤ length reader.old }
{
    if reader.takes(Mark::CloseBracket) {
        return Ok(Members::none(alloc));
    }
    let members = some_members(alloc, reader, context, depth)?;
    reader.mark(Mark::CloseBracket)?;
    Ok(members)
}

/// A packed struct behind its `<`.
#[cycle(inits)]
fn packed_group(
    alloc: Global,
    reader: &mut Reader<'_>,
    context: &Context<'_>,
    depth: u32,
) -> Result<Init, ReadError>
    ensures reads { Gives result reader.new (packed_group_behind (member_at context.now (init_at context.now depth)) reader.old) }
    ensures shrinks { length reader.new ≤ length reader.old }
{
    reader.mark(Mark::OpenBrace)?;
    let members = braced(alloc, reader, context, depth)?;
    reader.mark(Mark::Greater)?;
    Ok(group(Brackets::Packed, members))
}

/// An array or a struct, with so many nestings left for its items.
#[cycle(inits)]
fn nested_init(
    alloc: Global,
    reader: &mut Reader<'_>,
    context: &Context<'_>,
    depth: u32,
) -> Result<Init, ReadError>
    ensures reads { Gives result reader.new (group_at (member_at context.now (init_at context.now depth)) reader.old) }
    ensures shrinks { length reader.new ≤ length reader.old }
{
    if reader.takes(Mark::OpenBracket) {
        let members = bracketed(alloc, reader, context, depth)?;
        return Ok(group(Brackets::Array, members));
    }
    if reader.takes(Mark::OpenBrace) {
        let members = braced(alloc, reader, context, depth)?;
        return Ok(group(Brackets::Struct, members));
    }
    reader.skip();
    let packed = packed_group(alloc, reader, context, depth)?;
    Ok(packed)
}

/// An initialiser with its type before it, with so many nestings left.
#[cycle(inits)]
#[tactic(auto, unfolding(crate::specs::Inits::init_at))]
fn init_within(
    alloc: Global,
    reader: &mut Reader<'_>,
    context: &Context<'_>,
    depth: u32,
    ty: &IrType,
) -> Result<Init, ReadError>
    ensures reads { Gives result reader.new (init_at context.now depth ty.now reader.old) }
    ensures shrinks { length reader.new ≤ length reader.old }
{
    if !reader.opens_type() {
        let leaf = leaf(alloc, reader, context, depth, ty)?;
        return Ok(leaf);
    }
    if depth == 0 {
        return Err(reader.fault(FaultKind::OutOfProfile));
    }
    let nested = nested_init(alloc, reader, context, depth - 1)?;
    Ok(nested)
}

/// An initialiser with its type before it.
pub fn init(
    alloc: Global,
    reader: &mut Reader<'_>,
    context: &Context<'_>,
    ty: &IrType,
) -> Result<Init, ReadError>
    ensures reads { Gives result reader.new (init_at context.now depth_limit ty.now reader.old) }
    ensures shrinks { length reader.new ≤ length reader.old }
{
    let init = init_within(alloc, reader, context, DEPTH_LIMIT, ty)?;
    Ok(init)
}
