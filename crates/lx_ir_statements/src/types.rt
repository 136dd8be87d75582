//! Types with names.

ghost use Rattle.std.specs.Prelude.{◌≡◌, ◌≤◌, length};
ghost use Rattle.lx_ir_terms.specs.Reading.{Gives, Passes, has, next_at};
ghost use Rattle.lx_ir_constants.specs.Constants.{first_name};
ghost use Rattle.lx_ir_statements.specs.Statements.{is_type_word, opens_struct, struct_at, new_type_at, type_statement_at};

use crate::defined::Defined;
use crate::form::Statement;
use lx_ir::types::IrType;
use lx_ir_terms::{Context, FaultKind, ReadError, Reader, is_mark, refusal};
use lx_ir_tokens::{Keyword, Kind, Mark, StatementWord, Tok};
use std::alloc::Global;

/// Goes over the word `type`.
fn type_word(reader: &mut Reader<'_>) -> Result<(), ReadError>
    ensures reads { Passes result reader.new (next_at is_type_word reader.old) }
    ensures shrinks { length reader.new ≤ length reader.old }
{
    match reader.rest {
        [
            Tok {
                kind: Kind::Word(Keyword::Statement(StatementWord::NamedType)),
                ..
            },
            rest @ ..,
        ] => {
            reader.rest = rest;
            Ok(())
        }
        _ => Err(reader.fault(FaultKind::Statement)),
    }
}

/// Whether a mark opens a struct.
fn opens_struct(kind: Kind) -> bool
    ensures { result ≡ opens_struct kind }
{
    is_mark(kind, Mark::OpenBrace) || is_mark(kind, Mark::Less)
}

/// The struct that a name names.
fn structure(
    alloc: Global,
    reader: &mut Reader<'_>,
    context: &Context<'_>,
) -> Result<IrType, ReadError>
    ensures reads { Gives result reader.new (struct_at context.now reader.old) }
    ensures shrinks { length reader.new ≤ length reader.old }
{
    let [token, ..] = reader.rest else {
        return Err(reader.fault(FaultKind::Statement));
    };
    if !opens_struct(token.kind) {
        return Err(reader.fault(refusal(token.kind)));
    }
    let ty = reader.ty(alloc, context)?;
    Ok(ty)
}

/// The number of the name of the next token.
fn first_name(reader: &Reader<'_>) -> u32
    ensures { result ≡ first_name reader.now }
{
    match reader.rest {
        [] => 0,
        [token, ..] => token.name,
    }
}

/// A type with its name, at the name.
fn new_type(
    alloc: Global,
    reader: &mut Reader<'_>,
    context: &Context<'_>,
) -> Result<Statement, ReadError>
    ensures reads { Gives result reader.new (new_type_at context.now reader.old) }
    ensures shrinks { length reader.new ≤ length reader.old }
{
    let name = first_name(reader);
    reader.ty(alloc, context)?;
    reader.mark(Mark::Equal)?;
    type_word(reader)?;
    let ty = structure(alloc, reader, context)?;
    Ok(Statement::Type { name, ty })
}

/// A type with its name, which no statement before defines.
pub fn type_statement(
    alloc: Global,
    reader: &mut Reader<'_>,
    context: &Context<'_>,
    defined: &Defined,
) -> Result<Statement, ReadError>
    ensures reads { Gives result reader.new (type_statement_at context.now defined.now reader.old) }
    ensures shrinks { length reader.new ≤ length reader.old }
{
    if defined.has_type(first_name(reader)) {
        return Err(reader.fault(FaultKind::Twice));
    }
    let statement = new_type(alloc, reader, context)?;
    Ok(statement)
}
