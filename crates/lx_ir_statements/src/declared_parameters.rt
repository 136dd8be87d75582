//! The parameters of a function that is declared.

ghost use Rattle.std.specs.Prelude.{◌≡◌, ◌≤◌, length};
ghost use Rattle.lx_ir_terms.specs.Reading.{Gives, Passes, items_at, listed_at};
ghost use Rattle.lx_ir_statements.specs.Imports.{unkept_name_at, unkept_at, import_parameter_at, import_parameters_at};

use crate::words::has_any_word;
use lx_ir::types::Scalar;
use lx_ir_terms::{FaultKind, ReadError, Reader};
use lx_ir_tokens::{Kind, Mark, Tok};
use lx_words::Items;
use std::alloc::Global;

/// Goes over the name of an import's parameter, where one stands next.
#[tactic(auto, unfolding(crate::specs::Imports::unkept_name_at))]
fn unkept_name(reader: &mut Reader<'_>) -> Result<(), ReadError>
    ensures reads { Passes result reader.new (unkept_name_at reader.old) }
    ensures shrinks { length reader.new ≤ length reader.old }
{
    if has_any_word(reader) {
        return Err(reader.fault(FaultKind::OutOfProfile));
    }
    if let [
        Tok {
            kind: Kind::Local,
            ..
        },
        rest @ ..,
    ] = reader.rest
    {
        reader.rest = rest;
    }
    Ok(())
}

/// Goes over the words and the name behind a type.
fn unkept(reader: &mut Reader<'_>) -> Result<(), ReadError>
    ensures reads { Passes result reader.new (unkept_at reader.old) }
    ensures shrinks { length reader.new ≤ length reader.old }
{
    reader.passed(false)?;
    unkept_name(reader)?;
    Ok(())
}

/// The type of a parameter, with the words and the name behind it that are not kept.
fn import_parameter(reader: &mut Reader<'_>) -> Result<Scalar, ReadError>
    ensures reads { Gives result reader.new (import_parameter_at reader.old) }
    ensures shrinks { length reader.new ≤ length reader.old }
{
    let ty = reader.scalar()?;
    unkept(reader)?;
    Ok(ty)
}

/// One parameter or more.
fn some_parameters(alloc: Global, reader: &mut Reader<'_>) -> Result<Items<Scalar>, ReadError>
    ensures reads { Gives result reader.new (items_at import_parameter_at reader.old) }
    ensures shrinks { length reader.new ≤ length reader.old }
{
    let first = import_parameter(reader)?;
    let mut params = Items::new(alloc);
    params.push(first)?;
    while reader.takes(Mark::Comma) {
        let next = import_parameter(reader)?;
        params.push(next)?;
    }
    Ok(params)
}

/// The parameters of an import behind their parenthesis.
fn listed_parameters(alloc: Global, reader: &mut Reader<'_>) -> Result<Items<Scalar>, ReadError>
    ensures reads { Gives result reader.new (listed_at Mark.CloseParenthesis import_parameter_at reader.old) }
    ensures shrinks { length reader.new ≤ length reader.old }
{
    if reader.takes(Mark::CloseParenthesis) {
        return Ok(Items::new(alloc));
    }
    let params = some_parameters(alloc, reader)?;
    reader.mark(Mark::CloseParenthesis)?;
    Ok(params)
}

/// The types of the parameters of a function that is declared, in their parentheses.
///
/// Words that are passed over and a name may stand behind a type, and are not kept; another word there is outside the
/// profile.
pub fn import_parameters(alloc: Global, reader: &mut Reader<'_>) -> Result<Items<Scalar>, ReadError>
    ensures reads { Gives result reader.new (import_parameters_at reader.old) }
    ensures shrinks { length reader.new ≤ length reader.old }
{
    reader.mark(Mark::OpenParenthesis)?;
    let params = listed_parameters(alloc, reader)?;
    Ok(params)
}
