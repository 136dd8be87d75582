//! Names of functions and globals where they are defined.

ghost use Rattle.std.specs.Prelude.{◌≡◌, ◌≤◌, length};
ghost use Rattle.lx_ir_terms.specs.Reading.{Gives};
ghost use Rattle.lx_ir_statements.specs.Statements.{symbol_name, next_symbol, symbol_at, new_symbol_at, import_name_at, new_function_name_at};

use crate::defined::{Defined, names_block_write};
use lx_ir_terms::{Context, FaultKind, ReadError, Reader};
use lx_ir_tokens::{Kind, Tok};

fn symbol_name(token: Tok) -> Option<u32>
    ensures { result ≡ symbol_name token.kind token.name }
{
    match token.kind {
        Kind::Global => Some(token.name),
        _ => None,
    }
}

/// The name behind `@` that stands next.
fn next_symbol(reader: &Reader<'_>) -> Option<u32>
    ensures { result ≡ next_symbol reader.now }
{
    match reader.rest {
        [] => None,
        [token, ..] => symbol_name(*token),
    }
}

/// A name behind `@`.
fn symbol(reader: &mut Reader<'_>) -> Result<u32, ReadError>
    ensures reads { Gives result reader.new (symbol_at reader.old) }
    ensures shrinks { length reader.new ≤ length reader.old }
{
    let [token, ..] = reader.rest else {
        return Err(reader.fault(FaultKind::Statement));
    };
    let name = reader.picked(symbol_name(*token), FaultKind::Statement)?;
    Ok(name)
}

/// A name behind `@` that no statement before defines.
pub fn new_symbol(reader: &mut Reader<'_>, defined: &Defined) -> Result<u32, ReadError>
    ensures reads { Gives result reader.new (new_symbol_at defined.now reader.old) }
    ensures shrinks { length reader.new ≤ length reader.old }
{
    if defined.symbols.has_some(next_symbol(reader)) {
        return Err(reader.fault(FaultKind::Twice));
    }
    let name = symbol(reader)?;
    Ok(name)
}

/// The name of an import, which no statement before defines, or of a block write.
pub fn import_name(
    reader: &mut Reader<'_>,
    context: &Context<'_>,
    defined: &Defined,
) -> Result<u32, ReadError>
    ensures reads { Gives result reader.new (import_name_at context.now defined.now reader.old) }
    ensures shrinks { length reader.new ≤ length reader.old }
{
    if defined.is_imported_twice(context, next_symbol(reader)) {
        return Err(reader.fault(FaultKind::Twice));
    }
    let name = symbol(reader)?;
    Ok(name)
}

/// The name of a function with a body, which no statement before defines, and which is no block write's.
pub fn new_function_name(
    reader: &mut Reader<'_>,
    context: &Context<'_>,
    defined: &Defined,
) -> Result<u32, ReadError>
    ensures reads { Gives result reader.new (new_function_name_at context.now defined.now reader.old) }
    ensures shrinks { length reader.new ≤ length reader.old }
{
    let next = next_symbol(reader);
    if defined.symbols.has_some(next) {
        return Err(reader.fault(FaultKind::Twice));
    }
    if names_block_write(context, next) {
        return Err(reader.fault(FaultKind::OutOfProfile));
    }
    let name = symbol(reader)?;
    Ok(name)
}
