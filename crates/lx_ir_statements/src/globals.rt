//! Globals.

ghost use Rattle.std.specs.Prelude.{◌≡◌, ◌≤◌, length};
ghost use Rattle.lx_ir_terms.specs.Reading.{Gives, Passes};
ghost use Rattle.lx_ir_statements.specs.Statements.{storage_in, storage_at, global_align_at, global_at};

use crate::defined::Defined;
use crate::form::Statement;
use crate::skip_linkage;
use crate::symbols::new_symbol;
use lx_ir_constants::init;
use lx_ir_operands::{one_align, word_refusal};
use lx_ir_terms::{Context, FaultKind, ReadError, Reader};
use lx_ir_tokens::{Keyword, Kind, Mark, StatementWord};
use std::alloc::Global;

/// Whether the word of a global says that it is constant.
fn storage_in(kind: Kind) -> Option<bool>
    ensures { result ≡ storage_in kind }
{
    match kind {
        Kind::Word(Keyword::Statement(StatementWord::Global)) => Some(false),
        Kind::Word(Keyword::Statement(StatementWord::Constant)) => Some(true),
        _ => None,
    }
}

/// The word of a global behind words that are passed over.
fn storage(reader: &mut Reader<'_>) -> Result<bool, ReadError>
    ensures reads { Gives result reader.new (storage_at reader.old) }
    ensures shrinks { length reader.new ≤ length reader.old }
{
    skip_linkage(reader);
    let [token, ..] = reader.rest else {
        return Err(reader.fault(FaultKind::Statement));
    };
    let constant = reader.picked(storage_in(token.kind), word_refusal(token.kind))?;
    Ok(constant)
}

/// Goes over the alignment of a global, where one stands next.
fn global_align(reader: &mut Reader<'_>) -> Result<(), ReadError>
    ensures reads { Passes result reader.new (global_align_at reader.old) }
    ensures shrinks { length reader.new ≤ length reader.old }
{
    if reader.has(Mark::Comma) {
        reader.skip();
        one_align(reader)?;
    }
    Ok(())
}

/// A global, at its name.
pub fn global(
    alloc: Global,
    reader: &mut Reader<'_>,
    context: &Context<'_>,
    defined: &Defined,
) -> Result<Statement, ReadError>
    ensures reads { Gives result reader.new (global_at context.now defined.now reader.old) }
    ensures shrinks { length reader.new ≤ length reader.old }
{
    let name = new_symbol(reader, defined)?;
    reader.mark(Mark::Equal)?;
    let constant = storage(reader)?;
    let ty = reader.ty(alloc, context)?;
    let init = init(alloc, reader, context, &ty)?;
    global_align(reader)?;
    Ok(Statement::Global {
        name,
        constant,
        ty,
        init,
    })
}
