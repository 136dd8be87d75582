//! Reading statements.

ghost use Rattle.std.specs.Prelude.{◌≡◌, ◌≤◌, ◌<◌, length, IfOk};
ghost use Rattle.lx_ir_terms.specs.Reading.{Gives};
ghost use Rattle.lx_ir_statements.specs.Statements.{statement_at};

use crate::defined::Defined;
use crate::form::Statement;
use crate::functions::function;
use crate::globals::global;
use crate::imports::import;
use crate::types::type_statement;
use lx_ir_calls::TextForm;
use lx_ir_terms::{Context, FaultKind, ReadError, Reader, refusal};
use lx_ir_tokens::{Keyword, Kind, StatementWord};
use lx_words::Token;
use std::alloc::Global;

/// A statement, where the statements before define these names. `places` are those of all tokens of the text: an
/// instruction's line is that of its first token.
///
/// A fault is at the first token that cannot stand where it stands, at a word, type or number outside the profile, at the name of
/// a block write where a function has a body, at a name that is defined a second time, or at one that names nothing in a complete
/// context.
pub fn statement(
    alloc: Global,
    reader: &mut Reader<'_>,
    context: &Context<'_>,
    form: TextForm,
    places: &[Token],
    defined: &Defined,
) -> Result<Statement, ReadError>
    ensures reads { Gives result reader.new (statement_at context.now form places.now defined.now reader.old) }
    ensures shrinks { length reader.new ≤ length reader.old }
{
    let [token, ..] = reader.rest else {
        return Err(reader.fault(FaultKind::Statement));
    };
    let statement = match token.kind {
        Kind::Local => type_statement(alloc, reader, context, defined)?,
        Kind::Global => global(alloc, reader, context, defined)?,
        Kind::Word(Keyword::Statement(StatementWord::Declare)) => {
            reader.skip();
            import(alloc, reader, context, defined)?
        }
        Kind::Word(Keyword::Statement(StatementWord::Define)) => {
            reader.skip();
            function(alloc, reader, context, form, places, defined)?
        }
        _ => return Err(reader.fault(refusal(token.kind))),
    };
    Ok(statement)
}
