//! Functions that are defined.

ghost use Rattle.std.specs.Prelude.{◌≡◌, ◌≤◌, length};
ghost use Rattle.lx_ir_terms.specs.Reading.{Gives};
ghost use Rattle.lx_ir_statements.specs.Statements.{function_behind};

use crate::defined::Defined;
use crate::form::Statement;
use crate::symbols::new_function_name;
use crate::{blocks, function_attributes, parameters};
use lx_ir_calls::TextForm;
use lx_ir_terms::{Context, ReadError, Reader};
use lx_ir_tokens::Mark;
use lx_words::Token;
use std::alloc::Global;

/// A function behind `define`.
pub fn function(
    alloc: Global,
    reader: &mut Reader<'_>,
    context: &Context<'_>,
    form: TextForm,
    places: &[Token],
    defined: &Defined,
) -> Result<Statement, ReadError>
    ensures reads { Gives result reader.new (function_behind context.now form places.now defined.now reader.old) }
    ensures shrinks { length reader.new ≤ length reader.old }
{
    let ret = reader.passed_result(true)?;
    let name = new_function_name(reader, context, defined)?;
    let head = parameters(alloc, reader, context)?;
    function_attributes(reader)?;
    reader.mark(Mark::OpenBrace)?;
    let blocks = blocks(
        alloc,
        reader,
        context,
        form,
        places,
        head.numbered,
        head.registers,
    )?;
    Ok(Statement::Function {
        name,
        ret,
        params: head.params,
        blocks,
    })
}
