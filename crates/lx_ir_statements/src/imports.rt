//! Imports.

ghost use Rattle.std.specs.Prelude.{◌≡◌, ◌≤◌, length};
ghost use Rattle.lx_ir_terms.specs.Reading.{Gives};
ghost use Rattle.lx_ir_statements.specs.Statements.{import_behind};

use crate::defined::Defined;
use crate::form::Statement;
use crate::symbols::import_name;
use crate::{import_attributes, import_parameters};
use lx_ir_terms::{Context, ReadError, Reader};
use std::alloc::Global;

/// An import behind `declare`.
pub fn import(
    alloc: Global,
    reader: &mut Reader<'_>,
    context: &Context<'_>,
    defined: &Defined,
) -> Result<Statement, ReadError>
    ensures reads { Gives result reader.new (import_behind context.now defined.now reader.old) }
    ensures shrinks { length reader.new ≤ length reader.old }
{
    let ret = reader.passed_result(true)?;
    let name = import_name(reader, context, defined)?;
    let params = import_parameters(alloc, reader)?;
    import_attributes(reader)?;
    Ok(Statement::Import { name, ret, params })
}
