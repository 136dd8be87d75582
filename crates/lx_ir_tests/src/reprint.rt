//! The text of a module that is read.

ghost use Rattle.std.specs.Prelude.{◌+◌, ◌^◌, ◌<◌, length, IfOk, IfErr};
ghost use Rattle.lx_ir_read.specs.Reading.{ModuleFails};
ghost use Rattle.lx_ir_tests.specs.Reprinted.{Reprints};

use lx_ir::print;
use lx_ir_read::{ReadFault, TextForm, read_module};
use std::alloc::Global;

/// The printed text of the module that a text says.
///
/// # Errors
/// The first fault of the text. `Memory` where there is not enough memory for the module or its text.
pub fn reprinted(alloc: Global, form: TextForm, bytes: &[u8]) -> Result<Vec<u8>, ReadFault>
    requires { length bytes.now + 1 < 2 ^ 32 }
    ensures text { IfOk result (λ text. Reprints form bytes.now text.items) }
    ensures fault { IfErr result (λ fault. ModuleFails form bytes.now fault) }
{
    let module = read_module(alloc, form, bytes)?;
    let text = print(alloc, &module)?;
    Ok(text)
}
