//! The text of a module.
ghost use Rattle.std.specs.Prelude.{◌≡◌, ◌++◌, ◌+◌, OnOk, IfOk, flat_map};
ghost use Rattle.lx_ir.specs.Text.{module_text, named_type_text, global_var_text, storage_word, function_text};

mod constants;
mod ends;
mod functions;
mod line;
mod operands;
mod pieces;
mod types;
mod values;

use crate::module::{GlobalVar, Module};
use crate::types::NamedType;
use constants::put_init;
use functions::put_function;
use lx_words::Memory;
use pieces::{put, put_global, put_local};
use std::alloc::Global;
use types::put_type;

/// The text of a module, which reads again as the same module.
pub fn print(alloc: Global, m: &Module) -> Result<Vec<u8>, Memory>
    ensures { IfOk result (λ text. text.items ≡ module_text m.now) }
{
    let mut out = Vec::new(alloc);
    put_types(&mut out, m)?;
    put_globals(&mut out, m)?;
    put_functions(&mut out, m)?;
    Ok(out)
}

/// Appends the named types, a line each.
fn put_types(out: &mut Vec<u8>, m: &Module) -> Result<(), Memory>
    ensures { OnOk result (out.new.items ≡ out.old.items ++ flat_map (named_type_text m.now) m.now.types) }
{
    for entry in m.types.as_slice() {
        put_named_type(out, m, entry)?;
    }
    Ok(())
}

fn put_named_type(out: &mut Vec<u8>, m: &Module, entry: &NamedType) -> Result<(), Memory>
    ensures { OnOk result (out.new.items ≡ out.old.items ++ named_type_text m.now entry.now) }
{
    put_local(out, entry.name.as_slice())?;
    put(out, b" = type ")?;
    put_type(out, m, &entry.ty)?;
    put(out, b"\n")
}

/// Appends the globals, a line each.
fn put_globals(out: &mut Vec<u8>, m: &Module) -> Result<(), Memory>
    ensures { OnOk result (out.new.items ≡ out.old.items ++ flat_map (global_var_text m.now) m.now.globals) }
{
    for global in m.globals.as_slice() {
        put_global_var(out, m, global)?;
    }
    Ok(())
}

fn put_global_var(out: &mut Vec<u8>, m: &Module, global: &GlobalVar) -> Result<(), Memory>
    ensures { OnOk result (out.new.items ≡ out.old.items ++ global_var_text m.now global.now) }
{
    put_global(out, global.name.as_slice())?;
    put(out, storage_word(global.constant))?;
    put_type(out, m, &global.ty)?;
    put(out, b" ")?;
    put_init(out, m, &global.init)?;
    put(out, b"\n")
}

fn storage_word(constant: bool) -> &'static [u8]
    ensures { result.now ≡ storage_word constant }
{
    if constant {
        b" = constant "
    } else {
        b" = global "
    }
}

/// Appends the imports and the functions.
fn put_functions(out: &mut Vec<u8>, m: &Module) -> Result<(), Memory>
    ensures { OnOk result (out.new.items ≡ out.old.items ++ flat_map (function_text m.now) m.now.functions) }
{
    for function in m.functions.as_slice() {
        put_function(out, m, function)?;
    }
    Ok(())
}
