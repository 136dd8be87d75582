//! The text of operands.
ghost use Rattle.std.specs.Prelude.{◌≡◌, ◌++◌, OnOk, codes, map};
ghost use Rattle.lx_ir.specs.Text.{name_at, register_name, register_text, value_text, argument_text, operand_text, given_text, given_if, comma_list, arguments_text, callee_text};

use crate::instr::{Argument, Callee};
use crate::module::{Function, Module, Value};
use crate::text::constants::{put_constant, put_symbol};
use crate::text::pieces::{put, put_local, put_separator};
use crate::text::types::put_scalar;
use crate::types::Scalar;
use lx_words::{Memory, Name};

/// Whose text is printed: a function of a module.
#[derive(Clone, Copy)]
pub struct Scope<'a> {
    pub m: &'a Module,
    pub f: &'a Function,
}

/// The name of a local register by its number behind the parameters; a number that names nothing has the empty name.
fn local_name(locals: &[Name], k: usize) -> &[u8]
    ensures { result.now ≡ name_at locals.now k }
{
    match locals.get(k) {
        Some(name) => name.as_slice(),
        None => b"",
    }
}

/// The name of a register by its number; a number that names nothing has the empty name.
fn register_name(f: &Function, register: u32) -> &[u8]
    ensures { result.now ≡ register_name f.now register }
{
    let params = f.params.as_slice();
    let k = register as usize;
    if k < params.len() {
        params[k].name.as_slice()
    } else {
        local_name(f.locals.as_slice(), k - params.len())
    }
}

/// Appends the name of a register.
pub fn put_register(out: &mut Vec<u8>, scope: Scope, register: u32) -> Result<(), Memory>
    ensures { OnOk result (out.new.items ≡ out.old.items ++ register_text scope.entry.f.now register) }
{
    put_local(out, register_name(scope.f, register))
}

/// Appends the register that an instruction gives.
pub fn put_given(out: &mut Vec<u8>, scope: Scope, to: u32) -> Result<(), Memory>
    ensures { OnOk result (out.new.items ≡ out.old.items ++ given_text scope.entry.f.now to) }
{
    put_register(out, scope, to)?;
    put(out, b" = ")
}

/// Appends the register that a call gives, if any.
pub fn put_given_if(out: &mut Vec<u8>, scope: Scope, to: Option<u32>) -> Result<(), Memory>
    ensures { OnOk result (out.new.items ≡ out.old.items ++ given_if scope.entry.f.now to) }
{
    match to {
        None => Ok(()),
        Some(to) => put_given(out, scope, to),
    }
}

/// Appends a register or a constant.
pub fn put_value(out: &mut Vec<u8>, scope: Scope, value: Value) -> Result<(), Memory>
    ensures { OnOk result (out.new.items ≡ out.old.items ++ value_text scope.entry.m.now scope.entry.f.now value) }
{
    match value {
        Value::Register(register) => put_register(out, scope, register),
        Value::Constant(constant) => put_constant(out, scope.m, constant),
    }
}

/// Appends an operand behind its type.
pub fn put_operand(out: &mut Vec<u8>, scope: Scope, ty: Scalar, value: Value) -> Result<(), Memory>
    ensures { OnOk result (out.new.items ≡ out.old.items ++ operand_text scope.entry.m.now scope.entry.f.now ty value) }
{
    put_scalar(out, ty)?;
    put(out, b" ")?;
    put_value(out, scope, value)
}

/// Appends an argument behind its type.
pub fn put_argument(out: &mut Vec<u8>, scope: Scope, argument: Argument) -> Result<(), Memory>
    ensures { OnOk result (out.new.items ≡ out.old.items ++ argument_text scope.entry.m.now scope.entry.f.now argument) }
{
    put_operand(out, scope, argument.ty, argument.value)
}

/// Appends the arguments of a call.
pub fn put_arguments(out: &mut Vec<u8>, scope: Scope, arguments: &[Argument]) -> Result<(), Memory>
    ensures { OnOk result (out.new.items ≡ out.old.items ++ arguments_text scope.entry.m.now scope.entry.f.now arguments.now) }
{
    put(out, b"(")?;
    for (i, argument) in arguments.iter().enumerate() {
        put_separator(out, i)?;
        put_argument(out, scope, *argument)?;
    }
    put(out, b")")
}

/// Appends what a call calls.
pub fn put_callee(out: &mut Vec<u8>, scope: Scope, callee: Callee) -> Result<(), Memory>
    ensures { OnOk result (out.new.items ≡ out.old.items ++ callee_text scope.entry.m.now scope.entry.f.now callee) }
{
    match callee {
        Callee::Symbol(symbol) => put_symbol(out, scope.m, symbol),
        Callee::Register(register) => put_register(out, scope, register),
    }
}
