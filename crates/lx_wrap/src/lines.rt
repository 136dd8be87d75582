//! The lines of wrappers.
ghost use Rattle.std.specs.Prelude.{◌≡◌, ◌++◌, ◌∷◌, [], length, map, IfOk, OnOk};
ghost use Rattle.lx_ir.specs.declared.module.Symbol.TheVariants as symbol;
ghost use Rattle.lx_ir.specs.declared.instr.Callee.TheVariants as callee;
ghost use Rattle.lx_ir.specs.declared.instr.Op.TheVariants as op;
ghost use Rattle.lx_image_texts.specs.WrapperText.{post_lines, pre_lines, result_register, returned, unlined, wrapper_args, wrapper_code};

use crate::signature::{number_of, wrapper_args};
use lx_annot::action::{Action, Annotation};
use lx_ir::instr::{Argument, Callee, Instr, Op};
use lx_ir::module::{Function, Symbol, Value};
use lx_ir::types::Scalar;
use lx_words::{Items, Memory};
use std::alloc::Global;

/// Adds an instruction, whose line is 0.
fn push_op(code: &mut Items<Instr>, op: Op) -> Result<(), Memory>
    ensures { OnOk result (code.new ≡ code.old ++ unlined op ∷ []) }
{
    code.push(Instr { op, line: 0 })?;
    Ok(())
}

fn push_pre(code: &mut Items<Instr>, f: Symbol, place: usize) -> Result<(), Memory>
    ensures { OnOk result (code.new ≡ code.old ++ unlined (op.Pre f place) ∷ []) }
{
    let k = number_of(place)?;
    push_op(code, Op::Pre { f, k })
}

/// Adds a line for each action before the body.
#[tactic(auto, using(crate::proofs::Steps::pre_step, crate::proofs::Steps::pre_end))]
fn push_pre_lines(code: &mut Items<Instr>, f: Symbol, actions: &[Action]) -> Result<(), Memory>
    ensures { OnOk result (code.new ≡ code.old ++ map unlined (pre_lines f 0 actions.now)) }
{
    for place in 0..actions.len() {
        push_pre(code, f, place)?;
    }
    Ok(())
}

fn push_post(code: &mut Items<Instr>, f: Symbol, place: usize) -> Result<(), Memory>
    ensures { OnOk result (code.new ≡ code.old ++ unlined (op.Post f place) ∷ []) }
{
    let k = number_of(place)?;
    push_op(code, Op::Post { f, k })
}

/// Adds a line for each action behind the body.
#[tactic(auto, using(crate::proofs::Steps::post_step, crate::proofs::Steps::post_end))]
fn push_post_lines(code: &mut Items<Instr>, f: Symbol, actions: &[Action]) -> Result<(), Memory>
    ensures { OnOk result (code.new ≡ code.old ++ map unlined (post_lines f 0 actions.now)) }
{
    for place in 0..actions.len() {
        push_post(code, f, place)?;
    }
    Ok(())
}

/// The register of the call's result, the first one behind the parameters; none where the call gives nothing.
fn result_register(parameters: u32, ret: Option<Scalar>) -> Option<u32>
    ensures { result ≡ result_register parameters ret }
{
    match ret {
        Some(_) => Some(parameters),
        None => None,
    }
}

/// What the wrapper returns.
fn returned(parameters: u32, ret: Option<Scalar>) -> Option<Argument>
    ensures { result ≡ returned parameters ret }
{
    match ret {
        Some(ty) => Some(Argument {
            ty,
            value: Value::Register(parameters),
        }),
        None => None,
    }
}

/// Adds the call of the function with this number.
fn push_call(
    alloc: Global,
    code: &mut Items<Instr>,
    f: &Function,
    number: u32,
) -> Result<(), Memory>
    ensures { OnOk result (code.new ≡ code.old ++ unlined (op.Call (result_register (length f.now.params) f.now.ret) f.now.ret (callee.Symbol (symbol.Function number)) (wrapper_args 0 f.now.params)) ∷ []) }
{
    let parameters = number_of(f.params.len())?;
    let args = wrapper_args(alloc, f.params.as_slice())?;
    push_op(
        code,
        Op::Call {
            to: result_register(parameters, f.ret),
            ret: f.ret,
            callee: Callee::Symbol(Symbol::Function(number)),
            args,
        },
    )
}

/// Adds the lines that leave the function and return.
fn push_end(code: &mut Items<Instr>, f: &Function, number: u32) -> Result<(), Memory>
    ensures { OnOk result (code.new ≡ (code.old ++ unlined (op.Leave (symbol.Function number)) ∷ []) ++ unlined (op.Ret (returned (length f.now.params) f.now.ret)) ∷ []) }
{
    let parameters = number_of(f.params.len())?;
    push_op(
        code,
        Op::Leave {
            f: Symbol::Function(number),
        },
    )?;
    push_op(
        code,
        Op::Ret {
            value: returned(parameters, f.ret),
        },
    )
}

/// Adds the lines of the wrapper of the function with this number.
#[tactic(auto, using(crate::proofs::Steps::whole_code))]
pub(crate) fn push_code(
    alloc: Global,
    code: &mut Items<Instr>,
    f: &Function,
    number: u32,
    annotation: &Annotation,
) -> Result<(), Memory>
    ensures { OnOk result (code.new ≡ code.old ++ map unlined (wrapper_code f.now number annotation.now)) }
{
    let symbol = Symbol::Function(number);
    push_op(code, Op::Enter { f: symbol })?;
    push_pre_lines(code, symbol, annotation.pre.as_slice())?;
    push_call(alloc, code, f, number)?;
    push_post_lines(code, symbol, annotation.post.as_slice())?;
    push_end(code, f, number)
}
