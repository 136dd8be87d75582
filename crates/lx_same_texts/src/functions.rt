//! Functions, by their blocks and instructions.
ghost use Rattle.std.specs.Prelude.{◌≡◌, bytes_eq};
ghost use Rattle.lx_same_texts.specs.Same.{same_lists, same_op, same_parameter, same_instr, same_block, same_body, same_function};

use crate::effects::{
    is_same_branch, is_same_check, is_same_copy, is_same_enter, is_same_fill, is_same_guard,
    is_same_jump, is_same_leave, is_same_post, is_same_pre, is_same_return, is_same_store,
    is_same_switch, is_same_unreachable,
};
use crate::operands::is_same_name;
use crate::registers::{
    is_same_alloca, is_same_binary, is_same_call, is_same_comparison, is_same_convert,
    is_same_element_pointer, is_same_load, is_same_phi, is_same_select, is_same_unary_op,
};
use lx_ir::instr::{Instr, Op};
use lx_ir::module::{Block, Function, Parameter};
use lx_ir_verify::{is_same_result, is_same_scalar};
use lx_words::{Items, Name};

fn is_same_op(a: &Op, b: &Op) -> bool
    ensures { result ≡ same_op a.now b.now }
{
    match a {
        Op::Binary { .. } => is_same_binary(a, b),
        Op::Compare { .. } => is_same_comparison(a, b),
        Op::Convert { .. } => is_same_convert(a, b),
        Op::Unary { .. } => is_same_unary_op(a, b),
        Op::Select { .. } => is_same_select(a, b),
        Op::Phi { .. } => is_same_phi(a, b),
        Op::Alloca { .. } => is_same_alloca(a, b),
        Op::Load { .. } => is_same_load(a, b),
        Op::Store { .. } => is_same_store(a, b),
        Op::GetElementPtr { .. } => is_same_element_pointer(a, b),
        Op::Call { .. } => is_same_call(a, b),
        Op::CopyBlock { .. } => is_same_copy(a, b),
        Op::FillBlock { .. } => is_same_fill(a, b),
        Op::Ret { .. } => is_same_return(a, b),
        Op::Jump { .. } => is_same_jump(a, b),
        Op::Branch { .. } => is_same_branch(a, b),
        Op::Switch { .. } => is_same_switch(a, b),
        Op::Unreachable => is_same_unreachable(a, b),
        Op::Guard { .. } => is_same_guard(a, b),
        Op::Check { .. } => is_same_check(a, b),
        Op::Enter { .. } => is_same_enter(a, b),
        Op::Pre { .. } => is_same_pre(a, b),
        Op::Post { .. } => is_same_post(a, b),
        Op::Leave { .. } => is_same_leave(a, b),
    }
}

fn is_same_instr(a: &Instr, b: &Instr) -> bool
    ensures { result ≡ same_instr a.now b.now }
{
    is_same_op(&a.op, &b.op)
}

#[tactic(auto, using(crate::proofs::Loops::lists_step, crate::proofs::Loops::lists_end, crate::proofs::Loops::lists_length))]
fn are_same_instrs(a: &[Instr], b: &[Instr]) -> bool
    ensures { result ≡ same_lists same_instr a.now b.now }
{
    if a.len() != b.len() {
        return false;
    }
    for i in 0..a.len() {
        if !is_same_instr(&a[i], &b[i]) {
            return false;
        }
    }
    true
}

fn is_same_block(a: &Block, b: &Block) -> bool
    ensures { result ≡ same_block a.now b.now }
{
    is_same_name(&a.name, &b.name) && are_same_instrs(a.instrs.as_slice(), b.instrs.as_slice())
}

#[tactic(auto, using(crate::proofs::Loops::lists_step, crate::proofs::Loops::lists_end, crate::proofs::Loops::lists_length))]
fn are_same_blocks(a: &[Block], b: &[Block]) -> bool
    ensures { result ≡ same_lists same_block a.now b.now }
{
    if a.len() != b.len() {
        return false;
    }
    for i in 0..a.len() {
        if !is_same_block(&a[i], &b[i]) {
            return false;
        }
    }
    true
}

fn is_same_body(a: &Function, b: &Function) -> bool
    ensures { result ≡ same_body a.now.blocks b.now.blocks }
{
    match (&a.blocks, &b.blocks) {
        (None, None) => true,
        (Some(a), Some(b)) => are_same_blocks(a.as_slice(), b.as_slice()),
        _ => false,
    }
}

fn is_same_parameter(a: &Parameter, b: &Parameter) -> bool
    ensures { result ≡ same_parameter a.now b.now }
{
    is_same_name(&a.name, &b.name) && is_same_scalar(a.ty, b.ty)
}

#[tactic(auto, using(crate::proofs::Loops::lists_step, crate::proofs::Loops::lists_end, crate::proofs::Loops::lists_length))]
fn are_same_parameters(a: &[Parameter], b: &[Parameter]) -> bool
    ensures { result ≡ same_lists same_parameter a.now b.now }
{
    if a.len() != b.len() {
        return false;
    }
    for i in 0..a.len() {
        if !is_same_parameter(&a[i], &b[i]) {
            return false;
        }
    }
    true
}

#[tactic(auto, using(crate::proofs::Loops::lists_step, crate::proofs::Loops::lists_end, crate::proofs::Loops::lists_length))]
fn are_same_names(a: &[Name], b: &[Name]) -> bool
    ensures { result ≡ same_lists bytes_eq a.now b.now }
{
    if a.len() != b.len() {
        return false;
    }
    for i in 0..a.len() {
        if !is_same_name(&a[i], &b[i]) {
            return false;
        }
    }
    true
}

fn is_same_function(a: &Function, b: &Function) -> bool
    ensures { result ≡ same_function a.now b.now }
{
    is_same_name(&a.name, &b.name)
        && are_same_parameters(a.params.as_slice(), b.params.as_slice())
        && are_same_names(a.locals.as_slice(), b.locals.as_slice())
        && is_same_result(a.ret, b.ret)
        && is_same_body(a, b)
}

#[tactic(auto, using(crate::proofs::Loops::lists_step, crate::proofs::Loops::lists_end, crate::proofs::Loops::lists_length))]
pub(crate) fn are_same_functions(a: &[Function], b: &[Function]) -> bool
    ensures { result ≡ same_lists same_function a.now b.now }
{
    if a.len() != b.len() {
        return false;
    }
    for i in 0..a.len() {
        if !is_same_function(&a[i], &b[i]) {
            return false;
        }
    }
    true
}
