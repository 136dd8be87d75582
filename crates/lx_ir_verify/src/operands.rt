//! What the instructions of a function give, and what they are called.
ghost use Rattle.std.specs.Prelude.{◌≡◌, ◌++◌, IfOk, OnOk, map, filter_map, flat_map, option_to_list};
ghost use Rattle.lx_ir.specs.Operands.{result_of, kept_result, is_terminator, is_phi, register_types};
ghost use Rattle.lx_ir.specs.Text.{operator_word, name_at, register_name};
ghost use Rattle.lx_ir.specs.Faults.{op_word};

use lx_ir::instr::{Instr, Op};
use lx_ir::module::{Block, Function, Parameter};
use lx_ir::types::Scalar;
use lx_ir_uses::blocks_of;
use lx_words::{BinOp, Memory, Name, Width};
use std::alloc::Global;

/// The type of a call's result, where it is given to a register.
fn kept_result(to: Option<u32>, ret: Option<Scalar>) -> Option<Scalar>
    ensures { result ≡ kept_result to ret }
{
    match to {
        None => None,
        Some(_) => ret,
    }
}

/// The type of the register that an instruction gives.
fn result_of(op: &Op) -> Option<Scalar>
    ensures { result ≡ result_of op.now }
{
    match op {
        Op::Binary { ty, .. }
        | Op::Unary { ty, .. }
        | Op::Select { ty, .. }
        | Op::Phi { ty, .. }
        | Op::Load { ty, .. } => Some(*ty),
        Op::Compare { .. } => Some(Scalar::Int(Width::W1)),
        Op::Convert { into, .. } => Some(*into),
        Op::Alloca { .. } | Op::GetElementPtr { .. } => Some(Scalar::Ptr),
        Op::Call { to, ret, .. } => kept_result(*to, *ret),
        _ => None,
    }
}

/// Whether an instruction ends a block.
pub fn is_terminator(op: &Op) -> bool
    ensures { result ≡ is_terminator op.now }
{
    matches!(
        op,
        Op::Ret { .. } | Op::Jump { .. } | Op::Branch { .. } | Op::Switch { .. } | Op::Unreachable
    )
}

pub fn is_phi(op: &Op) -> bool
    ensures { result ≡ is_phi op.now }
{
    matches!(op, Op::Phi { .. })
}

/// Appends a type, if there is one.
fn push_if_some(types: &mut Vec<Scalar>, ty: Option<Scalar>) -> Result<(), Memory>
    ensures { OnOk result (types.new.items ≡ types.old.items ++ option_to_list ty) }
{
    if let Some(ty) = ty {
        types.push(ty)?;
    }
    Ok(())
}

/// Appends the types of the registers that instructions give.
#[tactic(auto, using(crate::proofs::Passes::filter_step, crate::proofs::Passes::filter_end, std::proofs::lemmas::Grind::common_steps))]
fn push_results(types: &mut Vec<Scalar>, instrs: &[Instr]) -> Result<(), Memory>
    ensures { OnOk result (types.new.items ≡ types.old.items ++ filter_map (λ i. result_of i.op) instrs.now) }
{
    for instr in instrs {
        push_if_some(types, result_of(&instr.op))?;
    }
    Ok(())
}

/// Appends the types of the registers that the instructions of blocks give.
#[tactic(auto, using(crate::proofs::Passes::filter_flat_step, crate::proofs::Passes::filter_flat_end, std::proofs::lemmas::Grind::common_steps))]
fn push_block_results(types: &mut Vec<Scalar>, blocks: &[Block]) -> Result<(), Memory>
    ensures { OnOk result (types.new.items ≡ types.old.items ++ filter_map (λ i. result_of i.op) (flat_map (λ b. b.instrs) blocks.now)) }
{
    for block in blocks {
        push_results(types, block.instrs.as_slice())?;
    }
    Ok(())
}

/// The types of parameters.
fn parameter_types(alloc: Global, parameters: &[Parameter]) -> Result<Vec<Scalar>, Memory>
    ensures { IfOk result (λ types. types.items ≡ map (λ p. p.ty) parameters.now) }
{
    let types = parameters
        .iter()
        .map(|parameter| parameter.ty)
        .collect(alloc)?;
    Ok(types)
}

/// The types of a function's parameters and of what its instructions give, by the numbers of the registers.
pub fn register_types(alloc: Global, f: &Function) -> Result<Vec<Scalar>, Memory>
    ensures { IfOk result (λ types. types.items ≡ register_types f.now) }
{
    let mut types = parameter_types(alloc, f.params.as_slice())?;
    push_block_results(&mut types, blocks_of(f))?;
    Ok(types)
}

fn operator_word(op: BinOp) -> &'static [u8]
    ensures { result.now ≡ operator_word op }
{
    match op {
        BinOp::Add => b"add",
        BinOp::Sub => b"sub",
        BinOp::Mul => b"mul",
        BinOp::UDiv => b"udiv",
        BinOp::SDiv => b"sdiv",
        BinOp::URem => b"urem",
        BinOp::SRem => b"srem",
        BinOp::And => b"and",
        BinOp::Or => b"or",
        BinOp::Xor => b"xor",
        BinOp::Shl => b"shl",
        BinOp::LShr => b"lshr",
        BinOp::AShr => b"ashr",
    }
}

/// The first word of an instruction.
pub fn op_word(op: &Op) -> &'static [u8]
    ensures { result.now ≡ op_word op.now }
{
    match op {
        Op::Binary { op, .. } => operator_word(*op),
        Op::Compare { .. } => b"icmp",
        Op::Convert { how, .. } => how.word(),
        Op::Unary { op, .. } => op.word(),
        Op::Select { .. } => b"select",
        Op::Phi { .. } => b"phi",
        Op::Alloca { .. } => b"alloca",
        Op::Load { .. } => b"load",
        Op::Store { .. } => b"store",
        Op::GetElementPtr { .. } => b"getelementptr",
        Op::Ret { .. } => b"ret",
        Op::Jump { .. } | Op::Branch { .. } => b"br",
        Op::Switch { .. } => b"switch",
        Op::Unreachable => b"unreachable",
        _ => b"call",
    }
}

/// The name of a local register by its number behind the parameters; a number that names nothing has the empty name.
fn local_name(locals: &[Name], k: usize) -> &[u8]
    ensures { result.now ≡ name_at locals.now k }
{
    match locals.get(k) {
        Some(name) => name.as_slice(),
        None => b"",
    }
}

/// The name of a register by its number; a number that names nothing has the empty name.
pub fn register_name(f: &Function, register: u32) -> &[u8]
    ensures { result.now ≡ register_name f.now register }
{
    let params = f.params.as_slice();
    let k = register as usize;
    if k < params.len() {
        params[k].name.as_slice()
    } else {
        local_name(f.locals.as_slice(), k - params.len())
    }
}
