//! Copies of instructions.
ghost use Rattle.std.specs.Prelude.{◌≡◌, IfOk};
ghost use Rattle.lx_ir.specs.declared.instr.Op.TheVariants as op;

use crate::copied::{Copied, copies};
use crate::types::copied_type;
use lx_ir::instr::{Argument, Callee, Edge, Op, SwitchCase};
use lx_ir::module::Value;
use lx_ir::types::{IrType, Scalar};
use lx_words::{Items, Memory, Name};
use std::alloc::Global;

impl Copied for Edge {
    fn copied(&self, alloc: Global) -> Result<Edge, Memory> {
        let label = self.label.copied(alloc)?;
        Ok(Edge {
            value: self.value,
            label,
        })
    }
}

impl Copied for SwitchCase {
    fn copied(&self, alloc: Global) -> Result<SwitchCase, Memory> {
        let label = self.label.copied(alloc)?;
        Ok(SwitchCase {
            value: self.value,
            label,
        })
    }
}

fn phi(alloc: Global, to: u32, ty: Scalar, edges: &[Edge]) -> Result<Op, Memory>
    ensures { IfOk result (λ o. o ≡ op.Phi to ty edges.now) }
{
    let edges = copies(alloc, edges)?;
    Ok(Op::Phi { to, ty, edges })
}

fn alloca(alloc: Global, to: u32, ty: &IrType) -> Result<Op, Memory>
    ensures { IfOk result (λ o. o ≡ op.Alloca to ty.now) }
{
    let ty = copied_type(alloc, ty)?;
    Ok(Op::Alloca { to, ty })
}

fn element_pointer(
    alloc: Global,
    to: u32,
    ty: &IrType,
    base: Value,
    indices: &[Argument],
) -> Result<Op, Memory>
    ensures { IfOk result (λ o. o ≡ op.GetElementPtr to ty.now base indices.now) }
{
    let indices = Items::from_slice(alloc, indices)?;
    let ty = copied_type(alloc, ty)?;
    Ok(Op::GetElementPtr {
        to,
        ty,
        base,
        indices,
    })
}

/// A call of this with copies of these arguments.
///
/// # Errors
/// Want of memory.
pub fn copied_call(
    alloc: Global,
    to: Option<u32>,
    ret: Option<Scalar>,
    callee: Callee,
    args: &[Argument],
) -> Result<Op, Memory>
    ensures { IfOk result (λ o. o ≡ op.Call to ret callee args.now) }
{
    let args = Items::from_slice(alloc, args)?;
    Ok(Op::Call {
        to,
        ret,
        callee,
        args,
    })
}

fn jump(alloc: Global, label: &Name) -> Result<Op, Memory>
    ensures { IfOk result (λ o. o ≡ op.Jump label.now) }
{
    let label = label.copied(alloc)?;
    Ok(Op::Jump { label })
}

fn branch(alloc: Global, condition: Value, if_true: &Name, if_false: &Name) -> Result<Op, Memory>
    ensures { IfOk result (λ o. o ≡ op.Branch condition if_true.now if_false.now) }
{
    let if_true = if_true.copied(alloc)?;
    let if_false = if_false.copied(alloc)?;
    Ok(Op::Branch {
        condition,
        if_true,
        if_false,
    })
}

fn switch(
    alloc: Global,
    ty: Scalar,
    value: Value,
    otherwise: &Name,
    cases: &[SwitchCase],
) -> Result<Op, Memory>
    ensures { IfOk result (λ o. o ≡ op.Switch ty value otherwise.now cases.now) }
{
    let otherwise = otherwise.copied(alloc)?;
    let cases = copies(alloc, cases)?;
    Ok(Op::Switch {
        ty,
        value,
        otherwise,
        cases,
    })
}

/// A copy of an instruction.
///
/// # Errors
/// Want of memory.
pub fn copied_op(alloc: Global, op: &Op) -> Result<Op, Memory>
    ensures { IfOk result (λ copy. copy ≡ op.now) }
{
    match op {
        Op::Binary { to, op, ty, a, b } => Ok(Op::Binary {
            to: *to,
            op: *op,
            ty: *ty,
            a: *a,
            b: *b,
        }),
        Op::Compare { to, pred, ty, a, b } => Ok(Op::Compare {
            to: *to,
            pred: *pred,
            ty: *ty,
            a: *a,
            b: *b,
        }),
        Op::Convert {
            to,
            how,
            from,
            a,
            into,
        } => Ok(Op::Convert {
            to: *to,
            how: *how,
            from: *from,
            a: *a,
            into: *into,
        }),
        Op::Unary { to, op, ty, a } => Ok(Op::Unary {
            to: *to,
            op: *op,
            ty: *ty,
            a: *a,
        }),
        Op::Select {
            to,
            condition,
            ty,
            a,
            b,
        } => Ok(Op::Select {
            to: *to,
            condition: *condition,
            ty: *ty,
            a: *a,
            b: *b,
        }),
        Op::Phi { to, ty, edges } => phi(alloc, *to, *ty, edges.as_slice()),
        Op::Alloca { to, ty } => alloca(alloc, *to, ty),
        Op::Load { to, ty, at } => Ok(Op::Load {
            to: *to,
            ty: *ty,
            at: *at,
        }),
        Op::Store { ty, value, at } => Ok(Op::Store {
            ty: *ty,
            value: *value,
            at: *at,
        }),
        Op::GetElementPtr {
            to,
            ty,
            base,
            indices,
        } => element_pointer(alloc, *to, ty, *base, indices.as_slice()),
        Op::Call {
            to,
            ret,
            callee,
            args,
        } => copied_call(alloc, *to, *ret, *callee, args.as_slice()),
        Op::CopyBlock {
            moves,
            dest,
            source,
            len,
        } => Ok(Op::CopyBlock {
            moves: *moves,
            dest: *dest,
            source: *source,
            len: *len,
        }),
        Op::FillBlock { dest, byte, len } => Ok(Op::FillBlock {
            dest: *dest,
            byte: *byte,
            len: *len,
        }),
        Op::Ret { value } => Ok(Op::Ret { value: *value }),
        Op::Jump { label } => jump(alloc, label),
        Op::Branch {
            condition,
            if_true,
            if_false,
        } => branch(alloc, *condition, if_true, if_false),
        Op::Switch {
            ty,
            value,
            otherwise,
            cases,
        } => switch(alloc, *ty, *value, otherwise, cases.as_slice()),
        Op::Unreachable => Ok(Op::Unreachable),
        Op::Guard { at, size, narrow } => Ok(Op::Guard {
            at: *at,
            size: *size,
            narrow: *narrow,
        }),
        Op::Check { target } => Ok(Op::Check { target: *target }),
        Op::Enter { f } => Ok(Op::Enter { f: *f }),
        Op::Pre { f, k } => Ok(Op::Pre { f: *f, k: *k }),
        Op::Post { f, k } => Ok(Op::Post { f: *f, k: *k }),
        Op::Leave { f } => Ok(Op::Leave { f: *f }),
    }
}
