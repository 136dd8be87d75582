//! The text of functions.
ghost use Rattle.std.specs.Prelude.{◌≡◌, ◌++◌, OnOk, codes, map, flat_map, true, false};
ghost use Rattle.lx_ir.specs.Text.{op_text, instr_text, block_text, parameter_text, scalar_text, head_text, blocks_text, defined_text, declared_text, function_text, comma_list};
ghost use Rattle.lx_ir.specs.Forms.{is_value, is_end};

use crate::instr::{Instr, Op};
use crate::module::{Block, Function, Module, Parameter};
use crate::text::ends::{
    put_branch, put_check, put_copy_block, put_crossing, put_fill_block, put_guard, put_hook,
    put_jump, put_ret, put_switch,
};
use crate::text::line::{Piece, put_pieces};
use crate::text::operands::Scope;
use crate::text::pieces::{put, put_separator};
use crate::text::types::put_scalar;
use crate::text::values::{
    put_alloca, put_binary, put_call, put_compare, put_convert, put_element, put_load, put_phi,
    put_select, put_store, put_unary,
};
use lx_words::Memory;

/// Appends an instruction.
fn put_op(out: &mut Vec<u8>, scope: Scope, op: &Op) -> Result<(), Memory>
    ensures { OnOk result (out.new.items ≡ out.old.items ++ op_text scope.entry.m.now scope.entry.f.now op.now) }
{
    match op {
        Op::Binary { to, op, ty, a, b } => put_binary(out, scope, *to, *op, *ty, *a, *b),
        Op::Compare { to, pred, ty, a, b } => put_compare(out, scope, *to, *pred, *ty, *a, *b),
        Op::Convert {
            to,
            how,
            from,
            a,
            into,
        } => put_convert(out, scope, *to, *how, *from, *a, *into),
        Op::Unary { to, op, ty, a } => put_unary(out, scope, *to, *op, *ty, *a),
        Op::Select {
            to,
            condition,
            ty,
            a,
            b,
        } => put_select(out, scope, *to, *condition, *ty, *a, *b),
        Op::Phi { to, ty, edges } => put_phi(out, scope, *to, *ty, edges.as_slice()),
        Op::Alloca { to, ty } => put_alloca(out, scope, *to, ty),
        _ => put_access(out, scope, op),
    }
}

/// Appends an instruction that is no plain value: an access to memory, a call, what ends a block, or one of the monitor's.
fn put_access(out: &mut Vec<u8>, scope: Scope, op: &Op) -> Result<(), Memory>
    requires { is_value op.now ≡ false }
    ensures { OnOk result (out.new.items ≡ out.old.items ++ op_text scope.entry.m.now scope.entry.f.now op.now) }
{
    match op {
        Op::Load { to, ty, at } => put_load(out, scope, *to, *ty, *at),
        Op::Store { ty, value, at } => put_store(out, scope, *ty, *value, *at),
        Op::GetElementPtr {
            to,
            ty,
            base,
            indices,
        } => put_element(out, scope, *to, ty, *base, indices.as_slice()),
        Op::Call {
            to,
            ret,
            callee,
            args,
        } => put_call(out, scope, *to, *ret, *callee, args.as_slice()),
        Op::CopyBlock {
            moves,
            dest,
            source,
            len,
        } => put_copy_block(out, scope, *moves, *dest, *source, *len),
        Op::FillBlock { dest, byte, len } => put_fill_block(out, scope, *dest, *byte, *len),
        _ => put_end(out, scope, op),
    }
}

/// Appends what ends a block, or an instruction of the monitor's.
fn put_end(out: &mut Vec<u8>, scope: Scope, op: &Op) -> Result<(), Memory>
    requires { is_end op.now ≡ true }
    ensures { OnOk result (out.new.items ≡ out.old.items ++ op_text scope.entry.m.now scope.entry.f.now op.now) }
{
    match op {
        Op::Ret { value } => put_ret(out, scope, *value),
        Op::Jump { label } => put_jump(out, scope, label),
        Op::Branch {
            condition,
            if_true,
            if_false,
        } => put_branch(out, scope, *condition, if_true, if_false),
        Op::Switch {
            ty,
            value,
            otherwise,
            cases,
        } => put_switch(out, scope, *ty, *value, otherwise, cases.as_slice()),
        Op::Unreachable => put(out, b"unreachable"),
        Op::Guard { at, size, narrow } => put_guard(out, scope, *at, *size, *narrow),
        Op::Check { target } => put_check(out, scope, *target),
        Op::Enter { f } => put_crossing(out, scope, b"enter", *f),
        Op::Pre { f, k } => put_hook(out, scope, b"pre", *f, *k),
        Op::Post { f, k } => put_hook(out, scope, b"post", *f, *k),
        Op::Leave { f } => put_crossing(out, scope, b"leave", *f),
        _ => unreachable!(),
    }
}

/// Appends the line of an instruction.
fn put_instr(out: &mut Vec<u8>, scope: Scope, instr: &Instr) -> Result<(), Memory>
    ensures { OnOk result (out.new.items ≡ out.old.items ++ instr_text scope.entry.m.now scope.entry.f.now instr.now) }
{
    put(out, b"  ")?;
    put_op(out, scope, &instr.op)?;
    put(out, b"\n")
}

fn put_instrs(out: &mut Vec<u8>, scope: Scope, instrs: &[Instr]) -> Result<(), Memory>
    ensures { OnOk result (out.new.items ≡ out.old.items ++ flat_map (instr_text scope.entry.m.now scope.entry.f.now) instrs.now) }
{
    for instr in instrs {
        put_instr(out, scope, instr)?;
    }
    Ok(())
}

/// Appends a block with its label.
fn put_block(out: &mut Vec<u8>, scope: Scope, block: &Block) -> Result<(), Memory>
    ensures { OnOk result (out.new.items ≡ out.old.items ++ block_text scope.entry.m.now scope.entry.f.now block.now) }
{
    put_pieces(
        out,
        scope,
        &[Piece::Text(block.name.as_slice()), Piece::Text(b":\n")],
    )?;
    put_instrs(out, scope, block.instrs.as_slice())
}

fn put_blocks(out: &mut Vec<u8>, scope: Scope, blocks: &[Block]) -> Result<(), Memory>
    ensures { OnOk result (out.new.items ≡ out.old.items ++ flat_map (block_text scope.entry.m.now scope.entry.f.now) blocks.now) }
{
    for block in blocks {
        put_block(out, scope, block)?;
    }
    Ok(())
}

/// Appends the blocks of a function and the brace behind them.
fn put_body(out: &mut Vec<u8>, scope: Scope, blocks: &[Block]) -> Result<(), Memory>
    ensures { OnOk result (out.new.items ≡ out.old.items ++ blocks_text scope.entry.m.now scope.entry.f.now blocks.now) }
{
    put_blocks(out, scope, blocks)?;
    put(out, b"}\n")
}

fn put_parameter(out: &mut Vec<u8>, scope: Scope, parameter: &Parameter) -> Result<(), Memory>
    ensures { OnOk result (out.new.items ≡ out.old.items ++ parameter_text parameter.now) }
{
    put_pieces(
        out,
        scope,
        &[
            Piece::Scalar(parameter.ty),
            Piece::Text(b" "),
            Piece::Local(parameter.name.as_slice()),
        ],
    )
}

/// Appends the parameters of a function with their names.
fn put_parameters(out: &mut Vec<u8>, scope: Scope, parameters: &[Parameter]) -> Result<(), Memory>
    ensures { OnOk result (out.new.items ≡ out.old.items ++ comma_list (map parameter_text parameters.now)) }
{
    for (i, parameter) in parameters.iter().enumerate() {
        put_separator(out, i)?;
        put_parameter(out, scope, parameter)?;
    }
    Ok(())
}

/// Appends the types of the parameters of an import.
fn put_parameter_types(out: &mut Vec<u8>, parameters: &[Parameter]) -> Result<(), Memory>
    ensures { OnOk result (out.new.items ≡ out.old.items ++ comma_list (map (λ p. scalar_text p.ty) parameters.now)) }
{
    for (i, parameter) in parameters.iter().enumerate() {
        put_separator(out, i)?;
        put_scalar(out, parameter.ty)?;
    }
    Ok(())
}

/// Appends the result and the name of a function.
fn put_head(out: &mut Vec<u8>, scope: Scope) -> Result<(), Memory>
    ensures { OnOk result (out.new.items ≡ out.old.items ++ head_text scope.entry.f.now) }
{
    put_pieces(
        out,
        scope,
        &[
            Piece::Result(scope.f.ret),
            Piece::Text(b" "),
            Piece::Global(scope.f.name.as_slice()),
            Piece::Text(b"("),
        ],
    )
}

/// Appends an import.
fn put_declared(out: &mut Vec<u8>, scope: Scope) -> Result<(), Memory>
    ensures { OnOk result (out.new.items ≡ out.old.items ++ declared_text scope.entry.f.now) }
{
    put(out, b"declare ")?;
    put_head(out, scope)?;
    put_parameter_types(out, scope.f.params.as_slice())?;
    put(out, b")\n")
}

/// Appends a function with its blocks.
fn put_defined(out: &mut Vec<u8>, scope: Scope, blocks: &[Block]) -> Result<(), Memory>
    ensures { OnOk result (out.new.items ≡ out.old.items ++ defined_text scope.entry.m.now scope.entry.f.now blocks.now) }
{
    put(out, b"define ")?;
    put_head(out, scope)?;
    put_parameters(out, scope, scope.f.params.as_slice())?;
    put(out, b") {\n")?;
    put_body(out, scope, blocks)
}

/// Appends an import, or a function with its blocks.
pub fn put_function(out: &mut Vec<u8>, m: &Module, f: &Function) -> Result<(), Memory>
    ensures { OnOk result (out.new.items ≡ out.old.items ++ function_text m.now f.now) }
{
    match &f.blocks {
        None => put_declared(out, Scope { m, f }),
        Some(blocks) => put_defined(out, Scope { m, f }, blocks.as_slice()),
    }
}
