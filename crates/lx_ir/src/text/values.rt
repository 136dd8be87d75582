//! The text of instructions that give values, and of calls.
ghost use Rattle.std.specs.Prelude.{◌≡◌, ◌++◌, OnOk, codes, map, flat_map};
ghost use Rattle.lx_ir.specs.Text.{op_text, operator_word, predicate_word, result_text, edge_text, place_text, callee_text, arguments_text, argument_text, comma_list};
ghost use Rattle.lx_ir.specs.declared.instr.Op.TheVariants as form;

use crate::instr::{Argument, Callee, Conversion, Edge, UnaryOp};
use crate::module::Value;
use crate::text::line::{Piece, put_pieces};
use crate::text::operands::{Scope, put_argument, put_arguments, put_given_if};
use crate::text::pieces::{put, put_separator};
use crate::types::{IrType, Scalar};
use lx_words::{BinOp, Memory, Pred};

/// The word of an operator.
pub fn operator_word(op: BinOp) -> &'static [u8]
    ensures { result.now ≡ operator_word op }
{
    match op {
        BinOp::Add => b"add",
        BinOp::Sub => b"sub",
        BinOp::Mul => b"mul",
        BinOp::UDiv => b"udiv",
        BinOp::SDiv => b"sdiv",
        BinOp::URem => b"urem",
        BinOp::SRem => b"srem",
        BinOp::And => b"and",
        BinOp::Or => b"or",
        BinOp::Xor => b"xor",
        BinOp::Shl => b"shl",
        BinOp::LShr => b"lshr",
        BinOp::AShr => b"ashr",
    }
}

fn predicate_word(pred: Pred) -> &'static [u8]
    ensures { result.now ≡ predicate_word pred }
{
    match pred {
        Pred::Eq => b"eq",
        Pred::Ne => b"ne",
        Pred::Ugt => b"ugt",
        Pred::Uge => b"uge",
        Pred::Ult => b"ult",
        Pred::Ule => b"ule",
        Pred::Sgt => b"sgt",
        Pred::Sge => b"sge",
        Pred::Slt => b"slt",
        Pred::Sle => b"sle",
    }
}

pub fn put_binary(
    out: &mut Vec<u8>,
    scope: Scope,
    to: u32,
    op: BinOp,
    ty: Scalar,
    a: Value,
    b: Value,
) -> Result<(), Memory>
    ensures { OnOk result (out.new.items ≡ out.old.items ++ op_text scope.entry.m.now scope.entry.f.now (form.Binary to op ty a b)) }
{
    put_pieces(
        out,
        scope,
        &[
            Piece::Given(to),
            Piece::Text(operator_word(op)),
            Piece::Text(b" "),
            Piece::Operand(ty, a),
            Piece::Text(b", "),
            Piece::Value(b),
        ],
    )
}

pub fn put_compare(
    out: &mut Vec<u8>,
    scope: Scope,
    to: u32,
    pred: Pred,
    ty: Scalar,
    a: Value,
    b: Value,
) -> Result<(), Memory>
    ensures { OnOk result (out.new.items ≡ out.old.items ++ op_text scope.entry.m.now scope.entry.f.now (form.Compare to pred ty a b)) }
{
    put_pieces(
        out,
        scope,
        &[
            Piece::Given(to),
            Piece::Text(b"icmp "),
            Piece::Text(predicate_word(pred)),
            Piece::Text(b" "),
            Piece::Operand(ty, a),
            Piece::Text(b", "),
            Piece::Value(b),
        ],
    )
}

pub fn put_convert(
    out: &mut Vec<u8>,
    scope: Scope,
    to: u32,
    how: Conversion,
    from: Scalar,
    a: Value,
    into: Scalar,
) -> Result<(), Memory>
    ensures { OnOk result (out.new.items ≡ out.old.items ++ op_text scope.entry.m.now scope.entry.f.now (form.Convert to how from a into)) }
{
    put_pieces(
        out,
        scope,
        &[
            Piece::Given(to),
            Piece::Text(how.word()),
            Piece::Text(b" "),
            Piece::Operand(from, a),
            Piece::Text(b" to "),
            Piece::Scalar(into),
        ],
    )
}

pub fn put_unary(
    out: &mut Vec<u8>,
    scope: Scope,
    to: u32,
    op: UnaryOp,
    ty: Scalar,
    a: Value,
) -> Result<(), Memory>
    ensures { OnOk result (out.new.items ≡ out.old.items ++ op_text scope.entry.m.now scope.entry.f.now (form.Unary to op ty a)) }
{
    put_pieces(
        out,
        scope,
        &[
            Piece::Given(to),
            Piece::Text(op.word()),
            Piece::Text(b" "),
            Piece::Operand(ty, a),
        ],
    )
}

pub fn put_select(
    out: &mut Vec<u8>,
    scope: Scope,
    to: u32,
    condition: Value,
    ty: Scalar,
    a: Value,
    b: Value,
) -> Result<(), Memory>
    ensures { OnOk result (out.new.items ≡ out.old.items ++ op_text scope.entry.m.now scope.entry.f.now (form.Select to condition ty a b)) }
{
    put_pieces(
        out,
        scope,
        &[
            Piece::Given(to),
            Piece::Text(b"select i1 "),
            Piece::Value(condition),
            Piece::Text(b", "),
            Piece::Operand(ty, a),
            Piece::Text(b", "),
            Piece::Operand(ty, b),
        ],
    )
}

fn put_edge(out: &mut Vec<u8>, scope: Scope, edge: &Edge) -> Result<(), Memory>
    ensures { OnOk result (out.new.items ≡ out.old.items ++ edge_text scope.entry.m.now scope.entry.f.now edge.now) }
{
    put_pieces(
        out,
        scope,
        &[
            Piece::Text(b"[ "),
            Piece::Value(edge.value),
            Piece::Text(b", "),
            Piece::Local(edge.label.as_slice()),
            Piece::Text(b" ]"),
        ],
    )
}

fn put_edges(out: &mut Vec<u8>, scope: Scope, edges: &[Edge]) -> Result<(), Memory>
    ensures { OnOk result (out.new.items ≡ out.old.items ++ comma_list (map (edge_text scope.entry.m.now scope.entry.f.now) edges.now)) }
{
    for (i, edge) in edges.iter().enumerate() {
        put_separator(out, i)?;
        put_edge(out, scope, edge)?;
    }
    Ok(())
}

pub fn put_phi(
    out: &mut Vec<u8>,
    scope: Scope,
    to: u32,
    ty: Scalar,
    edges: &[Edge],
) -> Result<(), Memory>
    ensures { OnOk result (out.new.items ≡ out.old.items ++ op_text scope.entry.m.now scope.entry.f.now (form.Phi to ty edges.now)) }
{
    put_pieces(
        out,
        scope,
        &[
            Piece::Given(to),
            Piece::Text(b"phi "),
            Piece::Scalar(ty),
            Piece::Text(b" "),
        ],
    )?;
    put_edges(out, scope, edges)
}

pub fn put_alloca(out: &mut Vec<u8>, scope: Scope, to: u32, ty: &IrType) -> Result<(), Memory>
    ensures { OnOk result (out.new.items ≡ out.old.items ++ op_text scope.entry.m.now scope.entry.f.now (form.Alloca to ty.now)) }
{
    put_pieces(
        out,
        scope,
        &[Piece::Given(to), Piece::Text(b"alloca "), Piece::Type(ty)],
    )
}

pub fn put_load(
    out: &mut Vec<u8>,
    scope: Scope,
    to: u32,
    ty: Scalar,
    at: Value,
) -> Result<(), Memory>
    ensures { OnOk result (out.new.items ≡ out.old.items ++ op_text scope.entry.m.now scope.entry.f.now (form.Load to ty at)) }
{
    put_pieces(
        out,
        scope,
        &[
            Piece::Given(to),
            Piece::Text(b"load "),
            Piece::Scalar(ty),
            Piece::Text(b", ptr "),
            Piece::Value(at),
        ],
    )
}

pub fn put_store(
    out: &mut Vec<u8>,
    scope: Scope,
    ty: Scalar,
    value: Value,
    at: Value,
) -> Result<(), Memory>
    ensures { OnOk result (out.new.items ≡ out.old.items ++ op_text scope.entry.m.now scope.entry.f.now (form.Store ty value at)) }
{
    put_pieces(
        out,
        scope,
        &[
            Piece::Text(b"store "),
            Piece::Operand(ty, value),
            Piece::Text(b", ptr "),
            Piece::Value(at),
        ],
    )
}

fn put_indices(out: &mut Vec<u8>, scope: Scope, indices: &[Argument]) -> Result<(), Memory>
    ensures { OnOk result (out.new.items ≡ out.old.items ++ flat_map (λ a. codes ", " ++ argument_text scope.entry.m.now scope.entry.f.now a) indices.now) }
{
    for index in indices {
        put(out, b", ")?;
        put_argument(out, scope, *index)?;
    }
    Ok(())
}

fn put_place(
    out: &mut Vec<u8>,
    scope: Scope,
    base: Value,
    indices: &[Argument],
) -> Result<(), Memory>
    ensures { OnOk result (out.new.items ≡ out.old.items ++ place_text scope.entry.m.now scope.entry.f.now base indices.now) }
{
    put_pieces(out, scope, &[Piece::Text(b", ptr "), Piece::Value(base)])?;
    put_indices(out, scope, indices)
}

pub fn put_element(
    out: &mut Vec<u8>,
    scope: Scope,
    to: u32,
    ty: &IrType,
    base: Value,
    indices: &[Argument],
) -> Result<(), Memory>
    ensures { OnOk result (out.new.items ≡ out.old.items ++ op_text scope.entry.m.now scope.entry.f.now (form.GetElementPtr to ty.now base indices.now)) }
{
    put_pieces(
        out,
        scope,
        &[
            Piece::Given(to),
            Piece::Text(b"getelementptr "),
            Piece::Type(ty),
        ],
    )?;
    put_place(out, scope, base, indices)
}

/// Appends a call behind the register that it gives.
fn put_called(
    out: &mut Vec<u8>,
    scope: Scope,
    ret: Option<Scalar>,
    callee: Callee,
    arguments: &[Argument],
) -> Result<(), Memory>
    ensures { OnOk result (out.new.items ≡ out.old.items ++ (codes "call " ++ result_text ret ++ codes " " ++ (callee_text scope.entry.m.now scope.entry.f.now callee ++ arguments_text scope.entry.m.now scope.entry.f.now arguments.now))) }
{
    put_pieces(
        out,
        scope,
        &[
            Piece::Text(b"call "),
            Piece::Result(ret),
            Piece::Text(b" "),
            Piece::Callee(callee),
        ],
    )?;
    put_arguments(out, scope, arguments)
}

pub fn put_call(
    out: &mut Vec<u8>,
    scope: Scope,
    to: Option<u32>,
    ret: Option<Scalar>,
    callee: Callee,
    arguments: &[Argument],
) -> Result<(), Memory>
    ensures { OnOk result (out.new.items ≡ out.old.items ++ op_text scope.entry.m.now scope.entry.f.now (form.Call to ret callee arguments.now)) }
{
    put_given_if(out, scope, to)?;
    put_called(out, scope, ret, callee, arguments)
}
