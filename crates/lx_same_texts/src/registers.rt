//! Instructions that give a register.
ghost use Rattle.std.specs.Prelude.{◌≡◌};
ghost use Rattle.lx_same_texts.specs.Same.{same_binary, same_comparison, same_convert, same_unary_op, same_select, same_phi, same_alloca, same_load, same_element_pointer, same_call};

use crate::operands::{
    are_same_arguments, are_same_edges, is_same_operator, is_same_predicate, is_same_register,
    is_same_target, is_same_unary, is_same_way,
};
use crate::types::is_same_type;
use lx_ir::instr::Op;
use lx_ir_verify::{is_same_result, is_same_scalar, is_same_value};

pub(crate) fn is_same_binary(one: &Op, other: &Op) -> bool
    ensures { result ≡ same_binary one.now other.now }
{
    match (one, other) {
        (
            Op::Binary { to, op, ty, a, b },
            Op::Binary {
                to: other_to,
                op: other_op,
                ty: other_ty,
                a: other_a,
                b: other_b,
            },
        ) => *to == *other_to
            && is_same_operator(*op, *other_op)
            && is_same_scalar(*ty, *other_ty)
            && is_same_value(*a, *other_a)
            && is_same_value(*b, *other_b),
        _ => false,
    }
}

pub(crate) fn is_same_comparison(one: &Op, other: &Op) -> bool
    ensures { result ≡ same_comparison one.now other.now }
{
    match (one, other) {
        (
            Op::Compare { to, pred, ty, a, b },
            Op::Compare {
                to: other_to,
                pred: other_pred,
                ty: other_ty,
                a: other_a,
                b: other_b,
            },
        ) => *to == *other_to
            && is_same_predicate(*pred, *other_pred)
            && is_same_scalar(*ty, *other_ty)
            && is_same_value(*a, *other_a)
            && is_same_value(*b, *other_b),
        _ => false,
    }
}

pub(crate) fn is_same_convert(one: &Op, other: &Op) -> bool
    ensures { result ≡ same_convert one.now other.now }
{
    match (one, other) {
        (
            Op::Convert {
                to,
                how,
                from,
                a,
                into,
            },
            Op::Convert {
                to: other_to,
                how: other_how,
                from: other_from,
                a: other_a,
                into: other_into,
            },
        ) => *to == *other_to
            && is_same_way(*how, *other_how)
            && is_same_scalar(*from, *other_from)
            && is_same_value(*a, *other_a)
            && is_same_scalar(*into, *other_into),
        _ => false,
    }
}

pub(crate) fn is_same_unary_op(one: &Op, other: &Op) -> bool
    ensures { result ≡ same_unary_op one.now other.now }
{
    match (one, other) {
        (
            Op::Unary { to, op, ty, a },
            Op::Unary {
                to: other_to,
                op: other_op,
                ty: other_ty,
                a: other_a,
            },
        ) => *to == *other_to
            && is_same_unary(*op, *other_op)
            && is_same_scalar(*ty, *other_ty)
            && is_same_value(*a, *other_a),
        _ => false,
    }
}

pub(crate) fn is_same_select(one: &Op, other: &Op) -> bool
    ensures { result ≡ same_select one.now other.now }
{
    match (one, other) {
        (
            Op::Select {
                to,
                condition,
                ty,
                a,
                b,
            },
            Op::Select {
                to: other_to,
                condition: other_condition,
                ty: other_ty,
                a: other_a,
                b: other_b,
            },
        ) => *to == *other_to
            && is_same_value(*condition, *other_condition)
            && is_same_scalar(*ty, *other_ty)
            && is_same_value(*a, *other_a)
            && is_same_value(*b, *other_b),
        _ => false,
    }
}

pub(crate) fn is_same_phi(one: &Op, other: &Op) -> bool
    ensures { result ≡ same_phi one.now other.now }
{
    match (one, other) {
        (
            Op::Phi { to, ty, edges },
            Op::Phi {
                to: other_to,
                ty: other_ty,
                edges: other_edges,
            },
        ) => *to == *other_to
            && is_same_scalar(*ty, *other_ty)
            && are_same_edges(edges.as_slice(), other_edges.as_slice()),
        _ => false,
    }
}

pub(crate) fn is_same_alloca(one: &Op, other: &Op) -> bool
    ensures { result ≡ same_alloca one.now other.now }
{
    match (one, other) {
        (
            Op::Alloca { to, ty },
            Op::Alloca {
                to: other_to,
                ty: other_ty,
            },
        ) => *to == *other_to && is_same_type(ty, other_ty),
        _ => false,
    }
}

pub(crate) fn is_same_load(one: &Op, other: &Op) -> bool
    ensures { result ≡ same_load one.now other.now }
{
    match (one, other) {
        (
            Op::Load { to, ty, at },
            Op::Load {
                to: other_to,
                ty: other_ty,
                at: other_at,
            },
        ) => *to == *other_to && is_same_scalar(*ty, *other_ty) && is_same_value(*at, *other_at),
        _ => false,
    }
}

pub(crate) fn is_same_element_pointer(one: &Op, other: &Op) -> bool
    ensures { result ≡ same_element_pointer one.now other.now }
{
    match (one, other) {
        (
            Op::GetElementPtr {
                to,
                ty,
                base,
                indices,
            },
            Op::GetElementPtr {
                to: other_to,
                ty: other_ty,
                base: other_base,
                indices: other_indices,
            },
        ) => *to == *other_to
            && is_same_type(ty, other_ty)
            && is_same_value(*base, *other_base)
            && are_same_arguments(indices.as_slice(), other_indices.as_slice()),
        _ => false,
    }
}

pub(crate) fn is_same_call(one: &Op, other: &Op) -> bool
    ensures { result ≡ same_call one.now other.now }
{
    match (one, other) {
        (
            Op::Call {
                to,
                ret,
                callee,
                args,
            },
            Op::Call {
                to: other_to,
                ret: other_ret,
                callee: other_callee,
                args: other_args,
            },
        ) => is_same_register(*to, *other_to)
            && is_same_result(*ret, *other_ret)
            && is_same_target(*callee, *other_callee)
            && are_same_arguments(args.as_slice(), other_args.as_slice()),
        _ => false,
    }
}
