//! Instructions that write, end a block, or are of images.
ghost use Rattle.std.specs.Prelude.{◌≡◌};
ghost use Rattle.lx_same_texts.specs.Same.{same_store, same_copy, same_fill, same_return, same_jump, same_branch, same_switch, same_unreachable, same_guard, same_check, same_enter, same_pre, same_post, same_leave};

use crate::operands::{
    are_same_cases, is_same_argument, is_same_name, is_same_returned, is_same_truth,
};
use lx_ir::instr::Op;
use lx_ir_verify::{is_same_scalar, is_same_symbol, is_same_value};

pub(crate) fn is_same_store(one: &Op, other: &Op) -> bool
    ensures { result ≡ same_store one.now other.now }
{
    match (one, other) {
        (
            Op::Store { ty, value, at },
            Op::Store {
                ty: other_ty,
                value: other_value,
                at: other_at,
            },
        ) => is_same_scalar(*ty, *other_ty)
            && is_same_value(*value, *other_value)
            && is_same_value(*at, *other_at),
        _ => false,
    }
}

pub(crate) fn is_same_copy(one: &Op, other: &Op) -> bool
    ensures { result ≡ same_copy one.now other.now }
{
    match (one, other) {
        (
            Op::CopyBlock {
                moves,
                dest,
                source,
                len,
            },
            Op::CopyBlock {
                moves: other_moves,
                dest: other_dest,
                source: other_source,
                len: other_len,
            },
        ) => is_same_truth(*moves, *other_moves)
            && is_same_value(*dest, *other_dest)
            && is_same_value(*source, *other_source)
            && is_same_argument(*len, *other_len),
        _ => false,
    }
}

pub(crate) fn is_same_fill(one: &Op, other: &Op) -> bool
    ensures { result ≡ same_fill one.now other.now }
{
    match (one, other) {
        (
            Op::FillBlock { dest, byte, len },
            Op::FillBlock {
                dest: other_dest,
                byte: other_byte,
                len: other_len,
            },
        ) => is_same_value(*dest, *other_dest)
            && is_same_value(*byte, *other_byte)
            && is_same_argument(*len, *other_len),
        _ => false,
    }
}

pub(crate) fn is_same_return(one: &Op, other: &Op) -> bool
    ensures { result ≡ same_return one.now other.now }
{
    match (one, other) {
        (Op::Ret { value }, Op::Ret { value: other_value }) => is_same_returned(
            *value,
            *other_value,
        ),
        _ => false,
    }
}

pub(crate) fn is_same_jump(one: &Op, other: &Op) -> bool
    ensures { result ≡ same_jump one.now other.now }
{
    match (one, other) {
        (Op::Jump { label }, Op::Jump { label: other_label }) => is_same_name(label, other_label),
        _ => false,
    }
}

pub(crate) fn is_same_branch(one: &Op, other: &Op) -> bool
    ensures { result ≡ same_branch one.now other.now }
{
    match (one, other) {
        (
            Op::Branch {
                condition,
                if_true,
                if_false,
            },
            Op::Branch {
                condition: other_condition,
                if_true: other_if_true,
                if_false: other_if_false,
            },
        ) => is_same_value(*condition, *other_condition)
            && is_same_name(if_true, other_if_true)
            && is_same_name(if_false, other_if_false),
        _ => false,
    }
}

pub(crate) fn is_same_switch(one: &Op, other: &Op) -> bool
    ensures { result ≡ same_switch one.now other.now }
{
    match (one, other) {
        (
            Op::Switch {
                ty,
                value,
                otherwise,
                cases,
            },
            Op::Switch {
                ty: other_ty,
                value: other_value,
                otherwise: other_otherwise,
                cases: other_cases,
            },
        ) => is_same_scalar(*ty, *other_ty)
            && is_same_value(*value, *other_value)
            && is_same_name(otherwise, other_otherwise)
            && are_same_cases(cases.as_slice(), other_cases.as_slice()),
        _ => false,
    }
}

pub(crate) fn is_same_unreachable(one: &Op, other: &Op) -> bool
    ensures { result ≡ same_unreachable one.now other.now }
{
    match (one, other) {
        (Op::Unreachable, Op::Unreachable) => true,
        _ => false,
    }
}

pub(crate) fn is_same_guard(one: &Op, other: &Op) -> bool
    ensures { result ≡ same_guard one.now other.now }
{
    match (one, other) {
        (
            Op::Guard { at, size, narrow },
            Op::Guard {
                at: other_at,
                size: other_size,
                narrow: other_narrow,
            },
        ) => is_same_value(*at, *other_at)
            && is_same_value(*size, *other_size)
            && is_same_truth(*narrow, *other_narrow),
        _ => false,
    }
}

pub(crate) fn is_same_check(one: &Op, other: &Op) -> bool
    ensures { result ≡ same_check one.now other.now }
{
    match (one, other) {
        (
            Op::Check { target },
            Op::Check {
                target: other_target,
            },
        ) => is_same_value(*target, *other_target),
        _ => false,
    }
}

pub(crate) fn is_same_enter(one: &Op, other: &Op) -> bool
    ensures { result ≡ same_enter one.now other.now }
{
    match (one, other) {
        (Op::Enter { f }, Op::Enter { f: other_f }) => is_same_symbol(*f, *other_f),
        _ => false,
    }
}

pub(crate) fn is_same_pre(one: &Op, other: &Op) -> bool
    ensures { result ≡ same_pre one.now other.now }
{
    match (one, other) {
        (
            Op::Pre { f, k },
            Op::Pre {
                f: other_f,
                k: other_k,
            },
        ) => is_same_symbol(*f, *other_f) && *k == *other_k,
        _ => false,
    }
}

pub(crate) fn is_same_post(one: &Op, other: &Op) -> bool
    ensures { result ≡ same_post one.now other.now }
{
    match (one, other) {
        (
            Op::Post { f, k },
            Op::Post {
                f: other_f,
                k: other_k,
            },
        ) => is_same_symbol(*f, *other_f) && *k == *other_k,
        _ => false,
    }
}

pub(crate) fn is_same_leave(one: &Op, other: &Op) -> bool
    ensures { result ≡ same_leave one.now other.now }
{
    match (one, other) {
        (Op::Leave { f }, Op::Leave { f: other_f }) => is_same_symbol(*f, *other_f),
        _ => false,
    }
}
