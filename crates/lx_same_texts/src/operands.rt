//! Operators, operands, and lists of them.
ghost use Rattle.std.specs.Prelude.{◌≡◌, bytes_eq};
ghost use Rattle.lx_image_texts.specs.ImageFaults.{same_argument, same_narrow, same_register, same_returned};
ghost use Rattle.lx_same_texts.specs.Same.{same_lists, operator_number, same_operator, predicate_number, same_predicate, same_conversion, same_unary, same_target, same_edge, same_case};

use lx_ir::instr::{Argument, Callee, Conversion, Edge, SwitchCase, UnaryOp};
use lx_ir_verify::{is_same_scalar, is_same_symbol, is_same_value};
use lx_words::{BinOp, Name, Pred};

pub(crate) fn is_same_name(a: &Name, b: &Name) -> bool
    ensures { result ≡ bytes_eq a.now b.now }
{
    a.is_same(b.as_slice())
}

pub(crate) fn is_same_truth(a: bool, b: bool) -> bool
    ensures { result ≡ same_narrow a b }
{
    if a { b } else { !b }
}

fn operator_number(operator: BinOp) -> u8
    ensures { result ≡ operator_number operator }
{
    match operator {
        BinOp::Add => 0,
        BinOp::Sub => 1,
        BinOp::Mul => 2,
        BinOp::UDiv => 3,
        BinOp::SDiv => 4,
        BinOp::URem => 5,
        BinOp::SRem => 6,
        BinOp::And => 7,
        BinOp::Or => 8,
        BinOp::Xor => 9,
        BinOp::Shl => 10,
        BinOp::LShr => 11,
        BinOp::AShr => 12,
    }
}

pub(crate) fn is_same_operator(a: BinOp, b: BinOp) -> bool
    ensures { result ≡ same_operator a b }
{
    operator_number(a) == operator_number(b)
}

fn predicate_number(predicate: Pred) -> u8
    ensures { result ≡ predicate_number predicate }
{
    match predicate {
        Pred::Eq => 0,
        Pred::Ne => 1,
        Pred::Ugt => 2,
        Pred::Uge => 3,
        Pred::Ult => 4,
        Pred::Ule => 5,
        Pred::Sgt => 6,
        Pred::Sge => 7,
        Pred::Slt => 8,
        Pred::Sle => 9,
    }
}

pub(crate) fn is_same_predicate(a: Pred, b: Pred) -> bool
    ensures { result ≡ same_predicate a b }
{
    predicate_number(a) == predicate_number(b)
}

/// Whether two conversions are the same.
pub(crate) fn is_same_way(a: Conversion, b: Conversion) -> bool
    ensures { result ≡ same_conversion a b }
{
    a.word() == b.word()
}

pub(crate) fn is_same_unary(a: UnaryOp, b: UnaryOp) -> bool
    ensures { result ≡ same_unary a b }
{
    a.word() == b.word()
}

pub(crate) fn is_same_register(a: Option<u32>, b: Option<u32>) -> bool
    ensures { result ≡ same_register a b }
{
    match (a, b) {
        (None, None) => true,
        (Some(a), Some(b)) => a == b,
        _ => false,
    }
}

pub(crate) fn is_same_argument(a: Argument, b: Argument) -> bool
    ensures { result ≡ same_argument a b }
{
    is_same_scalar(a.ty, b.ty) && is_same_value(a.value, b.value)
}

pub(crate) fn is_same_returned(a: Option<Argument>, b: Option<Argument>) -> bool
    ensures { result ≡ same_returned a b }
{
    match (a, b) {
        (None, None) => true,
        (Some(a), Some(b)) => is_same_argument(a, b),
        _ => false,
    }
}

pub(crate) fn is_same_target(a: Callee, b: Callee) -> bool
    ensures { result ≡ same_target a b }
{
    match (a, b) {
        (Callee::Symbol(a), Callee::Symbol(b)) => is_same_symbol(a, b),
        (Callee::Register(a), Callee::Register(b)) => a == b,
        _ => false,
    }
}

fn is_same_edge(a: &Edge, b: &Edge) -> bool
    ensures { result ≡ same_edge a.now b.now }
{
    is_same_value(a.value, b.value) && is_same_name(&a.label, &b.label)
}

fn is_same_case(a: &SwitchCase, b: &SwitchCase) -> bool
    ensures { result ≡ same_case a.now b.now }
{
    is_same_value(a.value, b.value) && is_same_name(&a.label, &b.label)
}

#[tactic(auto, using(crate::proofs::Loops::lists_step, crate::proofs::Loops::lists_end, crate::proofs::Loops::lists_length))]
pub(crate) fn are_same_edges(a: &[Edge], b: &[Edge]) -> bool
    ensures { result ≡ same_lists same_edge a.now b.now }
{
    if a.len() != b.len() {
        return false;
    }
    for i in 0..a.len() {
        if !is_same_edge(&a[i], &b[i]) {
            return false;
        }
    }
    true
}

#[tactic(auto, using(crate::proofs::Loops::lists_step, crate::proofs::Loops::lists_end, crate::proofs::Loops::lists_length))]
pub(crate) fn are_same_cases(a: &[SwitchCase], b: &[SwitchCase]) -> bool
    ensures { result ≡ same_lists same_case a.now b.now }
{
    if a.len() != b.len() {
        return false;
    }
    for i in 0..a.len() {
        if !is_same_case(&a[i], &b[i]) {
            return false;
        }
    }
    true
}

#[tactic(auto, using(crate::proofs::Loops::lists_step, crate::proofs::Loops::lists_end, crate::proofs::Loops::lists_length))]
pub(crate) fn are_same_arguments(a: &[Argument], b: &[Argument]) -> bool
    ensures { result ≡ same_lists same_argument a.now b.now }
{
    if a.len() != b.len() {
        return false;
    }
    for i in 0..a.len() {
        if !is_same_argument(a[i], b[i]) {
            return false;
        }
    }
    true
}
