//! Types, as they are written.
ghost use Rattle.std.specs.Prelude.{◌≡◌};
ghost use Rattle.lx_ir.specs.TypeNodes.{types_of_list};
ghost use Rattle.lx_ir.specs.Faults.{same_type, same_types};
ghost use Rattle.lx_same_texts.specs.Same.{same_lists, same_named_type};

use crate::operands::is_same_name;
use lx_ir::types::{IrType, NamedType, TypeNode};
use lx_ir_verify::is_same_scalar;

/// Whether two types are the same.
#[cycle(same)]
#[tactic(auto, using(crate::proofs::Loops::same_step, crate::proofs::Loops::same_end, crate::proofs::Loops::other_length))]
pub(crate) fn is_same_type(a: &IrType, b: &IrType) -> bool
    ensures { result ≡ same_type a.now b.now }
{
    match (&a.node, &b.node) {
        (TypeNode::Scalar(a), TypeNode::Scalar(b)) => is_same_scalar(*a, *b),
        (TypeNode::Array(m, a), TypeNode::Array(n, b)) => *m == *n && is_same_type(a, b),
        (TypeNode::Struct(a), TypeNode::Struct(b)) => are_same_types(a, b),
        (TypeNode::Packed(a), TypeNode::Packed(b)) => are_same_types(a, b),
        (TypeNode::Named(j), TypeNode::Named(k)) => *j == *k,
        _ => false,
    }
}

/// Whether two lists of types are the same.
#[cycle(same)]
#[tactic(auto, using(crate::proofs::Loops::same_step, crate::proofs::Loops::same_end, crate::proofs::Loops::other_length))]
pub(crate) fn are_same_types(a: &[IrType], b: &[IrType]) -> bool
    ensures { result ≡ same_types (types_of_list a.now) (types_of_list b.now) }
{
    if a.len() != b.len() {
        return false;
    }
    for i in 0..a.len() {
        if !is_same_type(&a[i], &b[i]) {
            return false;
        }
    }
    true
}

fn is_same_named_type(a: &NamedType, b: &NamedType) -> bool
    ensures { result ≡ same_named_type a.now b.now }
{
    is_same_name(&a.name, &b.name) && is_same_type(&a.ty, &b.ty)
}

#[tactic(auto, using(crate::proofs::Loops::lists_step, crate::proofs::Loops::lists_end, crate::proofs::Loops::lists_length))]
pub(crate) fn are_same_named_types(a: &[NamedType], b: &[NamedType]) -> bool
    ensures { result ≡ same_lists same_named_type a.now b.now }
{
    if a.len() != b.len() {
        return false;
    }
    for i in 0..a.len() {
        if !is_same_named_type(&a[i], &b[i]) {
            return false;
        }
    }
    true
}
