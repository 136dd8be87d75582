//! Globals, with their initialisers.
ghost use Rattle.std.specs.Prelude.{◌≡◌};
ghost use Rattle.lx_ir.specs.Faults.{same_blank};
ghost use Rattle.lx_ir.specs.InitNodes.{inits_of_list};
ghost use Rattle.lx_same_texts.specs.Same.{same_lists, same_brackets, same_init, same_inits, same_global};

use crate::operands::{is_same_name, is_same_truth};
use crate::types::{are_same_types, is_same_type};
use lx_ir::module::{Blank, Brackets, GlobalVar, Init, InitNode, Value};
use lx_ir_verify::is_same_value;

fn is_same_blank(a: Blank, b: Blank) -> bool
    ensures { result ≡ same_blank a b }
{
    match (a, b) {
        (Blank::Undef, Blank::Undef) => true,
        (Blank::Poison, Blank::Poison) => true,
        (Blank::Zero, Blank::Zero) => true,
        _ => false,
    }
}

fn are_same_brackets(a: Brackets, b: Brackets) -> bool
    ensures { result ≡ same_brackets a b }
{
    match (a, b) {
        (Brackets::Struct, Brackets::Struct) => true,
        (Brackets::Packed, Brackets::Packed) => true,
        (Brackets::Array, Brackets::Array) => true,
        _ => false,
    }
}

/// Whether two initialisers are the same.
#[cycle(inits)]
#[tactic(auto, using(crate::proofs::Loops::inits_step, crate::proofs::Loops::inits_end, crate::proofs::Loops::inits_length))]
fn is_same_init(a: &Init, b: &Init) -> bool
    ensures { result ≡ same_init a.now b.now }
{
    match (&a.node, &b.node) {
        (InitNode::Plain(a), InitNode::Plain(b)) => {
            is_same_value(Value::Constant(*a), Value::Constant(*b))
        }
        (InitNode::Blank(a), InitNode::Blank(b)) => is_same_blank(*a, *b),
        (InitNode::Bytes(a), InitNode::Bytes(b)) => is_same_name(a, b),
        (InitNode::Group(j, ts, is), InitNode::Group(k, us, js)) => {
            are_same_brackets(*j, *k)
                && are_same_types(ts.as_slice(), us.as_slice())
                && are_same_inits(is, js)
        }
        _ => false,
    }
}

/// Whether two lists of initialisers are the same.
#[cycle(inits)]
#[tactic(auto, using(crate::proofs::Loops::inits_step, crate::proofs::Loops::inits_end, crate::proofs::Loops::inits_length))]
fn are_same_inits(a: &[Init], b: &[Init]) -> bool
    ensures { result ≡ same_inits (inits_of_list a.now) (inits_of_list b.now) }
{
    if a.len() != b.len() {
        return false;
    }
    for i in 0..a.len() {
        if !is_same_init(&a[i], &b[i]) {
            return false;
        }
    }
    true
}

fn is_same_global(a: &GlobalVar, b: &GlobalVar) -> bool
    ensures { result ≡ same_global a.now b.now }
{
    is_same_name(&a.name, &b.name)
        && is_same_truth(a.constant, b.constant)
        && is_same_type(&a.ty, &b.ty)
        && is_same_init(&a.init, &b.init)
}

#[tactic(auto, using(crate::proofs::Loops::lists_step, crate::proofs::Loops::lists_end, crate::proofs::Loops::lists_length))]
pub(crate) fn are_same_globals(a: &[GlobalVar], b: &[GlobalVar]) -> bool
    ensures { result ≡ same_lists same_global a.now b.now }
{
    if a.len() != b.len() {
        return false;
    }
    for i in 0..a.len() {
        if !is_same_global(&a[i], &b[i]) {
            return false;
        }
    }
    true
}
