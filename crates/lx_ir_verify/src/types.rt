//! Types, compared as they are written, and the initialisers of globals.
ghost use Rattle.std.specs.Prelude.{◌≡◌};
ghost use Rattle.lx_ir.specs.Lawful.{same_scalar};
ghost use Rattle.lx_ir.specs.TypeNodes.{types_of_list};
ghost use Rattle.lx_ir.specs.InitNodes.{inits_of_list};
ghost use Rattle.lx_ir.specs.Faults.{same_type, same_types, are_types, type_of_constant, has_items, holds_bytes, init_fits, inits_fit, global_fault, first_some};
ghost use Rattle.std.specs.List.{list_all};
ghost use Rattle.lx_ir.specs.IrType.{One};
ghost use Rattle.lx_words.specs.declared.word.Width.TheVariants.{W8};
ghost use Rattle.lx_ir_verify.specs.Shown.{Gives};

use crate::fault::{VerifyFault, marked};
use lx_ir::module::{Brackets, Constant, GlobalVar, Init, InitNode, Module};
use lx_ir::types::{IrType, Scalar, TypeNode};
use lx_ir::unnamed;
use lx_words::Width;
use std::alloc::Global;

/// Whether two types of registers are the same.
pub fn is_same_scalar(a: Scalar, b: Scalar) -> bool
    ensures { result ≡ same_scalar a b }
{
    match (a, b) {
        (Scalar::Int(a), Scalar::Int(b)) => a.bit_count() == b.bit_count(),
        (Scalar::Ptr, Scalar::Ptr) => true,
        _ => false,
    }
}

/// The type of a constant.
pub fn type_of_constant(constant: Constant) -> Scalar
    ensures { result ≡ type_of_constant constant }
{
    match constant {
        Constant::Number(word) => Scalar::Int(word.width),
        Constant::Truth(_) => Scalar::Int(Width::W1),
        Constant::Blank(_, width) => Scalar::Int(width),
        Constant::Pointer(_) => Scalar::Ptr,
        Constant::Cast(_, width) => Scalar::Int(width),
    }
}

/// Whether two types are the same, as they are written.
#[cycle(same)]
#[tactic(auto, using(crate::proofs::SameTypes::same_step, crate::proofs::SameTypes::same_end, crate::proofs::SameTypes::other_length))]
fn is_same_type(a: &IrType, b: &IrType) -> bool
    ensures { result ≡ same_type a.now b.now }
{
    match (&a.node, &b.node) {
        (TypeNode::Scalar(a), TypeNode::Scalar(b)) => is_same_scalar(*a, *b),
        (TypeNode::Array(m, a), TypeNode::Array(n, b)) => *m == *n && is_same_type(a, b),
        (TypeNode::Struct(a), TypeNode::Struct(b)) => are_same_types(a, b),
        (TypeNode::Packed(a), TypeNode::Packed(b)) => are_same_types(a, b),
        (TypeNode::Named(j), TypeNode::Named(k)) => *j == *k,
        _ => false,
    }
}

/// Whether two lists of types are the same.
#[cycle(same)]
#[tactic(auto, using(crate::proofs::SameTypes::same_step, crate::proofs::SameTypes::same_end, crate::proofs::SameTypes::other_length))]
fn are_same_types(a: &[IrType], b: &[IrType]) -> bool
    ensures { result ≡ same_types (types_of_list a.now) (types_of_list b.now) }
{
    if a.len() != b.len() {
        return false;
    }
    for i in 0..a.len() {
        if !is_same_type(&a[i], &b[i]) {
            return false;
        }
    }
    true
}

/// Whether a type is that of a register.
fn is_register_type(t: &IrType, ty: Scalar) -> bool
    ensures { result ≡ same_type t.now (One ty) }
{
    match &t.node {
        TypeNode::Scalar(scalar) => is_same_scalar(*scalar, ty),
        _ => false,
    }
}

/// Whether these types are all the same as another.
fn are_all(types: &[IrType], t: &IrType) -> bool
    ensures { result ≡ list_all (λ u. same_type u t.now) types.now }
{
    types.iter().all(|u| is_same_type(u, t))
}

/// Whether the types of a group's items are those of a type's elements or fields.
#[tactic(auto, using(crate::proofs::SameTypes::are_types_same))]
fn has_items(t: &IrType, brackets: Brackets, items: &[IrType]) -> bool
    ensures { result ≡ has_items t.now brackets items.now }
{
    match (&t.node, brackets) {
        (TypeNode::Array(count, element), Brackets::Array) => {
            *count == items.len() as u64 && are_all(items, element)
        }
        (TypeNode::Struct(fields), Brackets::Struct) => are_same_types(items, fields),
        (TypeNode::Packed(fields), Brackets::Packed) => are_same_types(items, fields),
        _ => false,
    }
}

fn is_byte(t: &IrType) -> bool
    ensures { result ≡ same_type t.now (One (Scalar.Int W8)) }
{
    is_register_type(t, Scalar::Int(Width::W8))
}

/// Whether a type is an array of so many bytes.
#[tactic(auto, using(crate::proofs::SameTypes::bytes_held))]
fn holds_bytes(t: &IrType, len: usize) -> bool
    ensures { result ≡ holds_bytes t.now len }
{
    match &t.node {
        TypeNode::Array(count, element) => is_byte(element) && *count == len as u64,
        _ => false,
    }
}

/// Whether an initialiser is of the type.
#[cycle(fits)]
#[tactic(auto, using(crate::proofs::SameTypes::fits_step, crate::proofs::SameTypes::fits_end))]
fn init_fits(m: &Module, t: &IrType, init: &Init) -> bool
    ensures { result ≡ init_fits m.now.types t.now init.now }
{
    match &init.node {
        InitNode::Plain(constant) => is_register_type(t, type_of_constant(*constant)),
        InitNode::Blank(_) => true,
        InitNode::Bytes(bytes) => holds_bytes(t, bytes.len()),
        InitNode::Group(brackets, types, items) => {
            has_items(unnamed(m, t), *brackets, types.as_slice())
                && inits_fit(m, types.as_slice(), items)
        }
    }
}

/// Whether the items of a group are of its types.
#[cycle(fits)]
#[tactic(auto, using(crate::proofs::SameTypes::fits_step, crate::proofs::SameTypes::fits_end))]
fn inits_fit(m: &Module, types: &[IrType], items: &[Init]) -> bool
    ensures { result ≡ inits_fit m.now.types types.now (inits_of_list items.now) }
{
    for i in 0..types.len().min(items.len()) {
        if !init_fits(m, &types[i], &items[i]) {
            return false;
        }
    }
    true
}

fn check_global(alloc: Global, m: &Module, global: &GlobalVar) -> Result<(), VerifyFault>
    ensures { Gives (global_fault m.now global.now) result }
{
    if init_fits(m, &global.ty, &global.init) {
        return Ok(());
    }
    let what = marked(alloc, b"@", global.name.as_slice())?;
    Err(VerifyFault::TypeDiffers {
        line: global.line,
        what,
    })
}

/// Finds the first global whose initialiser is of another type.
#[tactic(auto, using(crate::proofs::Passes::first_step, crate::proofs::Passes::first_end, crate::proofs::Passes::first_answer))]
pub fn check_globals(alloc: Global, m: &Module) -> Result<(), VerifyFault>
    ensures { Gives (first_some (global_fault m.now) m.now.globals) result }
{
    for global in m.globals.as_slice() {
        check_global(alloc, m, global)?;
    }
    Ok(())
}
