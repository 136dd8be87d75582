//! Whether signatures agree: parameters and results by their widths.
ghost use Rattle.std.specs.Prelude.{◌≡◌, map};
ghost use Rattle.lx_ir.specs.Layout.{width_of};
ghost use Rattle.lx_model.specs.Enter.{fits_params, has_signature};
ghost use Rattle.lx_model.specs.Program.{are_declared, declared_width, has_slot_signature, is_of_width, result_width, same_result, same_widths};
ghost use Rattle.lx_words.specs.Width.{same_width};

use crate::functions::function_of;
use lx_annot::expr::Ty;
use lx_annot::interface::{Parameter as Declared, Slot};
use lx_ir::module::{Function, Parameter};
use lx_ir::types::Scalar;
use lx_model::program::Program;
use lx_words::{Width, Word};

/// The width of a type of a register; an address has 64 bits.
pub fn width_of(ty: Scalar) -> Width
    ensures { result ≡ width_of ty }
{
    match ty {
        Scalar::Int(width) => width,
        Scalar::Ptr => Width::W64,
    }
}

/// Whether two widths are the same.
pub fn is_same_width(a: Width, b: Width) -> bool
    ensures { result ≡ same_width a b }
{
    a.bit_count() == b.bit_count()
}

/// The width of a declared type; `void` has none.
pub fn declared_width(ty: Ty) -> Option<Width>
    ensures { result ≡ declared_width ty }
{
    match ty {
        Ty::Void => None,
        Ty::Bool => Some(Width::W1),
        Ty::I8 | Ty::U8 => Some(Width::W8),
        Ty::I16 | Ty::U16 => Some(Width::W16),
        Ty::I32 | Ty::U32 => Some(Width::W32),
        Ty::I64 | Ty::Ptr => Some(Width::W64),
    }
}

fn is_of_width(declared: Option<Width>, width: Width) -> bool
    ensures { result ≡ is_of_width declared width }
{
    match declared {
        None => false,
        Some(declared) => is_same_width(declared, width),
    }
}

fn is_passed(arg: Word, parameter: &Parameter) -> bool
    ensures { result ≡ same_width arg.width (width_of parameter.now.ty) }
{
    is_same_width(arg.width, width_of(parameter.ty))
}

/// Whether arguments are as many and as wide as a function's parameters.
#[tactic(auto, using(crate::proofs::Pairs::widths_step, crate::proofs::Pairs::widths_end, crate::proofs::Pairs::widths_length))]
fn are_passed(args: &[Word], parameters: &[Parameter]) -> bool
    ensures { result ≡ same_widths (map (λ x. x.width) args.now) (map (λ x. width_of x.ty) parameters.now) }
{
    if args.len() != parameters.len() {
        return false;
    }
    for i in 0..args.len() {
        if !is_passed(args[i], &parameters[i]) {
            return false;
        }
    }
    true
}

fn is_declared(declared: &Declared, parameter: &Parameter) -> bool
    ensures { result ≡ is_of_width (declared_width declared.now.ty) (width_of parameter.now.ty) }
{
    is_of_width(declared_width(declared.ty), width_of(parameter.ty))
}

/// Whether parameters are as many and as wide as they are declared. A `void` one has no width, and agrees with nothing.
#[tactic(auto, using(crate::proofs::Pairs::declared_step, crate::proofs::Pairs::declared_end, crate::proofs::Pairs::declared_length))]
pub fn are_declared(declared: &[Declared], parameters: &[Parameter]) -> bool
    ensures { result ≡ are_declared declared.now (map (λ x. width_of x.ty) parameters.now) }
{
    if declared.len() != parameters.len() {
        return false;
    }
    for i in 0..declared.len() {
        if !is_declared(&declared[i], &parameters[i]) {
            return false;
        }
    }
    true
}

/// Whether parameters have these widths.
#[tactic(auto, using(crate::proofs::Pairs::bare_step, crate::proofs::Pairs::bare_end, crate::proofs::Pairs::bare_length))]
pub fn have_widths(widths: &[Width], parameters: &[Parameter]) -> bool
    ensures { result ≡ same_widths widths.now (map (λ x. width_of x.ty) parameters.now) }
{
    if widths.len() != parameters.len() {
        return false;
    }
    for i in 0..widths.len() {
        if !is_same_width(widths[i], width_of(parameters[i].ty)) {
            return false;
        }
    }
    true
}

/// Whether parameters are as many and as wide as others.
#[tactic(auto, using(crate::proofs::Pairs::widths_step, crate::proofs::Pairs::widths_end, crate::proofs::Pairs::widths_length))]
pub fn have_same_widths(some: &[Parameter], others: &[Parameter]) -> bool
    ensures { result ≡ same_widths (map (λ x. width_of x.ty) some.now) (map (λ x. width_of x.ty) others.now) }
{
    if some.len() != others.len() {
        return false;
    }
    for i in 0..some.len() {
        if !is_same_width(width_of(some[i].ty), width_of(others[i].ty)) {
            return false;
        }
    }
    true
}

/// Whether two results are of the same width, or there is neither.
pub fn is_same_result(a: Option<Width>, b: Option<Width>) -> bool
    ensures { result ≡ same_result a b }
{
    match (a, b) {
        (None, None) => true,
        (Some(a), Some(b)) => is_same_width(a, b),
        _ => false,
    }
}

/// The width of a function's result.
pub fn result_width(function: &Function) -> Option<Width>
    ensures { result ≡ result_width function.now }
{
    match function.ret {
        None => None,
        Some(ty) => Some(width_of(ty)),
    }
}

/// Whether a function has the signature of a slot type.
pub fn has_slot_signature(slot: &Slot, function: &Function) -> bool
    ensures { result ≡ has_slot_signature slot.now function.now }
{
    are_declared(slot.params.as_slice(), function.params.as_slice())
        && is_same_result(declared_width(slot.ret), result_width(function))
}

/// Whether arguments fit the parameters of the function with this number: as many, and each of the same width.
pub fn fits_params(program: &Program, args: &[Word], function: u32) -> bool
    ensures { result ≡ fits_params program.now args.now function }
{
    match function_of(program, function) {
        Some(function) => are_passed(args, function.params.as_slice()),
        None => false,
    }
}

/// Whether the function with this number has the signature of the slot type with this number: parameters and result of the
/// same widths.
pub fn has_signature(program: &Program, ty: u32, function: u32) -> bool
    ensures { result ≡ has_signature program.now ty function }
{
    match program.interface.slots.items.get(ty as usize) {
        Some(slot) => match function_of(program, function) {
            Some(function) => has_slot_signature(slot, function),
            None => false,
        },
        None => false,
    }
}
