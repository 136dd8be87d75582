//! Whether signatures agree: parameters and results by their widths.
ghost use Rattle.std.specs.Prelude.{◌≡◌, ◌<◌, map};
ghost use Rattle.lx_ir.specs.Layout.{width_of};
ghost use Rattle.lx_model.specs.Program.{native_call};
ghost use Rattle.lx_model.specs.Fits.{native_widths};
ghost use Rattle.lx_link_texts.specs.Signatures.{has_export_signature, are_behind_pointer, has_slot_call_signature, native_result, has_native_signature, have_same_signature};

use lx_annot::interface::{Export, Parameter as Declared, Slot};
use lx_call_targets::{
    are_declared, declared_width, have_same_widths, have_widths, is_same_result, is_same_width,
    result_width, width_of,
};
use lx_ir::module::{Function, Parameter};
use lx_words::Width;

/// Whether a function has the signature that an export declares.
pub fn has_export_signature(export: &Export, function: &Function) -> bool
    ensures { result ≡ has_export_signature export.now function.now }
{
    are_declared(export.params.as_slice(), function.params.as_slice())
        && is_same_result(declared_width(export.ret), result_width(function))
}

/// Whether parameters are a pointer and those that are declared.
fn are_behind_pointer(declared: &[Declared], parameters: &[Parameter]) -> bool
    ensures { result ≡ are_behind_pointer declared.now (map (λ x. width_of x.ty) parameters.now) }
{
    match parameters.split_first() {
        None => false,
        Some((first, rest)) => {
            is_same_width(Width::W64, width_of(first.ty)) && are_declared(declared, rest)
        }
    }
}

/// Whether a function has the signature of a call through a slot of a slot type.
pub fn has_slot_call_signature(slot: &Slot, function: &Function) -> bool
    ensures { result ≡ has_slot_call_signature slot.now function.now }
{
    are_behind_pointer(slot.params.as_slice(), function.params.as_slice())
        && is_same_result(declared_width(slot.ret), result_width(function))
}

/// The widths of the parameters of the native with this number.
#[tactic(auto, using(crate::proofs::Natives::last_widths))]
fn native_widths(native: u32) -> &'static [Width]
    requires { native < 6 }
    ensures { result.now ≡ native_widths (native_call native) }
{
    match native {
        0 | 1 | 3 | 4 => &[Width::W64],
        _ => &[Width::W64, Width::W64],
    }
}

/// The width of the result of the native with this number.
#[tactic(auto, using(crate::proofs::Natives::last_result))]
fn native_result(native: u32) -> Option<Width>
    requires { native < 6 }
    ensures { result ≡ native_result (native_call native) }
{
    match native {
        0 => Some(Width::W64),
        3 => Some(Width::W32),
        _ => None,
    }
}

/// Whether a function has the signature of the native with this number.
pub fn has_native_signature(native: u32, function: &Function) -> bool
    requires { native < 6 }
    ensures { result ≡ has_native_signature native function.now }
{
    have_widths(native_widths(native), function.params.as_slice())
        && is_same_result(native_result(native), result_width(function))
}

/// Whether two functions have the same signature.
pub fn have_same_signature(some: &Function, other: &Function) -> bool
    ensures { result ≡ have_same_signature some.now other.now }
{
    have_same_widths(some.params.as_slice(), other.params.as_slice())
        && is_same_result(result_width(some), result_width(other))
}
