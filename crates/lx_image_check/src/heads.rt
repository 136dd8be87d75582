//! The heads of wrappers: what is said beside their lines.
ghost use Rattle.std.specs.Prelude.{◌≡◌, ◌&&◌, bytes_eq, flat_map, length, map, nat_eq};
ghost use Rattle.lx_ir.specs.Lawful.{same_scalar};
ghost use Rattle.lx_image_texts.specs.ImageFaults.{same_head, same_names, same_params};
ghost use Rattle.lx_ir.specs.Lookup.{blocks_of, instrs_of};

use lx_ir::module::{Block, Function, Parameter};
use lx_ir_uses::blocks_of;
use lx_ir_verify::{is_same_result, is_same_scalar};
use lx_words::Name;

fn is_same_parameter(a: &Parameter, b: &Parameter) -> bool
    ensures { result ≡ (bytes_eq a.now.name b.now.name && same_scalar a.now.ty b.now.ty) }
{
    a.name.is_same(b.name.as_slice()) && is_same_scalar(a.ty, b.ty)
}

#[tactic(auto, using(crate::proofs::Comparing::params_step, crate::proofs::Comparing::params_end, crate::proofs::Comparing::params_length))]
fn are_same_parameters(a: &[Parameter], b: &[Parameter]) -> bool
    ensures { result ≡ same_params a.now b.now }
{
    if a.len() != b.len() {
        return false;
    }
    for i in 0..a.len() {
        if !is_same_parameter(&a[i], &b[i]) {
            return false;
        }
    }
    true
}

fn is_same_name(a: &Name, b: &Name) -> bool
    ensures { result ≡ bytes_eq a.now b.now }
{
    a.is_same(b.as_slice())
}

#[tactic(auto, using(crate::proofs::Comparing::names_step, crate::proofs::Comparing::names_end, crate::proofs::Comparing::names_length))]
fn are_same_names(a: &[Name], b: &[Name]) -> bool
    ensures { result ≡ same_names a.now b.now }
{
    if a.len() != b.len() {
        return false;
    }
    for i in 0..a.len() {
        if !is_same_name(&a[i], &b[i]) {
            return false;
        }
    }
    true
}

fn have_same_name(a: &Block, b: &Block) -> bool
    ensures { result ≡ bytes_eq a.now.name b.now.name }
{
    is_same_name(&a.name, &b.name)
}

#[tactic(auto, using(crate::proofs::Comparing::labels_step, crate::proofs::Comparing::labels_end, crate::proofs::Comparing::labels_length))]
fn have_same_names(a: &[Block], b: &[Block]) -> bool
    ensures { result ≡ same_names (map (λ b. b.name) a.now) (map (λ b. b.name) b.now) }
{
    if a.len() != b.len() {
        return false;
    }
    for i in 0..a.len() {
        if !have_same_name(&a[i], &b[i]) {
            return false;
        }
    }
    true
}

/// Whether these blocks have so many instructions.
#[tactic(auto, using(crate::proofs::Comparing::count_step, crate::proofs::Comparing::count_end, crate::proofs::Comparing::count_past))]
fn have_instrs(count: usize, blocks: &[Block]) -> bool
    ensures { result ≡ nat_eq count (length (flat_map (λ b. b.instrs) blocks.now)) }
{
    let mut left = count;
    for block in blocks {
        if block.instrs.len() > left {
            return false;
        }
        left -= block.instrs.len();
    }
    left == 0
}

/// Whether a function has the head of a wrapper with these lines: its parameters, names and result, its blocks by name, and as
/// many lines.
pub(crate) fn is_same_head(wrapper: &Function, lines: usize, f: &Function) -> bool
    requires { lines ≡ length (instrs_of wrapper.now) }
    ensures { result ≡ same_head wrapper.now f.now }
{
    are_same_parameters(wrapper.params.as_slice(), f.params.as_slice())
        && are_same_names(wrapper.locals.as_slice(), f.locals.as_slice())
        && is_same_result(wrapper.ret, f.ret)
        && have_same_names(blocks_of(wrapper), blocks_of(f))
        && have_instrs(lines, blocks_of(f))
}
