//! The names of wrappers, of their parameters and of their results.
ghost use Rattle.std.specs.Prelude.{◌≡◌, ◌++◌, IfOk, OnOk};
ghost use Rattle.lx_words.specs.Text.{decimal_text};
ghost use Rattle.lx_image_texts.specs.WrapperText.{result_names, wrapper_name, wrapper_prefix};
ghost use Rattle.lx_wrap.specs.Sides.{meant};

use lx_ir::types::Scalar;
use lx_words::{Memory, Name, Names, put_decimal};
use std::alloc::Global;

/// Which calls a wrapper stands before: those into the module that has the function, or those out of the one that imports it.
#[derive(Clone, Copy)]
pub enum Side {
    In,
    Out,
}

fn put(out: &mut Vec<u8>, text: &[u8]) -> Result<(), Memory>
    ensures { OnOk result (out.new.items ≡ out.old.items ++ text.now) }
{
    out.extend_from_slice(text)?;
    Ok(())
}

fn put_prefix(out: &mut Vec<u8>, side: Side) -> Result<(), Memory>
    ensures { OnOk result (out.new.items ≡ out.old.items ++ wrapper_prefix (meant side)) }
{
    match side {
        Side::In => put(out, b"lxfi.in."),
        Side::Out => put(out, b"lxfi.out."),
    }
}

/// The name of the wrapper of the function with this name.
///
/// # Errors
/// Want of memory.
pub fn wrapper_name(alloc: Global, side: Side, name: &[u8]) -> Result<Name, Memory>
    ensures { IfOk result (λ wrapper. wrapper ≡ wrapper_name (meant side) name.now) }
{
    let mut text = Vec::new(alloc);
    put_prefix(&mut text, side)?;
    put(&mut text, name)?;
    Ok(Name::from_vec(text))
}

/// The name of the parameter with this number, from 0.
pub(crate) fn parameter_name(alloc: Global, number: usize) -> Result<Name, Memory>
    ensures { IfOk result (λ name. name ≡ decimal_text number) }
{
    let mut text = Vec::new(alloc);
    put_decimal(&mut text, number as i128)?;
    Ok(Name::from_vec(text))
}

/// The names of the registers behind the parameters: one for the result of the call, if it has one.
pub(crate) fn result_names(alloc: Global, ret: Option<Scalar>) -> Result<Names, Memory>
    ensures { IfOk result (λ names. names ≡ result_names ret) }
{
    let mut names = Names::new(alloc);
    if ret.is_some() {
        let name = Name::from_bytes(alloc, b"r")?;
        names.push(name)?;
    }
    Ok(names)
}
