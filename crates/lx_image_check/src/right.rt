//! The wrappers that an image ought to have.
ghost use Rattle.std.specs.Prelude.{◌≡◌, ◌++◌, ◌∷◌, [], cond, filter, IfOk, OnOk};
ghost use Rattle.lx_image_texts.specs.ImageFaults.{not_own};
ghost use Rattle.lx_image_texts.specs.WrapperText.{wrappers_of};
ghost use Rattle.lx_propagate.specs.Within.{HasLawfulTypes};

use lx_annot::interface::Interface;
use lx_ir::module::{Function, Module};
use lx_propagate::annotated;
use lx_words::Memory;
use lx_wrap::wrappers;
use std::alloc::Global;

/// Whether a wrapper is of a function that is no wrapper itself: of wrappers without their bodies there would be some too.
fn not_own(wrapper: &Function) -> bool
    ensures { result ≡ not_own wrapper.now }
{
    let name = wrapper.name.as_slice();
    !(name.starts_with(b"lxfi.out.lxfi.") || name.starts_with(b"lxfi.in.lxfi."))
}

fn push_if(list: &mut Vec<Function>, wrapper: Function, holds: bool) -> Result<(), Memory>
    ensures { OnOk result (list.new.items ≡ list.old.items ++ cond holds (wrapper ∷ []) []) }
{
    if holds {
        list.push(wrapper)?;
        Ok(())
    } else {
        drop(wrapper);
        Ok(())
    }
}

fn push_right(list: &mut Vec<Function>, wrapper: Function) -> Result<(), Memory>
    ensures { OnOk result (list.new.items ≡ list.old.items ++ filter not_own (wrapper ∷ [])) }
{
    let holds = not_own(&wrapper);
    push_if(list, wrapper, holds)
}

fn push_all_right(list: &mut Vec<Function>, wrappers: Vec<Function>) -> Result<(), Memory>
    ensures { OnOk result (list.new.items ≡ list.old.items ++ filter not_own wrappers.items) }
{
    for wrapper in wrappers {
        push_right(list, wrapper)?;
    }
    Ok(())
}

/// The wrappers of a module but those of functions that have the names of wrappers, in order.
pub(crate) fn right_wrappers(
    alloc: Global,
    i: &Interface,
    stripped: &Module,
) -> Result<Vec<Function>, Memory>
    requires { HasLawfulTypes stripped.now }
    ensures { IfOk result (λ list. list.items ≡ filter not_own (wrappers_of i.now stripped.now)) }
{
    let annotated = annotated(alloc, i, stripped)?;
    let all = wrappers(alloc, i, stripped, &annotated)?;
    let mut list = Vec::new(alloc);
    push_all_right(&mut list, all)?;
    Ok(list)
}
