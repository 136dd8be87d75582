//! The wrappers of a module.
ghost use Rattle.std.specs.Prelude.{◌≡◌, ◌++◌, ◌∷◌, [], bytes_eq, codes, filter_map, option_copied, option_to_list, slice_get, unwrap_or, IfOk, OnOk};
ghost use Rattle.lx_propagate.specs.Slots.{annotated_of};
ghost use Rattle.lx_image_texts.specs.Marks.{is_wrapped};
ghost use Rattle.lx_image_texts.specs.WrapperText.{empty_annotation, in_wrapper, out_wrappers, wrapper_of, wrappers_of};
ghost use Rattle.lx_wrap.specs.Exported.{HasPlaces, out_by};
ghost use Rattle.lx_wrap.specs.Sides.{meant};

use crate::exports::{export_places, exported, of_slot};
use crate::functions::{bare_wrapper, wrapper_of};
use crate::names::Side;
use crate::signature::number_of;
use indexmap::IndexMap;
use lx_annot::action::Annotation;
use lx_annot::interface::Interface;
use lx_ir::module::{Function, Module};
use lx_slot_types::{Annotated, Marked};
use lx_words::Memory;
use std::alloc::Global;

/// The wrapper of a function for its annotation, or for the empty one where it has none.
fn wrapper_by(
    alloc: Global,
    f: &Function,
    number: u32,
    annotation: Option<&Annotation>,
    side: Side,
) -> Result<Function, Memory>
    ensures { IfOk result (λ wrapper. wrapper ≡ wrapper_of f.now number (unwrap_or (option_copied annotation.entry) empty_annotation) (meant side)) }
{
    match annotation {
        Some(annotation) => wrapper_of(alloc, f, number, annotation, side),
        None => bare_wrapper(alloc, f, number, side),
    }
}

fn is_alias(name: &[u8]) -> bool
    ensures { result ≡ bytes_eq name.now (codes "lxfi_princ_alias") }
{
    name == b"lxfi_princ_alias".as_slice()
}

/// Whether a function is an import that has a wrapper.
pub fn is_wrapped(f: &Function) -> bool
    ensures { result ≡ is_wrapped f.now }
{
    f.blocks.is_none() && !is_alias(f.name.as_slice())
}

fn push_wrapper(list: &mut Vec<Function>, wrapper: Function) -> Result<(), Memory>
    ensures { OnOk result (list.new.items ≡ list.old.items ++ wrapper ∷ []) }
{
    list.push(wrapper)?;
    Ok(())
}

/// Adds the wrapper of a function, where it is an import that has one.
fn push_out_wrapper(
    alloc: Global,
    list: &mut Vec<Function>,
    f: &Function,
    place: usize,
    annotation: Option<&Annotation>,
) -> Result<(), Memory>
    ensures { OnOk result (list.new.items ≡ list.old.items ++ out_by (is_wrapped f.now) (option_copied annotation.entry) place f.now) }
{
    if is_wrapped(f) {
        let number = number_of(place)?;
        let wrapper = wrapper_by(alloc, f, number, annotation, Side::Out)?;
        push_wrapper(list, wrapper)
    } else {
        Ok(())
    }
}

/// Adds the wrappers of imports, in order.
#[tactic(auto, using(crate::proofs::Steps::out_step, crate::proofs::Steps::out_end))]
fn push_out_wrappers(
    alloc: Global,
    list: &mut Vec<Function>,
    i: &Interface,
    places: &IndexMap<&[u8], usize>,
    functions: &[Function],
) -> Result<(), Memory>
    requires { HasPlaces i.now.exports places.now.entries }
    ensures { OnOk result (list.new.items ≡ list.old.items ++ out_wrappers i.now 0 functions.now) }
{
    for (place, f) in functions.iter().enumerate() {
        push_out_wrapper(alloc, list, f, place, exported(i, places, f))?;
    }
    Ok(())
}

fn function_in(m: &Module, number: u32) -> Option<&Function>
    ensures { option_copied result ≡ slice_get m.now.functions number }
{
    m.functions.items.get(number as usize)
}

/// Adds the wrapper of a function that gets a slot type.
fn push_in_wrapper(
    alloc: Global,
    list: &mut Vec<Function>,
    i: &Interface,
    m: &Module,
    marked: Marked,
) -> Result<(), Memory>
    ensures { OnOk result (list.new.items ≡ list.old.items ++ option_to_list (in_wrapper i.now m.now marked)) }
{
    match function_in(m, marked.function) {
        Some(f) => {
            let annotation = of_slot(i, marked.slot);
            let wrapper = wrapper_by(alloc, f, marked.function, annotation, Side::In)?;
            push_wrapper(list, wrapper)
        }
        None => Ok(()),
    }
}

/// Adds the wrappers of functions that get slot types, in order.
fn push_in_wrappers(
    alloc: Global,
    list: &mut Vec<Function>,
    i: &Interface,
    m: &Module,
    annotated: &[Marked],
) -> Result<(), Memory>
    ensures { OnOk result (list.new.items ≡ list.old.items ++ filter_map (in_wrapper i.now m.now) annotated.now) }
{
    for marked in annotated {
        push_in_wrapper(alloc, list, i, m, *marked)?;
    }
    Ok(())
}

/// Adds the wrappers of a module in the order in which they stand behind its functions: those of its imports but the one
/// by which it names principals, and then those of `annotated`, the functions that it defines and that get a slot type.
///
/// # Errors
/// Want of memory; more functions, parameters or actions than numbers of 32 bits count are that too.
pub fn push_wrappers(
    alloc: Global,
    list: &mut Vec<Function>,
    i: &Interface,
    m: &Module,
    annotated: &Annotated,
) -> Result<(), Memory>
    requires { annotated.now ≡ annotated_of i.now m.now }
    ensures { OnOk result (list.new.items ≡ list.old.items ++ wrappers_of i.now m.now) }
{
    let places = export_places(alloc, i.exports.as_slice())?;
    push_out_wrappers(alloc, list, i, &places, m.functions.as_slice())?;
    push_in_wrappers(alloc, list, i, m, annotated.as_slice())
}

/// The wrappers of a module, in the order in which they stand behind its functions. `annotated` has the functions that it
/// defines and that get a slot type.
///
/// # Errors
/// Want of memory; more functions, parameters or actions than numbers of 32 bits count are that too.
pub fn wrappers(
    alloc: Global,
    i: &Interface,
    m: &Module,
    annotated: &Annotated,
) -> Result<Vec<Function>, Memory>
    requires { annotated.now ≡ annotated_of i.now m.now }
    ensures { IfOk result (λ list. list.items ≡ wrappers_of i.now m.now) }
{
    let mut list = Vec::new(alloc);
    match push_wrappers(alloc, &mut list, i, m, annotated) {
        Ok(()) => Ok(list),
        Err(why) => {
            drop(list);
            Err(why)
        }
    }
}
