//! The images of modules.
ghost use Rattle.std.specs.Prelude.{◌≡◌, ◌++◌, ◌∷◌, [], None, map, IsTrue, IfOk, OnOk};
ghost use Rattle.std.specs.List.{list_all};
ghost use Rattle.lx_ir.specs.Lawful.{IsLawful, IsPlain, is_lawful_function};
ghost use Rattle.lx_ir.specs.Verified.{IsVerified};
ghost use Rattle.lx_propagate.specs.Slots.{annotated_of, conflict_of};
ghost use Rattle.lx_image_texts.specs.WrapperText.{wrappers_of};
ghost use Rattle.lx_image_texts.specs.Instrumented.{GuardsBut, leaves_none, leaves_spared};
ghost use Rattle.lx_image_texts.specs.Spared.{is_spared};
ghost use Rattle.lx_instrument.specs.Made.{called_numbers, function_by};
ghost use Rattle.lx_instrument.specs.Room.{has_room};
ghost use Rattle.lx_spared.specs.Rooms.{spared_by};

use crate::functions::{function_by, spared_function};
use crate::numbers::called_numbers;
use crate::room::has_room;
use lx_annot::interface::Interface;
use lx_image_texts::image_program_laws;
use lx_ir::module::{Function, Module};
use lx_ir_copies::{copied_named_types, copies};
use lx_ir_verify::Verified;
use lx_slot_types::Annotated;
use lx_spared::Rooms;
use lx_words::{Items, Memory};
use lx_wrap::push_wrappers;
use std::alloc::Global;

fn push_function(
    alloc: Global,
    list: &mut Vec<Function>,
    numbers: &[u32],
    rooms: &Rooms,
    f: &Function,
) -> Result<(), Memory>
    ensures { OnOk result (list.new.items ≡ list.old.items ++ function_by numbers.now (spared_by rooms.now) f.now ∷ []) }
{
    let f = function_by(alloc, numbers, rooms, f)?;
    list.push(f)?;
    Ok(())
}

/// Adds functions with all their marks.
fn push_full_functions(
    alloc: Global,
    list: &mut Vec<Function>,
    numbers: &[u32],
    rooms: &Rooms,
    functions: &[Function],
) -> Result<(), Memory>
    ensures { OnOk result (list.new.items ≡ list.old.items ++ map (function_by numbers.now (spared_by rooms.now)) functions.now) }
{
    for f in functions {
        push_function(alloc, list, numbers, rooms, f)?;
    }
    Ok(())
}

/// Adds the functions of an image with all marks, and behind them its wrappers.
fn push_full_image(
    alloc: Global,
    list: &mut Vec<Function>,
    i: &Interface,
    m: &Module,
    annotated: &Annotated,
) -> Result<(), Memory>
    requires { annotated.now ≡ annotated_of i.now m.now }
    ensures { OnOk result (list.new.items ≡ list.old.items ++ (map (function_by (called_numbers m.now) (spared_by [])) m.now.functions ++ wrappers_of i.now m.now)) }
{
    let numbers = called_numbers(alloc, m)?;
    let rooms = Rooms::none(alloc);
    push_full_functions(
        alloc,
        list,
        numbers.as_slice(),
        &rooms,
        m.functions.as_slice(),
    )?;
    push_wrappers(alloc, list, i, m, annotated)
}

/// The functions of an image with all marks.
fn full_functions(
    alloc: Global,
    i: &Interface,
    m: &Module,
    annotated: &Annotated,
) -> Result<Items<Function>, Memory>
    requires { annotated.now ≡ annotated_of i.now m.now }
    ensures { IfOk result (λ list. list ≡ map (function_by (called_numbers m.now) (spared_by [])) m.now.functions ++ wrappers_of i.now m.now) }
{
    let mut list = Vec::new(alloc);
    match push_full_image(alloc, &mut list, i, m, annotated) {
        Ok(()) => Ok(Items::from_vec(list)),
        Err(why) => {
            drop(list);
            Err(why)
        }
    }
}

/// The image of a module in which every store and block write has its guard.
fn full_image(
    alloc: Global,
    i: &Interface,
    m: &Module,
    annotated: &Annotated,
) -> Result<Module, Memory>
    requires { annotated.now ≡ annotated_of i.now m.now }
    ensures { IfOk result (λ image. GuardsBut leaves_none i.now m.now image) }
{
    let types = copied_named_types(alloc, &m.types)?;
    let globals = copies(alloc, m.globals.as_slice())?;
    let functions = full_functions(alloc, i, m, annotated)?;
    Ok(Module {
        types,
        globals,
        functions,
    })
}

fn push_spared_function(
    alloc: Global,
    list: &mut Vec<Function>,
    m: &Module,
    numbers: &[u32],
    f: &Function,
) -> Result<(), Memory>
    requires { IsTrue (is_lawful_function m.now f.now) }
    ensures { OnOk result (list.new.items ≡ list.old.items ++ function_by numbers.now (is_spared m.now f.now) f.now ∷ []) }
{
    let f = spared_function(alloc, m, numbers, f)?;
    list.push(f)?;
    Ok(())
}

/// Adds functions of a module without the guards of spared stores.
fn push_spared_functions(
    alloc: Global,
    list: &mut Vec<Function>,
    m: &Module,
    numbers: &[u32],
    functions: &[Function],
) -> Result<(), Memory>
    requires { IsTrue (list_all (is_lawful_function m.now) functions.now) }
    ensures { OnOk result (list.new.items ≡ list.old.items ++ map (λ f. function_by numbers.now (is_spared m.now f) f) functions.now) }
{
    for f in functions {
        push_spared_function(alloc, list, m, numbers, f)?;
    }
    Ok(())
}

/// Adds the functions of an image without the guards of spared stores, and behind them its wrappers.
fn push_spared_image(
    alloc: Global,
    list: &mut Vec<Function>,
    i: &Interface,
    m: &Module,
    annotated: &Annotated,
) -> Result<(), Memory>
    requires annotated { annotated.now ≡ annotated_of i.now m.now }
    requires lawful { IsTrue (list_all (is_lawful_function m.now) m.now.functions) }
    ensures { OnOk result (list.new.items ≡ list.old.items ++ (map (λ f. function_by (called_numbers m.now) (is_spared m.now f) f) m.now.functions ++ wrappers_of i.now m.now)) }
{
    let numbers = called_numbers(alloc, m)?;
    push_spared_functions(alloc, list, m, numbers.as_slice(), m.functions.as_slice())?;
    push_wrappers(alloc, list, i, m, annotated)
}

/// The functions of an image without the guards of spared stores.
fn spared_functions(
    alloc: Global,
    i: &Interface,
    m: &Module,
    annotated: &Annotated,
) -> Result<Items<Function>, Memory>
    requires annotated { annotated.now ≡ annotated_of i.now m.now }
    requires lawful { IsTrue (list_all (is_lawful_function m.now) m.now.functions) }
    ensures { IfOk result (λ list. list ≡ map (λ f. function_by (called_numbers m.now) (is_spared m.now f) f) m.now.functions ++ wrappers_of i.now m.now) }
{
    let mut list = Vec::new(alloc);
    match push_spared_image(alloc, &mut list, i, m, annotated) {
        Ok(()) => Ok(Items::from_vec(list)),
        Err(why) => {
            drop(list);
            Err(why)
        }
    }
}

/// The image of a lawful module in which spared stores have no guard.
fn spared_image(
    alloc: Global,
    i: &Interface,
    m: &Module,
    annotated: &Annotated,
) -> Result<Module, Memory>
    requires annotated { annotated.now ≡ annotated_of i.now m.now }
    requires lawful { IsLawful m.now }
    ensures { IfOk result (λ image. GuardsBut (leaves_spared m.now) i.now m.now image) }
{
    let types = copied_named_types(alloc, &m.types)?;
    let globals = copies(alloc, m.globals.as_slice())?;
    let functions = spared_functions(alloc, i, m, annotated)?;
    Ok(Module {
        types,
        globals,
        functions,
    })
}

/// The image of a module, which is verified if there is room for its wrappers.
fn verified_image(image: Module) -> Result<Verified, Memory>
    requires { IsTrue (has_room image.functions) → IsVerified image }
    ensures same { IfOk result (λ verified. verified ≡ image) }
    ensures verified { IfOk result IsVerified }
{
    if has_room(image.functions.as_slice()) {
        Ok(Verified::proved(image))
    } else {
        drop(image);
        Err(Memory)
    }
}

/// What [`instrument_full`] makes of a module that is known to be verified and that stands elsewhere, as those of a linked program do.
///
/// # Errors
/// Those of [`instrument_full`].
pub fn instrument_module_full(
    alloc: Global,
    i: &Interface,
    m: &Module,
    annotated: &Annotated,
) -> Result<Verified, Memory>
    requires verified { IsVerified m.now }
    requires plain { IsPlain m.now }
    requires annotated { annotated.now ≡ annotated_of i.now m.now }
    requires agrees { conflict_of i.now m.now ≡ None }
    ensures image { IfOk result (λ image. GuardsBut leaves_none i.now m.now image) }
    ensures verified { IfOk result IsVerified }
{
    image_program_laws();
    let image = full_image(alloc, i, m, annotated)?;
    let verified = verified_image(image)?;
    Ok(verified)
}

/// The image of a verified module in which every store and block write has its guard; it is verified itself. `annotated` is what
/// handing on slot types in the module gives, which found no conflict.
///
/// # Errors
/// Want of memory. An image with more functions, or more registers in a wrapper, than numbers of 32 bits count is that too.
pub fn instrument_full(
    alloc: Global,
    i: &Interface,
    m: &Verified,
    annotated: &Annotated,
) -> Result<Verified, Memory>
    requires plain { IsPlain m.now }
    requires annotated { annotated.now ≡ annotated_of i.now m.now }
    requires agrees { conflict_of i.now m.now ≡ None }
    ensures image { IfOk result (λ image. GuardsBut leaves_none i.now m.now image) }
    ensures verified { IfOk result IsVerified }
{
    let image = instrument_module_full(alloc, i, m.module(), annotated)?;
    Ok(image)
}

/// What [`instrument`] makes of a module that is known to be verified and that stands elsewhere, as those of a linked program do.
///
/// # Errors
/// Those of [`instrument`].
pub fn instrument_module(
    alloc: Global,
    i: &Interface,
    m: &Module,
    annotated: &Annotated,
) -> Result<Verified, Memory>
    requires verified { IsVerified m.now }
    requires plain { IsPlain m.now }
    requires annotated { annotated.now ≡ annotated_of i.now m.now }
    requires agrees { conflict_of i.now m.now ≡ None }
    ensures image { IfOk result (λ image. GuardsBut (leaves_spared m.now) i.now m.now image) }
    ensures verified { IfOk result IsVerified }
{
    image_program_laws();
    let image = spared_image(alloc, i, m, annotated)?;
    let verified = verified_image(image)?;
    Ok(verified)
}

/// The image of a verified module in which a store to bytes of the stack that its function keeps to itself has no guard; it is
/// verified itself. `annotated` is what handing on slot types in the module gives, which found no conflict.
///
/// # Errors
/// Those of [`instrument_full`].
pub fn instrument(
    alloc: Global,
    i: &Interface,
    m: &Verified,
    annotated: &Annotated,
) -> Result<Verified, Memory>
    requires plain { IsPlain m.now }
    requires annotated { annotated.now ≡ annotated_of i.now m.now }
    requires agrees { conflict_of i.now m.now ≡ None }
    ensures image { IfOk result (λ image. GuardsBut (leaves_spared m.now) i.now m.now image) }
    ensures verified { IfOk result IsVerified }
{
    let image = instrument_module(alloc, i, m.module(), annotated)?;
    Ok(image)
}
