//! By which wrapper each function of a program is entered from elsewhere, in a table, so that no name is looked up while it runs.
ghost use Rattle.std.specs.Prelude.{◌≡◌, ◌++◌, ◌∷◌, [], IfOk, OnOk, IsTrue, List, None, Some, option_and_then, slice_get};
ghost use Rattle.lx_ir.specs.declared.module.Module.{Module};
ghost use Rattle.lx_model.specs.declared.program.Program.{Program};
ghost use Rattle.lx_model.specs.declared.program.ProgramFunction.TheVariants.{Of};
ghost use Rattle.lx_model.specs.Program.{function_of_entry};
ghost use Rattle.lx_images.specs.Code.{Code};
ghost use Rattle.lx_images.specs.Wrappers.{in_lines, in_lines_of, in_named, lines_or_plain};
ghost use Rattle.lx_images.specs.WrapperForm.{has_formed_wrappers, have_formed_wrappers};
ghost use Rattle.lx_image_code.specs.Code.{code_of};
ghost use Rattle.lx_image_code.specs.Wrappers.{HasEntered, wrapper_lines};

use crate::functions::function_in;
use crate::wrappers::Wrapper;
use lx_code::Code as ProgramCode;
use lx_ir_verify::Verified;
use lx_model::program::ProgramFunction;
use lx_name_tables::TextNames;
use lx_words::{Items, Memory, number_of};
use lx_wrap::{Side, wrapper_name};
use std::alloc::Global;

// The names of an image go behind those of the images before it.
fn push_names<'a>(
    alloc: Global,
    names: &mut Items<TextNames<'a>>,
    image: &'a Verified,
) -> Result<(), Memory>
    ensures { OnOk result (names.new ≡ names.old ++ image.now ∷ []) }
{
    names.push(TextNames::new(alloc, image.module()))?;
    Ok(())
}

// The names of images.
fn names_of<'a>(alloc: Global, images: &'a [Verified]) -> Result<Items<TextNames<'a>>, Memory>
    ensures { IfOk result (λ names. names ≡ images.now) }
{
    let mut names = Items::new(alloc);
    for image in images {
        push_names(alloc, &mut names, image)?;
    }
    Ok(names)
}

// The wrapper before calls into the function of this name, in the image with this number.
#[tactic(auto, using(crate::proofs::Naming::image_lines, crate::proofs::Naming::no_image_lines))]
fn wrapper_named(
    alloc: Global,
    names: &TextNames<'_>,
    image: u32,
    name: &[u8],
) -> Result<Wrapper, Memory>
    requires { IsTrue (has_formed_wrappers names.now) }
    ensures { IfOk result (λ w. (c : Code) → slice_get c.images image ≡ Some names.now → wrapper_lines c w ≡ lines_or_plain (in_named name.now names.now.functions)) }
{
    let named = wrapper_name(alloc, Side::In, name)?;
    match names.defined_place(named.as_slice()) {
        Some(place) => {
            let function = number_of(place)?;
            Ok(Wrapper::Image {
                module: image,
                function,
            })
        }
        None => Ok(Wrapper::Plain),
    }
}

// The same, where there is such an image.
fn wrapper_in(
    alloc: Global,
    images: &[TextNames<'_>],
    number: u32,
    name: &[u8],
) -> Result<Wrapper, Memory>
    requires { IsTrue (have_formed_wrappers images.now) }
    ensures { IfOk result (λ w. (p : Program) → wrapper_lines (code_of p images.now) w ≡ lines_or_plain (option_and_then (λ i. in_named name.now i.functions) (slice_get images.now number))) }
{
    match images.get(number as usize) {
        Some(names) => wrapper_named(alloc, names, number, name),
        None => Ok(Wrapper::Plain),
    }
}

// The wrapper before calls into a function of a module's text.
fn wrapper_of_module(
    alloc: Global,
    code: &ProgramCode,
    images: &[TextNames<'_>],
    number: u32,
    function: u32,
) -> Result<Wrapper, Memory>
    requires { IsTrue (have_formed_wrappers images.now) }
    ensures { IfOk result (λ w. wrapper_lines (code_of code.now images.now) w ≡ in_lines_of (code_of code.now images.now) (Some (Of (Some number) function)) (function_of_entry code.now (Some (Of (Some number) function)))) }
{
    match function_in(code.text(Some(number)), function) {
        Some(f) => wrapper_in(alloc, images, number, f.name.as_slice()),
        None => Ok(Wrapper::Plain),
    }
}

// The wrapper before calls into a function of the kernel's text.
fn wrapper_of_kernel(code: &ProgramCode, function: u32) -> Wrapper
    ensures { (images : List Module) → wrapper_lines (code_of code.now images) result ≡ in_lines_of (code_of code.now images) (Some (Of None function)) (function_of_entry code.now (Some (Of None function))) }
{
    match function_in(code.text(None), function) {
        Some(_) => Wrapper::Kernel(function),
        None => Wrapper::Plain,
    }
}

// The wrapper by which a function of the program's list is entered.
fn wrapper_of_entry(
    alloc: Global,
    code: &ProgramCode,
    images: &[TextNames<'_>],
    entry: &ProgramFunction,
) -> Result<Wrapper, Memory>
    requires { IsTrue (have_formed_wrappers images.now) }
    ensures { IfOk result (λ w. wrapper_lines (code_of code.now images.now) w ≡ in_lines_of (code_of code.now images.now) (Some entry.now) (function_of_entry code.now (Some entry.now))) }
{
    match entry {
        ProgramFunction::Of {
            module: Some(module),
            function,
        } => wrapper_of_module(alloc, code, images, *module, *function),
        ProgramFunction::Of {
            module: None,
            function,
        } => Ok(wrapper_of_kernel(code, *function)),
        ProgramFunction::Native(_) => Ok(Wrapper::Plain),
    }
}

// The wrappers of a program's functions, by the names of its images.
fn entered_by(
    alloc: Global,
    code: &ProgramCode,
    images: &[TextNames<'_>],
) -> Result<Items<Wrapper>, Memory>
    requires { IsTrue (have_formed_wrappers images.now) }
    ensures { IfOk result (λ entered. HasEntered (code_of code.now images.now) entered) }
{
    let mut entered = Items::new(alloc);
    for entry in code.program().functions.as_slice() {
        let wrapper = wrapper_of_entry(alloc, code, images, entry)?;
        entered.push(wrapper)?;
    }
    Ok(entered)
}

/// The wrapper by which each function of a program is entered from elsewhere, by the functions' numbers. The images' wrappers have
/// the form of wrappers.
///
/// # Errors
/// Want of memory; more functions of an image than a number of 32 bits counts are that too.
pub(crate) fn entered_of(
    alloc: Global,
    code: &ProgramCode,
    images: &[Verified],
) -> Result<Items<Wrapper>, Memory>
    requires { IsTrue (have_formed_wrappers images.now) }
    ensures { IfOk result (λ entered. HasEntered (code_of code.now images.now) entered) }
{
    let names = names_of(alloc, images)?;
    let entered = entered_by(alloc, code, names.as_slice());
    drop(names);
    entered
}

fn wrapper_at(entered: &[Wrapper], number: u32) -> Option<Wrapper>
    ensures { result ≡ slice_get entered.now number }
{
    entered.get(number as usize).copied()
}

/// The wrapper by which the function with this number is entered from elsewhere, by the table.
pub(crate) fn entered_at(entered: &[Wrapper], number: u32) -> Wrapper
    ensures { (c : Code) → HasEntered c entered.now → wrapper_lines c result ≡ in_lines c number }
{
    match wrapper_at(entered, number) {
        Some(wrapper) => wrapper,
        None => Wrapper::Plain,
    }
}
