//! The wrappers of the kernel's functions, which are made once: no image has them.
ghost use Rattle.std.specs.Prelude.{◌≡◌, ◌++◌, ◌∷◌, [], IfOk, OnOk, length, option_copied, option_map, find, bytes_eq, slice_get, unwrap_or};
ghost use Rattle.lx_image_texts.specs.WrapperText.{In, empty_annotation, wrapper_of};
ghost use Rattle.lx_image_code.specs.Wrappers.{AreKernelWrappers, kernel_wrapper};

use lx_annot::action::{Actions, Annotation};
use lx_annot::interface::Interface;
use lx_ir::module::Function;
use lx_model::program::Program;
use lx_name_tables::InterfaceNames;
use lx_words::{Items, Memory, number_of};
use lx_wrap::{Side, wrapper_of};
use std::alloc::Global;

// The annotation that says nothing.
fn empty_annotation(alloc: Global) -> Annotation
    ensures { result ≡ empty_annotation }
{
    Annotation {
        principal: None,
        pre: Actions::new(alloc),
        post: Actions::new(alloc),
    }
}

fn annotation_at(interface: &Interface, place: usize) -> Option<&Annotation>
    ensures { option_copied result ≡ option_map (λ e. e.annotation) (slice_get interface.now.exports place) }
{
    match interface.exports.items.get(place) {
        Some(export) => Some(&export.annotation),
        None => None,
    }
}

// The annotation of the first export of this name.
fn annotation_of<'a>(
    interface: &'a Interface,
    names: &InterfaceNames<'_>,
    name: &[u8],
) -> Option<&'a Annotation>
    requires { names.now ≡ interface.now }
    ensures { option_copied result ≡ option_map (λ e. e.annotation) (find (λ e. bytes_eq e.name name.now) interface.now.exports) }
{
    match names.export_place(name) {
        Some(place) => annotation_at(interface, place),
        None => None,
    }
}

// The wrapper before calls into a function, for its annotation, or for the one that says nothing.
fn made_by(
    alloc: Global,
    f: &Function,
    number: u32,
    annotation: Option<&Annotation>,
) -> Result<Function, Memory>
    ensures { IfOk result (λ made. made ≡ wrapper_of f.now number (unwrap_or (option_copied annotation.entry) empty_annotation) In) }
{
    match annotation {
        Some(annotation) => wrapper_of(alloc, f, number, annotation, Side::In),
        None => {
            let empty = empty_annotation(alloc);
            let made = wrapper_of(alloc, f, number, &empty, Side::In);
            drop(empty);
            made
        }
    }
}

// The wrapper of the next function of the kernel goes behind those of the functions before it.
fn push_wrapper(
    alloc: Global,
    made: &mut Items<Function>,
    interface: &Interface,
    names: &InterfaceNames<'_>,
    f: &Function,
) -> Result<(), Memory>
    requires { names.now ≡ interface.now }
    ensures { OnOk result (made.new ≡ made.old ++ kernel_wrapper interface.now (length made.old) f.now ∷ []) }
{
    let number = number_of(made.len())?;
    let annotation = annotation_of(interface, names, f.name.as_slice());
    let wrapper = made_by(alloc, f, number, annotation)?;
    made.push(wrapper)?;
    Ok(())
}

// The wrappers of the kernel's functions, by the names of its interface.
#[tactic(auto, using(crate::proofs::Made::made_more, crate::proofs::Made::all_made))]
fn wrappers_by(
    alloc: Global,
    program: &Program,
    names: &InterfaceNames<'_>,
) -> Result<Items<Function>, Memory>
    requires { names.now ≡ program.now.interface }
    ensures { IfOk result (λ made. AreKernelWrappers program.now made) }
{
    let mut made = Items::new(alloc);
    for f in program.kernel.functions.as_slice() {
        push_wrapper(alloc, &mut made, &program.interface, names, f)?;
    }
    Ok(made)
}

/// The wrappers of the functions of the kernel's text, by their numbers there.
///
/// # Errors
/// Want of memory; more functions, parameters or actions than numbers of 32 bits count are that too.
pub(crate) fn kernel_wrappers(alloc: Global, program: &Program) -> Result<Items<Function>, Memory>
    ensures { IfOk result (λ made. AreKernelWrappers program.now made) }
{
    let names = InterfaceNames::new(alloc, &program.interface);
    let made = wrappers_by(alloc, program, &names);
    drop(names);
    made
}
