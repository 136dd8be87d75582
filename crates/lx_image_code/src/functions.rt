//! The functions that run of the entries of a program's list.
ghost use Rattle.std.specs.Prelude.{◌≡◌, ℕ, ◌≤◌, Some, option_and_then, option_copied, slice_get};
ghost use Rattle.lx_images.specs.Image.{image_of_entry};
ghost use Rattle.lx_model.specs.Thread.{routine_or_none};
ghost use Rattle.lx_image_code.specs.Code.{code_of};
ghost use Rattle.lx_image_code.specs.Jumps.{home_in_entry};
ghost use Rattle.lx_image_code.specs.Tables.{HasLocals};

use lx_ir::module::{Function, Module};
use lx_ir_verify::Verified;
use lx_model::program::{Program, ProgramFunction};

fn image_in(images: &[Verified], number: u32) -> Option<&Module>
    ensures { option_copied result ≡ slice_get images.now number }
{
    match images.get(number as usize) {
        Some(image) => Some(image.module()),
        None => None,
    }
}

/// The function with this number of a text.
pub(crate) fn function_in<'a>(text: &'a Module, number: u32) -> Option<&'a Function>
    ensures { option_copied result ≡ slice_get text.now.functions number }
{
    text.functions.items.get(number as usize)
}

/// The function with this number of a module's image.
pub(crate) fn function_of_image<'a>(
    images: &'a [Verified],
    number: u32,
    function: u32,
) -> Option<&'a Function>
    ensures { option_copied result ≡ option_and_then (λ i. slice_get i.functions function) (slice_get images.now number) }
{
    match image_in(images, number) {
        Some(image) => function_in(image, function),
        None => None,
    }
}

/// The function that runs of an entry of the program's list: that of its module's image, or the kernel's own.
pub(crate) fn function_named<'a>(
    program: &'a Program,
    images: &'a [Verified],
    entry: &ProgramFunction,
) -> Option<&'a Function>
    ensures { option_copied result ≡ image_of_entry (code_of program.now images.now) (Some entry.now) }
{
    match entry {
        ProgramFunction::Of {
            module: Some(number),
            function,
        } => function_of_image(images, *number, *function),
        ProgramFunction::Of {
            module: None,
            function,
        } => function_in(&program.kernel, *function),
        ProgramFunction::Native(_) => None,
    }
}

/// Whose text has the function that an entry of the program's list names; the kernel's, where it names none. By that text the
/// function's image is reckoned with too.
pub(crate) fn home_named(entry: &ProgramFunction) -> Option<u32>
    ensures { result ≡ home_in_entry (Some entry.now) }
{
    match entry {
        ProgramFunction::Of { module, .. } => *module,
        ProgramFunction::Native(_) => None,
    }
}

// How many registers the instructions of an entry's function give.
fn locals_of(program: &Program, images: &[Verified], entry: &ProgramFunction) -> usize
    ensures { result ≡ (routine_or_none (image_of_entry (code_of program.now images.now) (Some entry.now))).locals }
{
    match function_named(program, images, entry) {
        Some(function) => function.locals.items.len(),
        None => 0,
    }
}

/// The greatest number of registers that a function's instructions give.
pub(crate) fn most_locals(program: &Program, images: &[Verified]) -> usize
    ensures enough { HasLocals (code_of program.now images.now) result }
    ensures least { (other : ℕ) → HasLocals (code_of program.now images.now) other → result ≤ other }
{
    let mut most = 0usize;
    for entry in program.functions.as_slice() {
        most = most.max(locals_of(program, images, entry));
    }
    most
}
