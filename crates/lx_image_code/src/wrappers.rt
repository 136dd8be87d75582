//! The wrappers by which calls cross: those of images, and those that are made for the kernel's functions.
ghost use Rattle.std.specs.Prelude.{◌≡◌, Some, drop, option_copied, slice_get};
ghost use Rattle.lx_model.specs.declared.program.Program.{Program};
ghost use Rattle.lx_images.specs.Wrappers.{function_in_image, lines_of};
ghost use Rattle.lx_image_code.specs.Code.{code_of};
ghost use Rattle.lx_image_code.specs.Wrappers.{AreKernelWrappers, first_op, line_of, wrapper_lines};

use crate::functions::function_of_image;
use crate::line::{Line, line_in, plain_line};
use lx_ir::module::Function;
use lx_ir_verify::Verified;

/// A wrapper.
#[derive(Clone, Copy)]
pub enum Wrapper {
    /// A function of a module's image.
    Image { module: u32, function: u32 },
    /// The one that was made for the function with this number of the kernel's text.
    Kernel(u32),
    /// One without actions.
    Plain,
    /// None at all, which has no line.
    Missing,
}

fn function_at(functions: &[Function], number: u32) -> Option<&Function>
    ensures { option_copied result ≡ slice_get functions.now number }
{
    functions.get(number as usize)
}

// The line at a place of a wrapper of an image.
#[tactic(auto, using(crate::proofs::LineSteps::none_left, crate::proofs::LineSteps::some_left))]
fn image_line(images: &[Verified], number: u32, function: u32, at: usize) -> Line
    ensures { (p : Program) → result ≡ line_of (first_op (drop at (lines_of (function_in_image (code_of p images.now) (Some number) function)))) }
{
    match function_of_image(images, number, function) {
        Some(function) => line_in(function, at),
        None => Line::Other,
    }
}

// The line at a place of a wrapper that was made.
#[tactic(auto, using(crate::proofs::LineSteps::none_left, crate::proofs::LineSteps::some_left))]
fn made_line(made: &[Function], number: u32, at: usize) -> Line
    ensures { result ≡ line_of (first_op (drop at (lines_of (slice_get made.now number)))) }
{
    match function_at(made, number) {
        Some(function) => line_in(function, at),
        None => Line::Other,
    }
}

/// The line at a place of a wrapper, by the wrappers that were made for the kernel's functions.
pub(crate) fn line_at(images: &[Verified], made: &[Function], wrapper: Wrapper, at: usize) -> Line
    ensures { (p : Program) → AreKernelWrappers p made.now → result ≡ line_of (first_op (drop at (wrapper_lines (code_of p images.now) wrapper))) }
{
    match wrapper {
        Wrapper::Image { module, function } => image_line(images, module, function, at),
        Wrapper::Kernel(number) => made_line(made, number, at),
        Wrapper::Plain => plain_line(at),
        Wrapper::Missing => Line::Other,
    }
}
