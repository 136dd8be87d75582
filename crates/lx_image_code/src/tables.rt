//! The tables by which the functions of a program run.
ghost use Rattle.std.specs.Prelude.{IfOk, IsTrue};
ghost use Rattle.lx_images.specs.WrapperForm.{have_formed_wrappers};
ghost use Rattle.lx_image_code.specs.Code.{code_of};
ghost use Rattle.lx_image_code.specs.Reach.{AreWithinReach};
ghost use Rattle.lx_image_code.specs.Tables.{HasTables};

use crate::entered::entered_of;
use crate::functions::most_locals;
use crate::imports::{Imports, imports_of};
use crate::jumps::jumps_of;
use crate::kernel::kernel_wrappers;
use crate::wrappers::Wrapper;
use lx_code::{Code as ProgramCode, CodeTables};
use lx_ir::module::Function;
use lx_ir_verify::Verified;
use lx_words::{Items, Memory};
use std::alloc::Global;

/// What is looked up while functions run: where their jumps go and how their types are laid out, by the functions' numbers;
/// which imports the wrappers of each image wrap; by which wrapper each function is entered, by the functions' numbers; the wrappers of
/// the functions of the kernel's text, by their numbers there; and how many registers the instructions of any function give at most.
/// A further table is a field here, a fact of `HasTables`, and a method of `Code`.
#[derive(Drop)]
pub(crate) struct Tables {
    pub(crate) jumps: Items<CodeTables>,
    pub(crate) imports: Items<Imports>,
    pub(crate) entered: Items<Wrapper>,
    pub(crate) kernel: Items<Function>,
    pub(crate) most_locals: usize,
}

/// The tables of a program and of the images of its modules, whose wrappers have the form of wrappers.
pub(crate) fn tables_of(
    alloc: Global,
    code: &ProgramCode,
    images: &[Verified],
) -> Result<Tables, Memory>
    requires reach { AreWithinReach code.now images.now }
    requires formed { IsTrue (have_formed_wrappers images.now) }
    ensures { IfOk result (λ tables. HasTables (code_of code.now images.now) tables) }
{
    let program = code.program();
    let jumps = jumps_of(alloc, code, images)?;
    let imports = imports_of(alloc, program, images)?;
    let entered = entered_of(alloc, code, images)?;
    let kernel = kernel_wrappers(alloc, program)?;
    Ok(Tables {
        jumps,
        imports,
        entered,
        kernel,
        most_locals: most_locals(program, images),
    })
}
