//! Images compared with the modules whose images they are to be.
ghost use Rattle.std.specs.Prelude.{◌≡◌, ◌<◌, ℕ, IsTrue, IfOk, IsErrOf, OnOk, length};
ghost use Rattle.lx_simulation.specs.Accepted.{AreOfTexts, HasImageAt, IsImageOfText};
ghost use Rattle.lx_opening.specs.Differing.{DiffersAt, IsFirstDifferent};
ghost use Rattle.lx_opening.specs.declared.fault.OpenFault.{OpenFault};

use crate::fault::OpenFault;
use lx_image_check::{Checked, erase};
use lx_ir::module::Module;
use lx_model::program::Program;
use lx_same_texts::is_same_text;
use lx_words::{Memory, number_of};
use std::alloc::Global;

/// Whether the program of an image is this module, lines apart.
fn is_image_of(alloc: Global, module: &Module, image: &Checked) -> Result<bool, Memory>
    ensures same { IfOk result (λ same. IsTrue same → IsImageOfText module.now image.now) }
    ensures told { IfOk result (λ same. IsImageOfText module.now image.now → IsTrue same) }
{
    let program = erase(alloc, image)?;
    let same = is_same_text(&program, module);
    drop(program);
    Ok(same)
}

/// Compares the image with this number with the module with this number.
fn compare_at(
    alloc: Global,
    program: &Program,
    images: &[Checked],
    place: usize,
) -> Result<(), OpenFault>
    requires module { place < length program.now.modules }
    requires image { place < length images.now }
    ensures same { OnOk result (HasImageAt program.now images.now place) }
    ensures differs { (n : ℕ) → IsErrOf result (OpenFault.ImageDiffers n) → (n ≡ place) × DiffersAt program.now images.now place }
{
    let module = &program.modules.as_slice()[place].module;
    if is_image_of(alloc, module, &images[place])? {
        Ok(())
    } else {
        Err(OpenFault::ImageDiffers {
            module: number_of(place)?,
        })
    }
}

/// Compares each image with the module whose image it is to be.
///
/// # Errors
/// `ImageDiffers` names the first module whose image is not that of its text; or want of memory.
pub(crate) fn compare_images(
    alloc: Global,
    program: &Program,
    images: &[Checked],
) -> Result<(), OpenFault>
    requires { length images.now ≡ length program.now.modules }
    ensures same { OnOk result (AreOfTexts program.now images.now) }
    ensures differs { (n : ℕ) → IsErrOf result (OpenFault.ImageDiffers n) → IsFirstDifferent program.now images.now n }
{
    for place in 0..images.len() {
        compare_at(alloc, program, images, place)?;
    }
    Ok(())
}
