//! Images that were checked.
ghost use Rattle.std.specs.Prelude.{◌≡◌, Option, option_map, IfOk};
ghost use Rattle.lx_ir.specs.Lawful.{IsLawful};
ghost use Rattle.lx_ir.specs.Verified.{IsVerified};
ghost use Rattle.lx_image_texts.specs.ImageFaults.{ImageFault as Meant, first_image_fault};
ghost use Rattle.lx_image_marks.specs.Told.{IsAnswer, told};
ghost use Rattle.lx_image_check.specs.Answers.{Checks, IsExactAnswer};

use crate::whole::check_image;
use lx_annot::interface::Interface;
use lx_image_marks::{ImageFault, Refusal};
use lx_image_texts::image_laws;
use lx_ir::module::Module;
use lx_ir_verify::Verified;
use lx_words::Memory;
use std::alloc::Global;
use std::marker::Model;

/// An image that was checked: some program has it. Only `check` makes one. Contracts see the image.
pub struct Checked {
    image: Verified,
}

impl Drop for Checked {
    fn drop(self) {
        let Checked { image: _ } = self;
    }
}

impl Model for Checked {
    ghost use Rattle.lx_ir.specs.declared.module.Module.{Module as Meaning};
    ghost use Rattle.lx_ir.specs.contracts.module.Module as module_row;
    ghost use Rattle.lx_image_check.specs.Answers.{IsAccepted};

    ghost Value = { Meaning };

    ghost coded = { module_row.the_row.coded };

    ghost view = { λ c. c.image };

    ghost invariant = { λ c. IsAccepted c.image };
}

impl Checked {
    ghost use Rattle.lx_image_check.specs.Answers.{IsAccepted};

    /// The image.
    pub fn image(&self) -> &Verified
        ensures whole { result.now ≡ self.now }
        ensures accepted { IsAccepted self.now }
    {
        &self.image
    }

    /// The image by value.
    pub fn into_image(self) -> Verified
        ensures whole { result ≡ self }
        ensures accepted { IsAccepted result }
    {
        let Checked { image } = self;
        image
    }
}

/// The fault that a refusal tells, or want of memory.
fn fault_of(refusal: Refusal) -> Result<Option<ImageFault>, Memory>
    ensures { (x : Option Meant) → IsAnswer x refusal → IfOk result (λ fault. option_map told fault ≡ x) }
{
    match refusal {
        Refusal::Fault(fault) => Ok(Some(fault)),
        Refusal::Memory => Err(Memory),
    }
}

/// The first fault of a lawful text as an image, if there is one.
///
/// # Errors
/// Want of memory; more instructions in a function than numbers of 32 bits count are that too.
pub fn first_fault(
    alloc: Global,
    i: &Interface,
    image: &Module,
) -> Result<Option<ImageFault>, Memory>
    requires { IsLawful image.now }
    ensures { IfOk result (λ fault. option_map told fault ≡ first_image_fault i.now image.now) }
{
    match check_image(alloc, i, image) {
        Ok(()) => Ok(None),
        Err(why) => fault_of(why),
    }
}

/// The image, if it has no fault.
#[tactic(auto, using(crate::proofs::Copying::lawful))]
fn accepted(alloc: Global, i: &Interface, image: Verified) -> Result<Checked, Refusal>
    ensures first { Checks i.now image result }
    ensures verified { IsVerified image }
{
    match check_image(alloc, i, image.module()) {
        Ok(()) => Ok(Checked { image }),
        Err(why) => {
            drop(image);
            Err(why)
        }
    }
}

/// Checks a text as an image for an interface.
///
/// # Errors
/// The first fault of the text, where no program has this image; or want of memory.
#[tactic(auto, using(crate::proofs::Exact::exact_answer))]
pub fn check(alloc: Global, i: &Interface, image: Verified) -> Result<Checked, Refusal>
    ensures first { Checks i.now image result }
    ensures exact { IsExactAnswer i.now image result }
{
    image_laws();
    let answer = accepted(alloc, i, image);
    answer
}
