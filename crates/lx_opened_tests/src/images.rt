//! Images of modules: made of their texts, or by hand.
ghost use Rattle.std.specs.Prelude.{◌≡◌, [], None, IfOk, OnOk, All, length};
ghost use Rattle.lx_simulation.specs.Accepted.{AreAccepted, IsAcceptedBy};
ghost use Rattle.lx_ir.specs.Lawful.{IsPlain};
ghost use Rattle.lx_ir.specs.Verified.{IsVerified};
ghost use Rattle.lx_propagate.specs.Slots.{annotated_of, conflict_of};

use lx_annot::interface::Interface;
use lx_image_check::{Checked, check};
use lx_instrument::{instrument, instrument_full};
use lx_ir_lawful::whole_laws;
use lx_ir_read::{TextForm, read_module};
use lx_ir_verify::{Verified, verify};
use lx_model::program::Program;
use lx_propagate::propagate;
use lx_slot_types::Annotated;
use lx_words::Memory;
use std::alloc::Global;
use std::test::Fail;

/// Where an image comes from.
#[derive(Clone, Copy)]
pub enum Image<'a> {
    /// What is made of a module's text, in which every store has its guard.
    Full(&'a str),
    /// What is made of it, in which spared stores have none.
    Spared(&'a str),
    /// What a text says.
    Text(&'a str),
}

/// The verified module of an image's text.
pub fn image_of_text(alloc: Global, text: &[u8]) -> Result<Verified, Fail> {
    if text.len() > 1000000 {
        return Err(Fail::new("a text is too long"));
    }
    whole_laws();
    let module = read_module(alloc, TextForm::Image, text)?;
    let verified = verify(alloc, module)?;
    Ok(verified)
}

/// The verified module of a program's text.
fn module_of_text(alloc: Global, text: &[u8]) -> Result<Verified, Fail>
    ensures { IfOk result IsPlain }
{
    if text.len() > 1000000 {
        return Err(Fail::new("a text is too long"));
    }
    whole_laws();
    let module = read_module(alloc, TextForm::Program, text)?;
    let verified = verify(alloc, module)?;
    Ok(verified)
}

/// The image of a module, with the guards of spared stores or without them, where `annotated` is what handing on slot types in it gives.
fn image_of_module(
    alloc: Global,
    i: &Interface,
    m: &Verified,
    annotated: &Annotated,
    full: bool,
) -> Result<Verified, Memory>
    requires plain { IsPlain m.now }
    requires annotated { annotated.now ≡ annotated_of i.now m.now }
    requires agrees { conflict_of i.now m.now ≡ None }
{
    if full {
        instrument_full(alloc, i, m, annotated)
    } else {
        instrument(alloc, i, m, annotated)
    }
}

/// The image that is made of a module, with the guards of spared stores or without them.
fn made_of(alloc: Global, i: &Interface, m: &Verified, full: bool) -> Result<Verified, Fail>
    requires { IsPlain m.now }
{
    let annotated = propagate(alloc, i, m.module())?;
    let image = image_of_module(alloc, i, m, &annotated, full);
    drop(annotated);
    let image = image?;
    Ok(image)
}

/// The image that is made of a module's text.
fn made(alloc: Global, i: &Interface, text: &str, full: bool) -> Result<Verified, Fail> {
    let module = module_of_text(alloc, text.as_bytes())?;
    let image = made_of(alloc, i, &module, full);
    drop(module);
    image
}

fn verified(alloc: Global, i: &Interface, image: Image<'_>) -> Result<Verified, Fail> {
    match image {
        Image::Full(text) => made(alloc, i, text, true),
        Image::Spared(text) => made(alloc, i, text, false),
        Image::Text(text) => image_of_text(alloc, text.as_bytes()),
    }
}

/// An image that was checked is verified.
fn see_verified(checked: &Checked)
    ensures { IsVerified checked.now }
{
    let _image = checked.image();
}

/// An image that the checker takes.
#[tactic(auto, using(crate::proofs::Accepting::accepted))]
fn checked(alloc: Global, i: &Interface, image: Verified) -> Result<Checked, Fail>
    ensures { IfOk result (IsAcceptedBy i.now) }
{
    match check(alloc, i, image) {
        Ok(checked) => {
            see_verified(&checked);
            Ok(checked)
        }
        Err(why) => {
            drop(why);
            Err(Fail::new("an image is refused"))
        }
    }
}

/// Adds an image that the checker takes.
fn push_checked(
    alloc: Global,
    images: &mut Vec<Checked>,
    i: &Interface,
    image: Image<'_>,
) -> Result<(), Fail>
    requires { All (IsAcceptedBy i.now) images.old.items }
    ensures { OnOk result (All (IsAcceptedBy i.now) images.new.items) }
{
    let image = verified(alloc, i, image)?;
    images.push(checked(alloc, i, image)?)?;
    Ok(())
}

/// Adds images that the checker takes, one for each module of a program.
#[tactic(auto, using(crate::proofs::Accepting::none_accepted))]
fn push_images(
    alloc: Global,
    images: &mut Vec<Checked>,
    program: &Program,
    origins: &[Image<'_>],
) -> Result<(), Fail>
    requires empty { images.old.items ≡ [] }
    ensures count { OnOk result (length images.new.items ≡ length program.now.modules) }
    ensures accepted { OnOk result (AreAccepted program.now images.new.items) }
{
    for image in origins {
        push_checked(alloc, images, &program.interface, *image)?;
    }
    if images.len() == program.modules.len() {
        Ok(())
    } else {
        Err(Fail::new("not an image for each module"))
    }
}

/// Images that the checker takes, one for each module of a program.
pub fn checked_images(
    alloc: Global,
    program: &Program,
    origins: &[Image<'_>],
) -> Result<Vec<Checked>, Fail>
    ensures count { IfOk result (λ images. length images.items ≡ length program.now.modules) }
    ensures accepted { IfOk result (λ images. AreAccepted program.now images.items) }
{
    let mut images = Vec::new(alloc);
    match push_images(alloc, &mut images, program, origins) {
        Ok(()) => Ok(images),
        Err(why) => {
            drop(images);
            Err(why)
        }
    }
}
