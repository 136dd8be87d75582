//! Modules are read, and their images are printed and compared byte for byte. Each image is read and verified again.

ghost use Rattle.std.specs.Prelude.{◌≡◌, None, IfOk};
ghost use Rattle.lx_ir.specs.Lawful.{IsPlain};
ghost use Rattle.lx_propagate.specs.Slots.{annotated_of, conflict_of};

use crate::check::{bare_interface, verified};
use crate::instrument_rows::{FUNCTION_LINES, ROWS};
use lx_annot::interface::Interface;
use lx_instrument::{instrument, instrument_full};
use lx_ir::print;
use lx_ir_lawful::whole_laws;
use lx_ir_read::{TextForm, read_module};
use lx_ir_verify::{Verified, verify};
use lx_propagate::propagate;
use lx_slot_types::Annotated;
use lx_words::{Memory, put_decimal};
use std::alloc::Global;
use std::test::Fail;

/// How many functions the module of many functions has.
const MANY: u32 = 600;

/// The texts that lines are written for: a module, its image with all guards, and its image without those of spared stores.
#[derive(Clone, Copy)]
pub enum Version {
    Module,
    Full,
    Spared,
}

/// The line as it stands in a version, where it does: behind `-` it is one of the module alone, behind `+` one of both images, and
/// behind `?` one of the image with all guards.
fn line_in(version: Version, line: &'static str) -> Option<&'static str> {
    if let Some(rest) = line.strip_prefix("-") {
        return match version {
            Version::Module => Some(rest),
            _ => None,
        };
    }
    if let Some(rest) = line.strip_prefix("+") {
        return match version {
            Version::Module => None,
            _ => Some(rest),
        };
    }
    match (line.strip_prefix("?"), version) {
        (Some(rest), Version::Full) => Some(rest),
        (Some(_), _) => None,
        (None, _) => Some(line),
    }
}

fn put_line(out: &mut Vec<u8>, version: Version, line: &'static str) -> Result<(), Memory> {
    if let Some(line) = line_in(version, line) {
        out.extend_from_slice(line.as_bytes())?;
        out.push(b'\n')?;
    }
    Ok(())
}

fn put_lines(out: &mut Vec<u8>, version: Version, lines: &'static str) -> Result<(), Memory> {
    for line in lines.lines() {
        put_line(out, version, line)?;
    }
    Ok(())
}

fn put_function(out: &mut Vec<u8>, version: Version, number: u32) -> Result<(), Memory> {
    out.extend_from_slice(b"define i32 @f")?;
    put_decimal(out, i128::from(number))?;
    put_lines(out, version, FUNCTION_LINES)
}

fn put_functions(out: &mut Vec<u8>, version: Version) -> Result<(), Memory> {
    for number in 0..MANY {
        put_function(out, version, number)?;
    }
    Ok(())
}

/// What the texts of a module and of its images are made of.
#[derive(Clone, Copy)]
enum Source {
    /// The lines of a row.
    Lines(&'static str),
    /// Many functions.
    Many,
}

fn put_source(out: &mut Vec<u8>, version: Version, source: Source) -> Result<(), Memory> {
    match source {
        Source::Lines(lines) => put_lines(out, version, lines),
        Source::Many => put_functions(out, version),
    }
}

/// The text of a version.
fn text_of(alloc: Global, version: Version, source: Source) -> Result<Vec<u8>, Memory> {
    let mut text = Vec::new(alloc);
    put_source(&mut text, version, source)?;
    Ok(text)
}

/// The verified module of a program's text.
fn program(alloc: Global, text: &[u8]) -> Result<Verified, Fail>
    ensures { IfOk result IsPlain }
{
    if text.len() > 1000000 {
        return Err(Fail::new("a text is too long"));
    }
    whole_laws();
    let module = read_module(alloc, TextForm::Program, text)?;
    let verified = verify(alloc, module)?;
    Ok(verified)
}

/// The image of a module, where `annotated` is what handing on slot types in it gives.
fn image_by(
    alloc: Global,
    version: Version,
    i: &Interface,
    m: &Verified,
    annotated: &Annotated,
) -> Result<Verified, Memory>
    requires plain { IsPlain m.now }
    requires annotated { annotated.now ≡ annotated_of i.now m.now }
    requires agrees { conflict_of i.now m.now ≡ None }
{
    match version {
        Version::Spared => instrument(alloc, i, m, annotated),
        _ => instrument_full(alloc, i, m, annotated),
    }
}

/// The image of a module, printed; none where there is want of memory for it.
fn printed_image(
    alloc: Global,
    version: Version,
    i: &Interface,
    m: &Verified,
) -> Result<Option<Vec<u8>>, Fail>
    requires { IsPlain m.now }
{
    let annotated = propagate(alloc, i, m.module())?;
    let image = image_by(alloc, version, i, m, &annotated);
    drop(annotated);
    match image {
        Ok(image) => {
            let text = print(alloc, image.module());
            drop(image);
            Ok(Some(text?))
        }
        Err(Memory) => Ok(None),
    }
}

/// The image of the module that a text says, printed; none where there is want of memory for it.
pub fn printed(
    alloc: Global,
    version: Version,
    i: &Interface,
    text: &[u8],
) -> Result<Option<Vec<u8>>, Fail> {
    let module = program(alloc, text)?;
    let image = printed_image(alloc, version, i, &module);
    drop(module);
    image
}

/// Whether the image of a module is the text that is wanted.
fn has_image(alloc: Global, version: Version, module: &[u8], wanted: &[u8]) -> Result<bool, Fail> {
    let interface = bare_interface(alloc);
    let image = printed(alloc, version, &interface, module);
    drop(interface);
    match image? {
        Some(image) => Ok(image.as_slice() == wanted),
        None => Ok(false),
    }
}

/// Whether the text of an image is the same once it is read, verified and printed again.
fn is_printed_again(alloc: Global, text: &[u8]) -> Result<bool, Fail> {
    let image = verified(alloc, text)?;
    let again = print(alloc, image.module());
    drop(image);
    let again = again?;
    Ok(again.as_slice() == text)
}

/// Whether the image of a module is the text that is wanted, and that text is read as it was printed.
fn is_wanted(alloc: Global, version: Version, module: &[u8], wanted: &[u8]) -> Result<bool, Fail> {
    if !has_image(alloc, version, module, wanted)? {
        return Ok(false);
    }
    is_printed_again(alloc, wanted)
}

/// Whether the module of a source has the image that is wanted.
fn image_is_wanted(alloc: Global, version: Version, source: Source) -> Result<bool, Fail> {
    let module = text_of(alloc, Version::Module, source)?;
    let wanted = text_of(alloc, version, source)?;
    is_wanted(alloc, version, module.as_slice(), wanted.as_slice())
}

/// The name of the first row that has another image than is wanted, or no name.
fn first_wrong(alloc: Global, version: Version) -> Result<&'static str, Fail> {
    for row in &ROWS {
        if !image_is_wanted(alloc, version, Source::Lines(row.lines))? {
            return Ok(row.name);
        }
    }
    Ok("")
}

#[test]
fn every_store_has_its_guard(rt: HostRuntime) -> Result<(), Fail> {
    let wrong = first_wrong(rt.alloc(), Version::Full)?;
    assert_eq!(rt; wrong, "");
    Ok(())
}

#[test]
fn spared_stores_have_none(rt: HostRuntime) -> Result<(), Fail> {
    let wrong = first_wrong(rt.alloc(), Version::Spared)?;
    assert_eq!(rt; wrong, "");
    Ok(())
}

#[test]
fn many_functions_have_their_images(rt: HostRuntime) -> Result<(), Fail> {
    let full = image_is_wanted(rt.alloc(), Version::Full, Source::Many)?;
    assert!(rt; full);
    let spared = image_is_wanted(rt.alloc(), Version::Spared, Source::Many)?;
    assert!(rt; spared);
    Ok(())
}
