//! Images in which one part is exchanged, with what is wanted of each.
use crate::asking::is_asked;
use crate::bare_code::{is_refused, runs_so};
use crate::codes::is_unmade;
use crate::differing::differs;
use crate::images::Image;
use crate::inputs::input_of;
use crate::runs::Told;
use crate::texts::{Sample, exchanged};
use lx_caps::Principal;
use std::alloc::Global;
use std::process::Abort;
use std::test::Fail;

/// What is wanted of an image.
#[derive(Clone, Copy)]
pub enum Wanted {
    /// For whom its runner asks for its store or its call by a register, and where that goes to.
    Asked(Principal, u64),
    /// What is told of its run, whatever a checker says of it.
    Run(Told),
    /// What the checker says of it, which refuses it.
    Refused(&'static str),
    /// Which of its functions is told to be named as a wrapper and not to have the form of one, so that it does not run at all.
    Unformed(u32),
    /// The number of the module that is told to have another image, if one is.
    Differs(Option<u32>),
}

/// A part of a sample's image, what stands there in its place, and what is wanted of the image then.
pub struct Row(pub &'static str, pub &'static str, pub Wanted);

/// Whether an image for a sample's module is as it is wanted.
fn is_wanted(alloc: Global, sample: Sample, image: &str, wanted: Wanted) -> Result<bool, Fail> {
    let files = [
        ("k.ll", sample.kernel),
        ("i.txt", sample.interface),
        ("m.ll", sample.module),
    ];
    let input = input_of(alloc, sample.case, &files)?;
    match wanted {
        Wanted::Asked(who, at) => is_asked(alloc, input, image, who, at),
        Wanted::Run(told) => runs_so(alloc, input, image, told),
        Wanted::Refused(words) => is_refused(alloc, input, image, words),
        Wanted::Unformed(function) => is_unmade(alloc, input, image, function),
        Wanted::Differs(module) => differs(alloc, input, &[Image::Text(image)], module),
    }
}

fn is_so(alloc: Global, sample: Sample, row: &Row) -> Result<bool, Fail> {
    let image = exchanged(alloc, sample.image, row.0, row.1)?;
    let is_wanted = is_wanted(alloc, sample, image.as_str(), row.2);
    drop(image);
    is_wanted
}

/// Each image of a sample is as it is wanted.
pub fn assert_rows(
    rt: &impl Abort,
    alloc: Global,
    sample: Sample,
    rows: &[Row],
) -> Result<(), Fail> {
    for (number, row) in rows.iter().enumerate() {
        assert!(rt; is_so(alloc, sample, row)?, "row {number}");
    }
    Ok(())
}
