//! Shelves of inputs.

use crate::long::{Part, put_parts};
use lx_outside::MemShelf;
use std::alloc::Global;
use std::test::Fail;

/// Names of files and their texts.
pub type Texts = &'static [(&'static str, &'static str)];

/// The files of a shelf.
pub enum Files {
    These(Texts),
    /// These, and the module `m.ll` of these parts.
    Parts(Texts, &'static [Part]),
}

fn put_module_in(
    alloc: Global,
    shelf: &mut MemShelf,
    text: &mut String,
    parts: &[Part],
) -> Result<(), Fail> {
    put_parts(text, parts)?;
    shelf.put_file(alloc, "m.ll", text.as_bytes())?;
    Ok(())
}

/// Puts the module of these parts.
fn put_module(alloc: Global, shelf: &mut MemShelf, parts: &[Part]) -> Result<(), Fail> {
    let mut text = String::new(alloc);
    let put = put_module_in(alloc, shelf, &mut text, parts);
    drop(text);
    put
}

fn put_texts(alloc: Global, shelf: &mut MemShelf, texts: Texts) -> Result<(), Fail> {
    for (name, text) in texts {
        shelf.put_file(alloc, name, text.as_bytes())?;
    }
    Ok(())
}

/// Puts the files on a shelf.
pub fn put_files(alloc: Global, shelf: &mut MemShelf, files: &Files) -> Result<(), Fail> {
    match files {
        Files::These(texts) => put_texts(alloc, shelf, texts),
        Files::Parts(texts, parts) => {
            put_texts(alloc, shelf, texts)?;
            put_module(alloc, shelf, parts)
        }
    }
}
