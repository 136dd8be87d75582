//! Texts of interfaces that are put together.

use lx_words::Memory;
use std::alloc::Global;

pub fn text_of(alloc: Global, parts: &[&str]) -> Result<Vec<u8>, Memory> {
    let mut text = Vec::new(alloc);
    for part in parts {
        text.extend_from_slice(part.as_bytes())?;
    }
    Ok(text)
}

/// The canonical text of a check of this address.
pub fn in_check(alloc: Global, address: &[u8]) -> Result<Vec<u8>, Memory> {
    let mut text = text_of(alloc, &["pre(check(call, "])?;
    text.extend_from_slice(address)?;
    text.extend_from_slice(b"))")?;
    Ok(text)
}

/// An interface with an expression over `p` and `q` in its check.
pub fn checked(alloc: Global, expression: &str) -> Result<Vec<u8>, Memory> {
    let text = text_of(
        alloc,
        &[
            "interface 1 export f : void (ptr p, i8 q) pre(check(call, ",
            expression,
            "\n))",
        ],
    )?;
    Ok(text)
}

/// Puts a piece of text so many times.
pub fn put_times(text: &mut Vec<u8>, piece: &[u8], count: usize) -> Result<(), Memory> {
    for _ in 0..count {
        text.extend_from_slice(piece)?;
    }
    Ok(())
}

/// An interface of one iterator with an item and so many more.
pub fn with_items(alloc: Global, more: usize) -> Result<Vec<u8>, Memory> {
    let mut text = text_of(alloc, &["interface 1\niterator i(p) {\ncall p"])?;
    put_times(&mut text, b"\n; call p", more)?;
    text.extend_from_slice(b" }")?;
    Ok(text)
}

/// An interface of one export whose action has so many signs before its address, which stands in line 3 with all that
/// is behind it: 14 tokens up to the signs.
pub fn with_signs(alloc: Global, signs: usize, end: &str) -> Result<Vec<u8>, Memory> {
    let mut text = text_of(
        alloc,
        &["interface 1\nexport f : void (ptr p) pre(check(call, "],
    )?;
    put_times(&mut text, b"-", signs)?;
    text.extend_from_slice(b"\n")?;
    text.extend_from_slice(end.as_bytes())?;
    Ok(text)
}

/// An interface of one export whose address stands in so many brackets.
pub fn with_brackets(alloc: Global, depth: usize) -> Result<Vec<u8>, Memory> {
    let mut text = text_of(
        alloc,
        &["interface 1\nexport f : void (ptr p) pre(check(call, "],
    )?;
    put_times(&mut text, b"(", depth)?;
    text.extend_from_slice(b"p")?;
    put_times(&mut text, b")", depth)?;
    text.extend_from_slice(b"))")?;
    Ok(text)
}
