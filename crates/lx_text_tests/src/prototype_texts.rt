//! Texts of prototypes that are put together.

use crate::interface_texts::{put_times, text_of};
use lx_words::{Memory, put_decimal};
use std::alloc::Global;

/// A prototype whose result and whose parameter are of this type.
pub fn with_type(alloc: Global, ty: &str) -> Result<Vec<u8>, Memory> {
    let text = text_of(alloc, &["lxfi_c 1\n", ty, " f(", ty, " a);"])?;
    Ok(text)
}

/// What is printed of it, where that is the type of the interface.
pub fn printed_with_type(alloc: Global, ty: &str) -> Result<Vec<u8>, Memory> {
    let text = text_of(alloc, &["interface 2\nexport f : ", ty, " (", ty, " a)\n"])?;
    Ok(text)
}

/// A text with so many signs, and a line feed and more behind them.
pub fn with_signs(alloc: Global, front: &str, signs: usize, end: &str) -> Result<Vec<u8>, Memory> {
    let mut text = text_of(alloc, &[front])?;
    put_times(&mut text, b"-", signs)?;
    text.extend_from_slice(b"\n")?;
    text.extend_from_slice(end.as_bytes())?;
    Ok(text)
}

/// Puts so many members that hold no function, each in a line.
fn put_members(text: &mut Vec<u8>, count: u32) -> Result<(), Memory> {
    for number in 0..count {
        text.extend_from_slice(b"\nint m")?;
        put_decimal(text, i128::from(number))?;
        text.extend_from_slice(b";")?;
    }
    Ok(())
}

/// A struct with so many members that hold no function, and one that holds functions behind them.
pub fn with_members(alloc: Global, count: u32) -> Result<Vec<u8>, Memory> {
    let mut text = text_of(alloc, &["lxfi_c 1\nstruct s {"])?;
    put_members(&mut text, count)?;
    text.extend_from_slice(b"\nint (*f)(void);\n};")?;
    Ok(text)
}
