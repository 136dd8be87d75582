//! The files that worked cases name.

use lx_example_texts::{
    FILE_TABLES, NAMED_FILES, file_table, loan_files, many_files, named_file, small_files,
};
use std::test::Fail;

fn put_named_file(text: &mut String, number: u32) -> Result<(), Fail> {
    let (name, body) = named_file(number);
    for piece in ["---- file ", name, "\n", body] {
        text.push_str(piece)?;
    }
    Ok(())
}

/// Puts the files that several cases name.
pub fn put_files(text: &mut String) -> Result<(), Fail> {
    for number in 0..NAMED_FILES {
        put_named_file(text, number)?;
    }
    text.push_str(small_files())?;
    text.push_str(many_files())?;
    text.push_str(loan_files())?;
    Ok(())
}

/// Puts the files of `examples`.
pub fn put_example_files(text: &mut String) -> Result<(), Fail> {
    for number in 0..FILE_TABLES {
        text.push_str(file_table(number))?;
    }
    Ok(())
}
