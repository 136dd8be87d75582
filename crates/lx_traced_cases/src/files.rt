//! The files that cases name.

use crate::bench::Bench;
use crate::table::take_parts;
use lx_example_texts::{FILE_TABLES, NAMED_FILES, file_table, named_file};
use std::alloc::Global;
use std::sync::Wait;
use std::test::Fail;
use std::thread::Threads;

/// Puts the files that stand in functions of their own.
fn put_named_files(alloc: Global, bench: &mut Bench) -> Result<(), Fail> {
    for number in 0..NAMED_FILES {
        let (name, text) = named_file(number);
        bench.shelf.put_file(alloc, name, text.as_bytes())?;
    }
    Ok(())
}

/// Puts all files of `examples`.
pub fn put_files<R: Threads + Wait + Sync>(
    rt: &R,
    alloc: Global,
    bench: &mut Bench,
) -> Result<(), Fail> {
    put_named_files(alloc, bench)?;
    for number in 0..FILE_TABLES {
        take_parts(rt, alloc, bench, file_table(number))?;
    }
    Ok(())
}
