//! The cases of all texts are traced, and what is written and the statuses are compared.

use crate::bench::Bench;
use crate::files::put_files;
use crate::table::take_parts;
use crate::texts::{CASES, TEXTS, text};
use std::alloc::Global;
use std::process::Abort;
use std::sync::Wait;
use std::test::Fail;
use std::thread::Threads;

/// Takes a text, each of whose cases has to write what is wanted.
fn assert_text<R: Threads + Wait + Sync + Abort>(
    rt: &R,
    alloc: Global,
    bench: &mut Bench,
    number: u32,
) -> Result<(), Fail> {
    take_parts(rt, alloc, bench, text(number))?;
    assert_eq!(rt; bench.wrong.as_str(), "");
    Ok(())
}

fn assert_texts<R: Threads + Wait + Sync + Abort>(
    rt: &R,
    alloc: Global,
    bench: &mut Bench,
) -> Result<(), Fail> {
    put_files(rt, alloc, bench)?;
    for number in 0..TEXTS {
        assert_text(rt, alloc, bench, number)?;
    }
    assert_eq!(rt; bench.tried, CASES);
    Ok(())
}

#[test]
fn traces_are_what_stands_beside_the_cases(rt: HostRuntime) -> Result<(), Fail> {
    let mut bench = Bench::new(rt.alloc());
    let ran = assert_texts(&rt, rt.alloc(), &mut bench);
    drop(bench);
    ran
}
