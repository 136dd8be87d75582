//! A series of cases is run on a bench.

use crate::bench::{Bench, run_at};
use crate::series::{Series, count_of, is_gated, is_told, put_series};
use crate::table::take_parts;
use lx_outside::{Gate, OpenGate};
use std::alloc::Global;
use std::process::Abort;
use std::sync::Wait;
use std::test::Fail;
use std::thread::Threads;

/// The text of a series, and the bench on which its cases are run.
#[derive(Drop)]
struct Trial {
    text: String,
    bench: Bench,
}

/// Each case wrote what is wanted, and there were as many as there have to be.
fn assert_wanted(rt: &impl Abort, bench: &Bench, series: Series) {
    assert_eq!(rt; bench.wrong.as_str(), "");
    if let Some(count) = count_of(series) {
        assert_eq!(rt; bench.tried, count);
    }
    assert!(rt; is_told(bench.report.as_str(), series));
}

/// Runs the cases of a series, the one that is gated at this gate.
fn assert_run<R: Threads + Wait + Sync + Abort, G: Gate + Sync>(
    rt: &R,
    alloc: Global,
    trial: &mut Trial,
    series: Series,
    gate: &G,
) -> Result<(), Fail> {
    put_series(&mut trial.text, series)?;
    let text = trial.text.as_str();
    take_parts(rt, alloc, &mut trial.bench, text)?;
    if is_gated(series) {
        run_at(rt, alloc, &mut trial.bench, gate)?;
    }
    assert_wanted(rt, &trial.bench, series);
    Ok(())
}

/// Runs the cases of a series, each of which has to write what is wanted.
pub fn assert_series<R: Threads + Wait + Sync + Abort, G: Gate + Sync>(
    rt: &R,
    alloc: Global,
    series: Series,
    gate: &G,
) -> Result<(), Fail> {
    let mut trial = Trial {
        text: String::new(alloc),
        bench: Bench::new(alloc),
    };
    let ran = assert_run(rt, alloc, &mut trial, series, gate);
    drop(trial);
    ran
}

/// The same for a series of which nothing is gated.
pub fn assert_cases<R: Threads + Wait + Sync + Abort>(
    rt: &R,
    alloc: Global,
    series: Series,
) -> Result<(), Fail> {
    assert_series(rt, alloc, series, &OpenGate)
}
