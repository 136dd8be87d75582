//! A bench, on which the program is run over memory.

use lx_cli::lxfi;
use lx_outside::{Gate, MemShelf, MemSink};
use lx_words::Memory;
use std::alloc::Global;
use std::fmt::Write;
use std::sync::Wait;
use std::test::Fail;
use std::thread::Threads;

/// What takes what a run writes.
#[derive(Clone, Copy)]
pub enum Output {
    /// It has room for each report.
    Wide,
    /// It takes ten bytes.
    Short,
    /// It fails at once.
    Failing,
}

/// What cases are run with, and what they came to.
#[derive(Drop)]
pub struct Bench {
    /// The words of the next run.
    pub words: Vec<String>,
    /// Its files.
    pub shelf: MemShelf,
    pub output: Output,
    /// The status of the last run, and what it wrote.
    pub report: String,
    /// Why the next case is there.
    pub why: String,
    /// How it is run: its words or its schedule.
    pub how: String,
    /// The lines of what it may not write.
    pub without: String,
    /// The cases that did not write what is wanted, with what they wrote.
    pub wrong: String,
    /// How many cases were run.
    pub tried: u32,
}

impl Bench {
    /// A bench without files, on which nothing was run so far.
    pub fn new(alloc: Global) -> Bench {
        Bench {
            words: Vec::new(alloc),
            shelf: MemShelf::new(alloc, Vec::new(alloc)),
            output: Output::Wide,
            report: String::new(alloc),
            why: String::new(alloc),
            how: String::new(alloc),
            without: String::new(alloc),
            wrong: String::new(alloc),
            tried: 0,
        }
    }
}

fn sink_of(alloc: Global, output: Output) -> Result<MemSink, Memory> {
    match output {
        Output::Wide => MemSink::new(alloc, Vec::new(alloc), 1 << 20),
        Output::Short => MemSink::new(alloc, Vec::new(alloc), 10),
        Output::Failing => MemSink::new(alloc, [0].to_vec(alloc)?, 4096),
    }
}

fn text_of(written: &[u8]) -> &str {
    match std::str::from_utf8(written) {
        Ok(text) => text,
        Err(_) => "what is no UTF-8\n",
    }
}

/// Makes a report of a status, and of what was written with it.
fn tell(report: &mut String, status: u8, written: &[u8]) -> Result<(), Fail> {
    report.clear();
    write!(report, "status {status}\n")?;
    report.push_str(text_of(written))?;
    Ok(())
}

/// Runs the words of a bench at a gate.
pub fn run_at<R: Threads + Wait + Sync, G: Gate + Sync>(
    rt: &R,
    alloc: Global,
    bench: &mut Bench,
    gate: &G,
) -> Result<(), Fail> {
    let mut sink = sink_of(alloc, bench.output)?;
    let words = bench.words.as_slice();
    let status = lxfi(rt, alloc, words, &mut bench.shelf, &mut sink, gate);
    let told = tell(&mut bench.report, status, sink.bytes.as_slice());
    drop(sink);
    told
}
