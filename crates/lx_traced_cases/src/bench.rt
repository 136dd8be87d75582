//! A bench, on which the program is run over memory.

use lx_outside::{MemShelf, MemSink, OpenGate};
use lx_trace::lxfi_trace;
use lx_words::Memory;
use std::alloc::Global;
use std::fmt::Write;
use std::sync::Wait;
use std::test::Fail;
use std::thread::Threads;

/// What traces are written with, and what they came to.
#[derive(Drop)]
pub struct Bench {
    /// The words of the next run.
    pub words: Vec<String>,
    /// Its files.
    pub shelf: MemShelf,
    /// Whether its output takes ten bytes alone.
    pub is_short: bool,
    /// What the next run has to write, as far as it is said.
    pub wanted: String,
    /// The status of the last run, and what it wrote.
    pub written: String,
    /// Why the next case is there.
    pub why: String,
    /// The cases that did not write what is wanted, with what they wrote.
    pub wrong: String,
    /// How many cases were run.
    pub tried: u32,
}

impl Bench {
    /// A bench without files, on which nothing was run so far.
    pub fn new(alloc: Global) -> Bench {
        Bench {
            words: Vec::new(alloc),
            shelf: MemShelf::new(alloc, Vec::new(alloc)),
            is_short: false,
            wanted: String::new(alloc),
            written: String::new(alloc),
            why: String::new(alloc),
            wrong: String::new(alloc),
            tried: 0,
        }
    }
}

/// An output with room for each trace, or for ten bytes.
fn sink_of(alloc: Global, is_short: bool) -> Result<MemSink, Memory> {
    let room = if is_short { 10 } else { 1 << 20 };
    MemSink::new(alloc, Vec::new(alloc), room)
}

fn text_of(written: &[u8]) -> &str {
    match std::str::from_utf8(written) {
        Ok(text) => text,
        Err(_) => "what is no UTF-8\n",
    }
}

/// Notes a status, and what was written with it.
fn tell(text: &mut String, status: u8, written: &[u8]) -> Result<(), Fail> {
    text.clear();
    write!(text, "status {status}\n")?;
    text.push_str(text_of(written))?;
    Ok(())
}

/// Runs the words of a bench.
pub fn run<R: Threads + Wait + Sync>(rt: &R, alloc: Global, bench: &mut Bench) -> Result<(), Fail> {
    let mut sink = sink_of(alloc, bench.is_short)?;
    let words = bench.words.as_slice();
    let status = lxfi_trace(rt, alloc, words, &mut bench.shelf, &mut sink, &OpenGate);
    let told = tell(&mut bench.written, status, sink.bytes.as_slice());
    drop(sink);
    told
}
