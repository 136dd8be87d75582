//! The edge to the system: a file without an end, an output that takes nothing, and words that are not UTF-8.

use crate::edges::USAGE;
use lx_cli::lxfi;
use lx_outside::{FileShelf, MemSink, OpenGate, Sink, StdSink, command_words};
use std::alloc::Global;
use std::env::FillError;
use std::fmt::Display;
use std::io;
use std::io::ErrorKind;
use std::rt::{Env, Files};
use std::sync::Wait;
use std::test::Fail;
use std::thread::Threads;

/// A command line. It has no environment.
#[derive(Drop)]
struct CommandLine(&'static [&'static [u8]]);

impl Env for CommandLine {
    fn arg(&self, i: usize, buf: &mut [u8]) -> Result<usize, FillError> {
        let Some(word) = self.0.get(i) else {
            return Err(FillError::NotPresent);
        };
        if buf.len() < word.len() {
            return Err(FillError::TooLong);
        }
        let (front, _) = buf.split_at_mut(word.len());
        front.copy_from_slice(word);
        Ok(word.len())
    }

    fn var(&self, _name: &str, _buf: &mut [u8]) -> Result<usize, FillError> {
        Err(FillError::NotPresent)
    }

    fn var_at(&self, _i: usize, _buf: &mut [u8]) -> Result<usize, FillError> {
        Err(FillError::NotPresent)
    }
}

/// Standard output that is closed.
struct ClosedOutput;

impl Print for ClosedOutput {
    fn print<D: Display + Drop>(&self, _value: D) -> io::Result<()> {
        Err(io::Error::from(ErrorKind::BrokenPipe))
    }

    fn println<D: Display + Drop>(&self, _value: D) -> io::Result<()> {
        Err(io::Error::from(ErrorKind::BrokenPipe))
    }

    fn write_all(&self, _bytes: &[u8]) -> io::Result<()> {
        Err(io::Error::from(ErrorKind::BrokenPipe))
    }
}

/// The status of words over the files of the system.
fn run_over_files<R: Threads + Wait + Sync + Files + AllocGlobal, K: Sink>(
    rt: &R,
    alloc: Global,
    words: &[String],
    sink: &mut K,
) -> u8 {
    let mut shelf = FileShelf::new(rt, alloc);
    let status = lxfi(rt, alloc, words, &mut shelf, sink, &OpenGate);
    drop(shelf);
    status
}

/// The status of a command line over the files of the system.
fn run_line<R: Threads + Wait + Sync + Files + AllocGlobal, K: Sink>(
    rt: &R,
    alloc: Global,
    line: &'static [&'static [u8]],
    sink: &mut K,
) -> Result<u8, Fail> {
    let edge = (CommandLine(line), alloc);
    let words = command_words(&edge, alloc)?;
    let status = run_over_files(rt, alloc, words.as_slice(), sink);
    drop(words);
    Ok(status)
}

/// A command line, its status, and what it writes.
#[derive(Copy, Clone, Drop)]
struct Line(&'static [&'static [u8]], u8, &'static str);

/// Whether a command line writes what is wanted.
fn is_line<R: Threads + Wait + Sync + Files + AllocGlobal>(
    rt: &R,
    alloc: Global,
    line: &Line,
) -> Result<bool, Fail> {
    let mut sink = MemSink::new(alloc, Vec::new(alloc), 4096)?;
    let status = run_line(rt, alloc, line.0, &mut sink);
    let is = sink.bytes.as_slice() == line.2.as_bytes();
    drop(sink);
    Ok(status? == line.1 && is)
}

static NO_UTF_8: [Line; 3] = [
    Line(&[b"lxfi_run", b"\xff"], 2, USAGE),
    Line(&[b"lxfi_run", b"run", b"\xc3.case"], 2, USAGE),
    Line(
        &[b"lxfi_run", b"replay", b"one.case", b"\xed\xa0\x80"],
        2,
        USAGE,
    ),
];

#[test]
fn words_that_are_not_utf_8_are_no_command(rt: HostRuntime) -> Result<(), Fail> {
    for (number, line) in NO_UTF_8.iter().enumerate() {
        assert!(rt; is_line(&rt, rt.alloc(), line)?, "line {number}");
    }
    Ok(())
}

#[test]
fn a_file_without_an_end_is_past_the_limit(rt: HostRuntime) -> Result<(), Fail> {
    let line = Line(
        &[b"lxfi_run", b"run", b"/dev/zero"],
        3,
        "/dev/zero:1: limit 1 file\n",
    );
    assert!(rt; is_line(&rt, rt.alloc(), &line)?);
    Ok(())
}

#[test]
fn a_closed_output_takes_nothing(rt: HostRuntime) -> Result<(), Fail> {
    let mut sink = StdSink::new(&ClosedOutput);
    let status = run_line(&rt, rt.alloc(), &[b"lxfi_run"], &mut sink)?;
    assert_eq!(rt; status, 5);
    assert_eq!(rt; sink.faults, 1);
    Ok(())
}
