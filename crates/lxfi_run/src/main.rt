//! Makes the real shelf, sink and gate, and runs the program.
#![tactic(auto)]

use lx_cli::{WANT_OF_MEMORY, lxfi};
use lx_outside::{FileShelf, OpenGate, StdSink, command_words};
use std::process::ExitCode;

fn main(rt: HostRuntime) -> ExitCode {
    let alloc = rt.alloc();
    let Ok(words) = command_words(&rt, alloc) else {
        return ExitCode::from(WANT_OF_MEMORY);
    };
    let mut shelf = FileShelf::new(&rt, alloc);
    let mut sink = StdSink::new(&rt);
    let status = lxfi(&rt, alloc, &words, &mut shelf, &mut sink, &OpenGate);
    ExitCode::from(status)
}
