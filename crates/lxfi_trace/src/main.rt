//! Makes the real shelf, sink and gate, and traces.
#![tactic(auto)]

use lx_cli::WANT_OF_MEMORY;
use lx_outside::{FileShelf, OpenGate, StdSink, command_words};
use lx_trace::lxfi_trace;
use std::process::ExitCode;

fn main(rt: HostRuntime) -> ExitCode {
    let alloc = rt.alloc();
    let Ok(words) = command_words(&rt, alloc) else {
        return ExitCode::from(WANT_OF_MEMORY);
    };
    let mut shelf = FileShelf::new(&rt, alloc);
    let mut sink = StdSink::new(&rt);
    let status = lxfi_trace(&rt, alloc, &words, &mut shelf, &mut sink, &OpenGate);
    ExitCode::from(status)
}
