//! The trace of a run: each event with the line of the text at which it was asked for, what was asked, and what was replied; and the tracing
//! program: from its words, a case and perhaps a schedule, over any shelf and sink, to the trace of the case's run, under that schedule or the one
//! that arises, and its exit status.
//!
//! ```text
//! match trace_input(alloc, input)? {
//!     // done 12 0.1 m.shared m:poke:17: store i64 0x7 at 0x2000008
//!     Told::Report(text, returned) => ..,
//!     Told::Broken(entry) => ..,
//! }
//! // The words `one.case` or `one.case one.schedule`, over a shelf that has the files.
//! let status = lxfi_trace(&rt, alloc, &words, &mut shelf, &mut sink, &OpenGate);
//! // 0, and the sink has one line for each event; 2 where the words are no such; the other statuses are those of `run` and `replay`.
//! ```
#![tactic(auto)]

ghost use Rattle.lx_trace.specs.TraceLaws.{TraceLaws};

mod answer;
mod command_laws;
mod input;
mod run;
mod top;
mod words;

pub use command_laws::trace_command_laws;
pub use input::{trace_input, trace_under};
use lx_code_lines::place_laws;
use lx_run_laws::reached_laws;
pub use run::TraceRun;
pub use top::lxfi_trace;

/// What a trace says, in the words of the journal: its events are what the journal gains, one for each entry of the schedule. A run
/// has one trace; an event that is replied an outcome ends its call; and what a function asks for has its line.
pub fn trace_laws()
    ensures { TraceLaws }
{
    place_laws();
    reached_laws();
}
