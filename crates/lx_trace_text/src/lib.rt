//! The text of the events of a run: who asked what, at which line of which function's text, and what was answered, one line
//! each.
//!
//! [`trace_text`] of a program with a kernel and a module `m` tells events as below. The first word says how an event came out:
//! `done`, or, where it ends its call, `refused`, `trap` or `ends`. Behind it stand the event's number, its thread and the number of
//! its call among the thread's, for whom it is asked, and the place that asks, which is a line of a text or a script.
//!
//! ```text
//! done 0 0.0 kernel script: calls kernel:probe(0x2000040) enters kernel:probe as kernel
//! done 1 0.0 kernel kernel:probe:11: calls k.alloc(0x40) = 0x2000040
//! done 2 0.0 kernel kernel:probe:12: load i32 at 0x2000044 (event 1+4) = -5
//! done 3 0.0 kernel kernel:probe:13: store i64 0x0 at 0x1000008 (m:@ops+8)
//! refused 4 0.0 m.shared m:poke:17: store i8 5 at 0x2000064 (event 1+36): refused 1 m.shared write 0x2000064+1
//! ```
#![tactic(auto)]

ghost use Rattle.std.specs.Prelude.{◌≡◌, IfOk, List};
ghost use Rattle.lx_report.specs.Lawful.{HasLawfulModules};
ghost use Rattle.lx_trace_text.specs.Laws.{TraceTextLaws};
ghost use Rattle.lx_trace_text.specs.Rows.{WorkedTraceTexts};
ghost use Rattle.lx_trace_text.specs.declared.blocks.Block.{Block as Known};
ghost use Rattle.lx_trace_text.specs.Blocks.{Holds};
ghost use Rattle.lx_trace_text.specs.Text.{event_lines, trace_text};

mod asked;
mod blocks;
mod changes;
mod copies;
mod events;
mod globals;
mod pieces;

use crate::blocks::Blocks;
pub use crate::copies::request_copy;
use crate::events::{ends_of, put_events};
use crate::globals::known_first;
use lx_model::account::InstanceName;
use lx_model::program::Program;
use lx_model::request::{Reply, Request};
use lx_report::Told;
use lx_words::Memory;
use std::alloc::Global;

/// A place in a program: the number of a function, and a line of its text, counted from 1.
#[derive(Clone, Copy)]
pub struct Site {
    pub function: u32,
    pub line: u32,
}

/// An event of a run.
#[derive(Drop)]
pub struct Traced {
    /// The number of the thread whose event it is.
    pub thread: u32,
    /// The number of its call among the thread's own, counted from 0.
    pub call: u32,
    /// The number of the function that this call of the script calls.
    pub function: u32,
    /// The place that asks, or none where the script does.
    pub site: Option<Site>,
    /// What is asked, and for whom.
    pub request: Request,
    /// What is answered.
    pub reply: Reply,
}

/// The text of events, as `told` names principals, by the blocks that are known before them.
fn text_by(
    alloc: Global,
    told: &Told,
    blocks: &mut Blocks,
    events: &[Traced],
) -> Result<Vec<u8>, Memory>
    ensures { (bs : List Known) → Holds bs blocks.old → IfOk result (λ text. text.items ≡ event_lines told.now.teller.program.now told.now.teller.names bs 0 events.now) }
{
    let mut out = Vec::new(alloc);
    match put_events(&mut out, told, blocks, events) {
        Ok(()) => Ok(out),
        Err(why) => {
            drop(out);
            Err(why)
        }
    }
}

/// The text of events, as `told` names principals.
fn text_of(alloc: Global, told: &Told, events: &[Traced]) -> Result<Vec<u8>, Memory>
    ensures { IfOk result (λ text. text.items ≡ trace_text told.now.teller.program.now told.now.teller.names events.now) }
{
    let mut blocks = known_first(alloc, told.teller.program)?;
    let text = text_by(alloc, told, &mut blocks, events);
    drop(blocks);
    text
}

/// The text of events, numbered from 0 in their order, a line each. Addresses and words of 64 bits are in hexadecimal, a
/// truth value is 0 or 1, and other words, sizes in bytes, numbers and lines are in decimal; an instance is told by its first
/// name, and where an address is a function's, the function stands behind it. Behind an address that a load, a store, a copy or a
/// fill reads or writes stands the block in which it lies, and how many bytes behind its start: a global, or the number of the event
/// that gave the block, a `k.alloc` or an `alloca`, where no event before took it back. A name that the program lacks is empty.
///
/// # Errors
/// Want of memory; an address of a function that a number of 32 bits does not count is that too.
pub fn trace_text(
    alloc: Global,
    program: &Program,
    names: &[InstanceName],
    events: &[Traced],
) -> Result<Vec<u8>, Memory>
    requires { HasLawfulModules program.now }
    ensures { IfOk result (λ text. text.items ≡ trace_text program.now names.now events.now) }
{
    let ends = ends_of(alloc, events)?;
    let told = Told::new(alloc, program, names, ends.as_slice())?;
    let text = text_of(alloc, &told, events);
    drop(told);
    text
}

/// Worked texts of events.
pub fn worked_trace_texts()
    ensures { WorkedTraceTexts }
{}

/// An address lies in the block by which it is told, and a global's block is as large as its type.
pub fn trace_text_laws()
    ensures { TraceTextLaws }
{}
