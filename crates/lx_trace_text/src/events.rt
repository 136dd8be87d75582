//! Events and what is answered.

ghost use Rattle.std.specs.Prelude.{◌≡◌, ◌++◌, IfOk, List, OnOk, flat_map};
ghost use Rattle.lx_trace_text.specs.Text.{asker_text, call_text, end_of, end_word, entered_text, event_line_of, event_lines, event_opening, exchange_text, kind_text, reply_text};
ghost use Rattle.lx_trace_text.specs.declared.blocks.Block.{Block as Known};
ghost use Rattle.lx_trace_text.specs.Blocks.{Holds};
ghost use Rattle.lx_trace_text.specs.Telling.{Tells};

use crate::Traced;
use crate::asked::put_what;
use crate::blocks::{Blocks, Near, apply, near_of};
use crate::changes::change_of;
use crate::pieces::{put_site, put_word};
use lx_caps::Principal;
use lx_model::account::CallOutcome;
use lx_model::request::{Outcome, Reply};
use lx_report::{Teller, Told, put, put_called, put_number, put_outcome, put_principal};
use lx_words::Memory;
use std::alloc::Global;

/// The word for an event that ends its call.
fn end_word(outcome: Outcome) -> &'static str
    ensures { result.now ≡ end_word outcome }
{
    match outcome {
        Outcome::Refused(_) => "refused",
        Outcome::Trapped(_) => "trap",
        Outcome::Returned(_) => "ends",
        Outcome::Budget => "ends",
    }
}

/// The first word of an event's line.
fn kind(reply: Reply) -> &'static str
    ensures { result.now ≡ kind_text reply }
{
    match reply {
        Reply::Ended(outcome) => end_word(outcome),
        Reply::Value(_) => "done",
        Reply::Done => "done",
        Reply::Entered { .. } => "done",
    }
}

/// A thread, and the number of a call among the thread's own.
fn put_call(out: &mut Vec<u8>, thread: u32, call: u32) -> Result<(), Memory>
    ensures { OnOk result (out.new.items ≡ out.old.items ++ call_text thread call) }
{
    put_number(out, u64::from(thread))?;
    put(out, ".")?;
    put_number(out, u64::from(call))
}

/// How an event came out, its number, and its call.
fn put_opening(out: &mut Vec<u8>, n: u64, event: &Traced) -> Result<(), Memory>
    ensures { OnOk result (out.new.items ≡ out.old.items ++ event_opening n event.now) }
{
    put(out, kind(event.reply))?;
    put(out, " ")?;
    put_number(out, n)?;
    put(out, " ")?;
    put_call(out, event.thread, event.call)?;
    put(out, " ")
}

/// For whom and where it is asked.
fn put_asker(out: &mut Vec<u8>, teller: &Teller, event: &Traced) -> Result<(), Memory>
    ensures { OnOk result (out.new.items ≡ out.old.items ++ asker_text teller.now.program.now teller.now.names event.now) }
{
    put_principal(out, teller, event.request.who)?;
    put(out, " ")?;
    put_site(out, teller.program, event.site)?;
    put(out, ": ")
}

/// The function that is entered, and for whom it runs.
fn put_entered(
    out: &mut Vec<u8>,
    teller: &Teller,
    function: u32,
    principal: Principal,
) -> Result<(), Memory>
    ensures { OnOk result (out.new.items ≡ out.old.items ++ entered_text teller.now.program.now teller.now.names function principal) }
{
    put(out, " enters ")?;
    put_called(out, teller.program, function)?;
    put(out, " as ")?;
    put_principal(out, teller, principal)
}

/// What is answered in a call of this function.
fn put_reply(out: &mut Vec<u8>, told: &Told, called: u32, reply: Reply) -> Result<(), Memory>
    ensures { OnOk result (out.new.items ≡ out.old.items ++ reply_text told.now.teller.program.now told.now.teller.names called reply) }
{
    match reply {
        Reply::Value(word) => {
            put(out, " = ")?;
            put_word(out, word)
        }
        Reply::Done => Ok(()),
        Reply::Entered {
            function,
            principal,
            crosses: _,
        } => put_entered(out, &told.teller, function, principal),
        Reply::Ended(outcome) => {
            put(out, ": ")?;
            put_outcome(out, told, called, outcome)
        }
    }
}

/// What is asked, and what is answered.
fn put_exchange(out: &mut Vec<u8>, told: &Told, near: Near, event: &Traced) -> Result<(), Memory>
    ensures { OnOk result (out.new.items ≡ out.old.items ++ exchange_text told.now.teller.program.now told.now.teller.names near event.now) }
{
    put_what(out, &told.teller, near, &event.request.what)?;
    put_reply(out, told, event.function, event.reply)
}

/// The line of the event with this number.
fn put_event(
    out: &mut Vec<u8>,
    told: &Told,
    near: Near,
    n: u64,
    event: &Traced,
) -> Result<(), Memory>
    ensures { OnOk result (out.new.items ≡ out.old.items ++ event_line_of told.now.teller.program.now told.now.teller.names near n event.now) }
{
    put_opening(out, n, event)?;
    put_asker(out, &told.teller, event)?;
    put_exchange(out, told, near, event)?;
    put(out, "\n")
}

/// The line of an event by the known blocks, and what the event does to them.
fn put_next(
    out: &mut Vec<u8>,
    told: &Told,
    blocks: &mut Blocks,
    n: u64,
    event: &Traced,
) -> Result<(), Memory>
    ensures { (bs : List Known) → Holds bs blocks.old → OnOk result (Tells told.now.teller.program.now told.now.teller.names bs n event.now out.old.items out.new.items blocks.new) }
{
    let near = near_of(blocks, &event.request.what);
    put_event(out, told, near, n, event)?;
    apply(blocks, change_of(n, event))
}

/// The lines of events, with their numbers from 0.
pub(crate) fn put_events(
    out: &mut Vec<u8>,
    told: &Told,
    blocks: &mut Blocks,
    events: &[Traced],
) -> Result<(), Memory>
    ensures { (bs : List Known) → Holds bs blocks.old → OnOk result (out.new.items ≡ out.old.items ++ event_lines told.now.teller.program.now told.now.teller.names bs 0 events.now) }
{
    for (n, event) in events.iter().enumerate() {
        put_next(out, told, blocks, n as u64, event)?;
    }
    Ok(())
}

/// Adds how the call of an event ends, where the event ends it.
fn add_end(ends: &mut Vec<CallOutcome>, event: &Traced) -> Result<(), Memory>
    ensures { OnOk result (ends.new.items ≡ ends.old.items ++ end_of event.now) }
{
    match event.reply {
        Reply::Ended(outcome) => {
            ends.push(CallOutcome {
                thread: event.thread,
                function: event.function,
                outcome,
            })?;
            Ok(())
        }
        Reply::Value(_) => Ok(()),
        Reply::Done => Ok(()),
        Reply::Entered { .. } => Ok(()),
    }
}

/// How calls end, of the events that end them, in their order.
pub(crate) fn ends_of(alloc: Global, events: &[Traced]) -> Result<Vec<CallOutcome>, Memory>
    ensures { IfOk result (λ ends. ends.items ≡ flat_map end_of events.now) }
{
    let mut ends = Vec::new(alloc);
    for event in events {
        add_end(&mut ends, event)?;
    }
    Ok(ends)
}
