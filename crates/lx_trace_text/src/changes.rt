//! What events do to the known blocks.

ghost use Rattle.std.specs.Prelude.{◌≡◌};
ghost use Rattle.lx_caps.specs.Regions.{stack_end, stack_start};
ghost use Rattle.lx_trace_text.specs.declared.blocks.Change.TheVariants.{Takes};
ghost use Rattle.lx_trace_text.specs.Blocks.{allocates, change_by, change_by_done, change_by_value, first_value, gives, takes_between};

use crate::Traced;
use crate::blocks::{Block, Change, Giver};
use lx_caps::{STACK_SIZE, stack_start};
use lx_model::request::{Reply, What};
use lx_words::Word;

/// The first argument's value.
fn first_value(args: &[Word]) -> u64
    ensures { result ≡ first_value args.now }
{
    match args.first() {
        Some(word) => word.bits,
        None => 0,
    }
}

/// An event gives so many bytes from an address on.
fn gives(n: u64, at: u64, size: u64) -> Change
    ensures { result ≡ gives n at size }
{
    Change::Gives(Block {
        start: at,
        size,
        giver: Giver::Event(n),
    })
}

/// The same, unless the address is 0.
fn allocates(n: u64, at: u64, size: u64) -> Change
    ensures { result ≡ allocates n at size }
{
    if at == 0 {
        Change::Nothing
    } else {
        gives(n, at, size)
    }
}

/// Blocks are taken back that start from an address on up to before another one.
fn takes_between(low: u64, high: u64) -> Change
    ensures { result ≡ takes_between low high }
{
    if low < high {
        Change::Takes {
            first: low,
            last: high - 1,
        }
    } else {
        Change::Nothing
    }
}

/// The block that starts there is taken back.
fn takes_at(at: u64) -> Change
    ensures { result ≡ Takes at at }
{
    Change::Takes {
        first: at,
        last: at,
    }
}

/// What an event changes that answers a value.
fn change_by_value(n: u64, what: &What, value: Word) -> Change
    ensures { result ≡ change_by_value n what.now value }
{
    match what {
        What::Native { native, args } => {
            if *native == 0 {
                allocates(n, value.bits, first_value(args.as_slice()))
            } else {
                Change::Nothing
            }
        }
        What::Load { .. } => Change::Nothing,
        What::Store { .. } => Change::Nothing,
        What::Copy { .. } => Change::Nothing,
        What::Fill { .. } => Change::Nothing,
        What::Alloca { .. } => Change::Nothing,
        What::Enter { .. } => Change::Nothing,
        What::Perform { .. } => Change::Nothing,
        What::Return { .. } => Change::Nothing,
        What::Finish { .. } => Change::Nothing,
    }
}

/// What an event changes that answers none.
fn change_by_done(n: u64, what: &What) -> Change
    ensures { result ≡ change_by_done n what.now }
{
    match what {
        What::Alloca { at, size } => gives(n, *at, *size),
        What::Return { low, high } => takes_between(*low, *high),
        What::Native { native, args } => {
            if *native == 1 {
                takes_at(first_value(args.as_slice()))
            } else {
                Change::Nothing
            }
        }
        What::Load { .. } => Change::Nothing,
        What::Store { .. } => Change::Nothing,
        What::Copy { .. } => Change::Nothing,
        What::Fill { .. } => Change::Nothing,
        What::Enter { .. } => Change::Nothing,
        What::Perform { .. } => Change::Nothing,
        What::Finish { .. } => Change::Nothing,
    }
}

/// What the end of a call takes back.
fn ended(thread: u32) -> Change
    ensures { result ≡ takes_between (stack_start thread) (stack_end thread) }
{
    let start = stack_start(thread);
    takes_between(start, start + STACK_SIZE)
}

/// What the event with this number changes.
pub(crate) fn change_of(n: u64, event: &Traced) -> Change
    ensures { result ≡ change_by n event.now.thread event.now.request.what event.now.reply }
{
    match event.reply {
        Reply::Value(value) => change_by_value(n, &event.request.what, value),
        Reply::Done => change_by_done(n, &event.request.what),
        Reply::Entered { .. } => Change::Nothing,
        Reply::Ended(_) => ended(event.thread),
    }
}
