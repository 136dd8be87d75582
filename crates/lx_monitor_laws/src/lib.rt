//! Laws of the monitor and of images in words of their own, so that a definition that is wrong together with its code breaks one: what requests do to
//! each byte of memory, what calls enter, who holds what, what actions do to owners, which actions a crossing does, what a report tells, which bytes
//! a guard is enough for, for whom a module's text asks, and which instructions a table decides.
//!
//! ```text
//! effect_laws();
//! // Behind a block copy each byte of the destination is the byte that stood at its place in the source before, and all others are as they were.
//! action_laws();
//! // Behind a transfer nobody but its destination owns an atom of the items.
//! crossing_laws();
//! // A call that crosses comes to each action of its annotation, once and in order.
//! mark_laws();
//! // Behind a guard of 8 bytes at 0x2000000 a store of 8 bytes there is asked for the principal on top, and one of 8 bytes at 0x2000004 for
//! // the kernel, since the guard does not name its last four bytes.
//! jump_table_laws();
//! // A switch of nine cases, each of which is a number, has a table; one of eight need not have one.
//! ```
#![tactic(auto)]

ghost use Rattle.lx_monitor_laws.specs.ActionLaws.{ActionLaws};
ghost use Rattle.lx_monitor_laws.specs.CountLaws.{CountLaws};
ghost use Rattle.lx_monitor_laws.specs.CrossingLaws.{CrossingLaws};
ghost use Rattle.lx_monitor_laws.specs.EffectLaws.{EffectLaws};
ghost use Rattle.lx_monitor_laws.specs.EntryLaws.{EntryLaws};
ghost use Rattle.lx_monitor_laws.specs.HoldingLaws.{HoldingLaws};
ghost use Rattle.lx_monitor_laws.specs.MarkLaws.{MarkLaws};
ghost use Rattle.lx_monitor_laws.specs.Outcomes.{WorkedOutcomes};
ghost use Rattle.lx_monitor_laws.specs.JumpTableLaws.{JumpTableLaws};

use lx_caps::{owner_laws, region_laws};
use lx_model::authority_laws;

/// What each request that goes on does to each byte of memory, and what it is answered. One that ends its call changes no byte.
pub fn effect_laws()
    ensures { EffectLaws }
{}

/// What a call through a slot enters stands in the slot, and where the slot has a writer, it has the annotation of the slot's type. Which
/// calls cross.
pub fn entry_laws()
    ensures { EntryLaws }
{
    authority_laws();
}

/// The kernel holds what lies in memory, and a principal of a module what those own that count for it.
pub fn holding_laws()
    ensures { HoldingLaws }
{
    owner_laws();
    region_laws();
}

/// A transfer leaves its items to its destination alone; no other action takes anything, and each gives to its destination alone.
pub fn action_laws()
    ensures { ActionLaws }
{}

/// A call that crosses comes to the actions of its function's annotation before its body, each once and in order, from the caller to the
/// function, and behind its return to those behind the body, from the function to the caller.
pub fn crossing_laws()
    ensures { CrossingLaws }
{}

/// The line of a report for each way in which a call ends.
pub fn worked_outcomes()
    ensures { WorkedOutcomes }
{}

/// The numbers of guards, checks and wrappers that are reported of a module are those of its image with all guards.
pub fn count_laws()
    ensures { CountLaws }
{}

/// A guard is enough for a range exactly where it names each of its bytes, and a check for its own target alone. What a module's text does
/// behind such a mark is asked for the principal on top of its thread, and what it does without one for the kernel.
pub fn mark_laws()
    ensures { MarkLaws }
{}

/// Which switches and phis are decided by a table, and that each of those has one.
pub fn jump_table_laws()
    ensures { JumpTableLaws }
{}
