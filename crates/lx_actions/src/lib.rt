//! Actions of annotations, performed over a store of capabilities.
//!
//! An action names capabilities by expressions over a call's arguments, its result and memory. All of them are found
//! before any is tested, all are tested against the history as it stood before any is moved, and a transfer takes them
//! all from everyone before it gives the first. So an action is done as a whole or not at all.
//!
//! ```text
//! // On thread 0 the kernel's function returned 8 bytes at 0x2000000, and `post(transfer(write, return, 8))` gives them away.
//! perform(&interface, &action, &env, 0, Principal::Kernel, Principal::Shared(0), &space, &mut caps)?;
//! caps.holds(Principal::Shared(0), Cap::Write { at: 0x2000000, size: 8 });
//! ```
#![tactic(auto)]

ghost use Rattle.lx_actions.specs.Laws.{ActionLaws, LookLaws};

mod deed;
mod fault;
mod look;
mod moves;
mod refusal;

pub use deed::perform;
pub use fault::ActFault;
pub use look::SpaceLook;

/// What it means that an action was done, in the words of those who held and who own.
pub fn action_laws()
    ensures { ActionLaws }
{}

/// How memory is looked at, in the words of the writes that it shows.
pub fn look_laws()
    ensures { LookLaws }
{}
