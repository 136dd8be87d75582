//! What the laws of the monitor ask of a program holds of each that is linked: threads ask as they may, no register is read before it is
//! assigned, slot types are those of the fields in which functions stand, and every principal is listed.
//!
//! ```text
//! fitting_laws();
//! // Each request of a thread names what is there, with as many arguments as it takes, and keeps to the thread's stack.
//! linked_laws();
//! // Of each run of a well-formed program it is known why what was refused was refused, and what stood before what was performed.
//! ```
#![tactic(auto)]

ghost use Rattle.lx_linked.specs.SiteLaws.{SiteLaws};
ghost use Rattle.lx_linked.specs.FittingLaws.{FittingLaws};
ghost use Rattle.lx_linked.specs.AssignedLaws.{AssignedLaws};
ghost use Rattle.lx_linked.specs.Laws.{LinkedLaws};

use lx_run_laws::{reached_laws, refusal_laws};

/// The lists that propagation is defined by have just the fields that paths lead to, just the functions that stand in fields, and just
/// the slot types of those fields.
pub fn site_laws()
    ensures { SiteLaws }
{}

/// Each request of a thread names what is there, with as many arguments as it takes and as wide ones, and keeps to the thread's stack.
pub fn fitting_laws()
    ensures { FittingLaws }
{}

/// What the registers of a function hold before its instructions assign them does not matter: a machine that begins each function
/// with whatever words has the same runs, and each register that an instruction reads holds the same word in both.
pub fn assigned_laws()
    ensures { AssignedLaws }
{}

/// The program of whatever texts has functions of its own, and globals that stand apart; so every principal is listed, and a
/// module owns the bytes of its variables before the first call. A module's functions are annotated by the fields where they
/// stand. Of each run of a well-formed program it is known why what was refused was refused, what stood before what was performed, and
/// that threads ask for what their texts say. Where sixteen threads at most make calls that fit, it is known besides that what they ask
/// for is lawful, and that no register is read before it is given.
pub fn linked_laws()
    ensures { LinkedLaws }
{
    site_laws();
    fitting_laws();
    assigned_laws();
    refusal_laws();
    reached_laws();
}
