//! Laws of every run of the monitor: what its acts needed was held, but for its refusals it is the uninstrumented programs' run, and each
//! refusal has its cause. What a request needs, which requests may be served, and what holds of every world that a run reaches.
//!
//! ```text
//! run_laws();
//! // What each event needed was held in the state before it; an event that is not refused is the plain programs' event.
//! refusal_laws();
//! // A request that is refused for a need names the one that is not met; each need of any other was met.
//! reached_laws();
//! // A call that is stopped leaves nothing but its outcome, and every principal is listed.
//! ```
#![tactic(auto)]

ghost use Rattle.lx_run_laws.specs.Laws.{RunLaws};
ghost use Rattle.lx_run_laws.specs.RequestLaws.{RequestLaws};
ghost use Rattle.lx_run_laws.specs.RefusalLaws.{RefusalLaws};
ghost use Rattle.lx_run_laws.specs.ReachedLaws.{ReachedLaws};

use lx_caps::owner_laws;
use lx_model::{authority_laws, plain_laws};

/// What each act of a run needed was held in the state before it. Each event of a run of at most 16 threads that is not
/// refused is the uninstrumented programs' event, and a run without refusals is their run of the same schedule.
pub fn run_laws()
    ensures { RunLaws }
{
    authority_laws();
    owner_laws();
    plain_laws();
    request_laws();
}

/// What a thread asks whose functions keep to its stack may be served, and behind the reply they keep to it again.
pub fn request_laws()
    ensures { RequestLaws }
{}

/// Where a request is not refused for a need, each of its needs was met, and else the refusal names the need that was not.
/// A request is refused so just where it has the cause that the refusal says. A call through an address or a slot enters
/// just the function that stands there, and one that may be entered so.
pub fn refusal_laws()
    ensures { RefusalLaws }
{}

/// A call that is stopped leaves nothing but its outcome. Functions run, and ask, as principals of their texts. Every
/// principal is listed. What is owned before the first call is a module's own.
pub fn reached_laws()
    ensures { ReachedLaws }
{
    authority_laws();
    run_laws();
}
