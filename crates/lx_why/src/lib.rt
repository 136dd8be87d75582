//! The certificates of a run: what each request needs, why each need of an event was met, or was not; and laws of what they say.
//!
//! A store and a block write need their bytes, a call by an address the call, a call through a slot the call by each of the
//! slot's writers, and an action of an annotation its items. Nothing is asked of the kernel. Whether a need is met is not
//! looked at where needs are listed, but by its certificate.
//!
//! ```text
//! // A module stores eight bytes.
//! let request = Request { who: Principal::Shared(0), what: What::Store { at: 0x1000000, value } };
//! let needs = needs_of(alloc, &part, &request)?;
//! // Need { who: Principal::Shared(0), cap: Cap::Write { at: 0x1000000, size: 8 }, kept: false }
//! let mut run = WhyRun::open(alloc, program, images, script, annotated, caps)?;
//! // The certificates of what the thread's next request needs, by the acts before it; and the request is served.
//! let certs = run.step(alloc, 0)?;
//! certified_laws();
//! // Each certificate is of an event of its schedule, and true of the acts before it; of a refused event the last one alone denies.
//! ```
#![tactic(auto)]

ghost use Rattle.lx_why.specs.WhyLaws.{WhyLaws};
ghost use Rattle.lx_why.specs.CertifiedLaws.{CertifiedLaws};

mod action_needs;
mod listed_needs;
mod logged;
mod noted;
mod request_needs;
mod run;
mod writers;

pub use logged::Logged;
use lx_certificates::{Need, need_laws, told_laws};
use lx_run_laws::refusal_laws;
use lx_words::Items;
pub use request_needs::needs_of;
pub use run::WhyRun;

/// Needs, in the order in which they are asked for.
pub type Needs = Items<Need>;

/// What is certified of a run is determined, and its history only grows.
pub fn why_laws()
    ensures { WhyLaws }
{
    need_laws();
    told_laws();
}

/// Each certificate of a run is of an event of its schedule, and true of the acts before it. Where a request is refused for a need, the
/// certificates of its event but the last allow, and the last one does not; and else all of them do.
pub fn certified_laws()
    ensures { CertifiedLaws }
{
    need_laws();
    told_laws();
    refusal_laws();
}
