//! The reference monitor: what every program of a kernel and modules does, looking back through one history of
//! grants, strips and loans. Definitions and plain data alone; code that runs stands in the crates above.
//!
//! ```text
//! // One event of thread t, from world to world, and the account of a run under a schedule.
//! event p t w
//! account p (run p schedule w)
//! authority_laws();
//! // A module's store that is performed was held as a whole before; one that is not held is refused.
//! ```
#![tactic(auto)]

ghost use Rattle.lx_model.specs.Authority.{AuthorityLaws};
ghost use Rattle.lx_model.specs.Laws.{ModelLaws};
ghost use Rattle.lx_model.specs.PlainLaws.{PlainLaws};

pub mod account;
pub mod program;
pub mod request;

/// What the definitions say, in sentences of their own.
pub fn model_laws()
    ensures { ModelLaws }
{}

/// What the monitor's answers mean: what was performed had been authorised, and a stopped call changes nothing else.
pub fn authority_laws()
    ensures { AuthorityLaws }
{}

/// Every event that is not refused is the uninstrumented program's step.
pub fn plain_laws()
    ensures { PlainLaws }
{}
