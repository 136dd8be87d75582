//! The runner of images: register steps of one thread of a program's instrumented code, up to its next request.
//!
//! ```text
//! let mut runner = Runner::open(alloc, 0, &calls)?;
//! while !runner.done() {
//!     runner.local(&code)?;
//!     if let Some(request) = runner.request() {
//!         let reply = monitor.serve(0, request)?;
//!         runner.absorb(&code, &reply);
//!     }
//! }
//! // Every call has ended.
//! runner.endings();
//! ```
#![tactic(auto)]

ghost use Rattle.lx_interp.specs.LackLaws.{LackLaws};

mod ending;
mod runner;
mod standing;

pub use ending::Ending;
pub use lx_image_code::Code;
pub use runner::Runner;
pub use standing::Standing;

/// Where a runner wants no memory: at loads, stores and returns, where an outcome is due, and where its function has no fuel.
pub fn lack_laws()
    ensures { LackLaws }
{}
