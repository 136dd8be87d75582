//! The monitor: it serves the requests of threads, over memory, the store of capabilities, the names of instances and the journal.
//!
//! ```text
//! let mut part = SharedPart::open(alloc, program, space, caps, sources, events)?;
//! // A module's store that it does not hold: Reply::Ended(Outcome::Refused(Refusal::Write { .. })); one that it holds: Reply::Done.
//! let reply = part.serve(0, &request)?;
//! ```
#![tactic(auto)]

mod attempt;
mod bytes;
mod enter;
mod halt;
mod heap;
mod indirect;
mod linked;
mod monitor;
mod natives;
mod part;
mod perform;
mod rights;
mod servable;
mod shared;
mod slots;
mod source;
mod space;
mod targets;
mod terms;
mod texts;

pub use shared::SharedPart;
pub use source::{Source, annotation_at};
