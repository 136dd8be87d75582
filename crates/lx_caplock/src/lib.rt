//! The capability lock: a ticket lock round the part that serves the requests of all threads.
//!
//! All requests that were served through one lock are one history, which exists in the proofs alone. Each seat knows a beginning of
//! it, and in it just the entries that it asked for itself; who takes in all other seats knows the whole.
//!
//! ```text
//! let (lock, mut first) = CapLock::open(alloc, part, 2)?;
//! let mut second = lock.split(rt, &mut first)?;
//! // In two threads, beside each other:
//! lock.ask(rt, &mut first, 0, &request)?;
//! lock.ask(rt, &mut second, 1, &request)?;
//! // In one thread again:
//! lock.join(&mut first, second);
//! let part = lock.close(first);
//! ```
#![tactic(auto)]

mod bells;
mod calls;
mod fault;
mod knowledge;
mod lock;
mod part;
mod plays;
mod rule;
mod seat;

pub use fault::SplitFault;
pub use knowledge::{Entry, Stage, View};
pub use lock::CapLock;
pub use part::Part;
pub use seat::Seat;
