//! Runs the threads of a world of images beside each other, one worker a thread, round one lock.
//!
//! ```text
//! let done = run_threads(rt, alloc, world, &OpenGate)?;
//! let account = done.account(alloc, images)?;
//! ```
//!
//! Workers ask through the seats of the lock, and what they did together is one run of the machine that each of them is.
#![tactic(auto)]

mod asker;
mod joined;
mod laws;
mod run;
mod runner;
mod running;
mod seats;
mod work;
mod worker;
mod worker_laws;

pub use asker::Asker;
pub use laws::image_monitor_laws;
pub use run::run_threads;
pub use running::run_workers;
pub use worker_laws::monitor_laws;
