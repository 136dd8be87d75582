//! Runs of an input: each module's image is made and checked, the world of the images is opened, and its threads run beside each
//! other or under a schedule that is replayed. What is told is what the monitor's run of the program as it is written comes to.
//!
//! ```text
//! let host = Host { rt, alloc, gate: &OpenGate };
//! match run_input(&host, input)? {
//!     Told::Report(text, returned) => ..,
//!     Told::Broken(entry) => ..,
//! }
//! ```
#![tactic(auto)]

mod images;
mod input;
mod open;
mod replay;
mod report;
mod run;
mod told;
mod why;

pub use images::{Guarding, images_of_program};
pub use input::{account_input, run_input};
pub use open::{Opened, open_input};
pub use report::all_returned;
pub use run::Host;
pub use told::Told;
pub use why::{Why, why_input};
