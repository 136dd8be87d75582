//! The verifier of modules: finds the first fault of a module, of five kinds, and keeps in a type that a module has none.
//!
//! ```text
//! // A function that returns `%x`, which nothing assigns, fails with `VerifyFault::NotAssigned`, its line and `%x`.
//! let verified = verify(alloc, module)?;
//! verified.module();
//! ```
#![tactic(auto)]

mod fault;
mod labels;
mod laws;
mod operands;
mod order;
mod phis;
mod registers;
mod types;
mod typing;
mod verified;

pub use fault::VerifyFault;
pub use laws::{verifier_laws, worked_faults};
pub use phis::{is_same_symbol, is_same_value};
pub use types::is_same_scalar;
pub use typing::is_same_result;
pub use verified::{Verified, verify};
