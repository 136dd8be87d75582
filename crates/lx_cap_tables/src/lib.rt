//! Page tables of capabilities.
//!
//! Memory is cut into parts of 64 bytes. What a principal keeps of a part stands in one node, with a bit for each byte; what
//! it has of the part on a loan stands in another node, one for each loan. So does each call and each reference. A node stands in the
//! list of its part, call or reference, and in the list of its owner or of its loan: the end of a loan walks the loan's list.
//!
//! ```
//! let mut caps = CapTables::new(alloc)?;
//! caps.reserve(8)?;
//! caps.grant(Principal::Shared(0), Cap::Write { at: 0x2000000, size: 16 });
//! caps.open_loan(0);
//! caps.lend(0, Principal::Shared(1), Cap::Write { at: 0x2000000, size: 8 });
//! // The borrower holds the half until the loan ends, and never keeps it.
//! caps.shut(0, 1);
//! ```
#![tactic(auto)]

mod caps;
mod gather;
mod held;
mod laws;
mod loans;
mod tables;

pub use laws::{holder_laws, worked_bounds};
pub use tables::CapTables;
