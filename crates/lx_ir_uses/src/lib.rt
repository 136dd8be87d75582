//! What an instruction uses: the operands that it reads, and the register that it gives.
//!
//! ```text
//! // `%x = add i32 %a, 7` reads `i32 %a` and `i32 7`, and gives `%x`.
//! let operands = operands_of(alloc, &op)?;
//! given_by(&op);
//! ```
#![tactic(auto)]

mod operands;

pub use operands::{blocks_of, given_by, operands_of, operands_where};
