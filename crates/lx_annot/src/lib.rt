//! Annotations: what a call checks, copies, transfers and lends, what their expressions come to, and which interfaces are lawful.
//!
//! ```text
//! // Of `post(if (return != 0) transfer(write, return, n))`: 8 bytes at 0x2000000, where `env` has 8 for `n`, and this result.
//! let named = caps_of(&interface, &action, &env, &memory)?;
//! named.as_slice();
//! // The text by which annotations are compared: `post(if ((return != 0)) transfer(write, return, $0))`.
//! let text = canonical(alloc, &interface, &annotation)?;
//! ```
#![tactic(auto)]

ghost use Rattle.lx_annot.specs.Rows.{WorkedAnnotations};

pub mod action;
pub mod canonical;
pub mod caps;
pub mod expr;
pub mod interface;
pub mod value;

/// Worked rows of values, items and canonical texts.
pub fn worked_annotations()
    ensures { WorkedAnnotations }
{}
