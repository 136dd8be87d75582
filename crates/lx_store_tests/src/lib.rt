//! Tests of the stores of capabilities and their nodes, of memory, names and writers, and of actions over them.
//!
//! ```text
//! // `rt test` proves and runs them. Rows of `caps`: what is done to a store in turn, and what it answers.
//! Step::GrantBytes(SHARED, 0x1000000, 16),
//! Step::StripBytes(0x1000008, 8),
//! Step::HoldsBytes(SHARED, 0x1000000, 9, false),
//! ```
#![tactic(auto)]

#[cfg(test)]
mod actions;
#[cfg(test)]
mod caps;
#[cfg(test)]
mod certificates;
#[cfg(test)]
mod common;
#[cfg(test)]
mod counted;
#[cfg(test)]
mod heaps;
#[cfg(test)]
mod many_writers;
#[cfg(test)]
mod memory;
#[cfg(test)]
mod nodes;
#[cfg(test)]
mod principals;
#[cfg(test)]
mod ranges;
#[cfg(test)]
mod room;
#[cfg(test)]
mod tables;
#[cfg(test)]
mod writer_sets;
#[cfg(test)]
mod writers;
