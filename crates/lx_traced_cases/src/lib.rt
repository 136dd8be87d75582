//! Traces of the examples: the tracing program is run over memory, and what it writes and its status are compared, byte for byte.
//!
//! ```text
//! // `rt test` proves and runs them. A row of a table: its schedule, the words, and the status and the lines that are wanted.
//! ---- file examples/past.schedule
//! schedule 0*2
//! ---- words examples/past.case examples/past.schedule
//! ---- whole
//! status 1
//! done 0 0.0 kernel script: calls m:main() enters m:main as m.shared
//! ..
//! ```
//!
//! `tools/example-texts` writes the tables `.._traces` from `examples/`, whose files `lx_example_texts` has. Nothing stands here but the tests.
#![tactic(auto)]

#[cfg(test)]
mod annotation_traces;
#[cfg(test)]
mod bench;
#[cfg(test)]
mod c_traces;
#[cfg(test)]
mod card_traces;
#[cfg(test)]
mod driver_traces;
#[cfg(test)]
mod ends;
#[cfg(test)]
mod files;
#[cfg(test)]
mod first_traces;
#[cfg(test)]
mod further_long_traces;
#[cfg(test)]
mod lesson_traces;
#[cfg(test)]
mod long_traces;
#[cfg(test)]
mod machine_traces;
#[cfg(test)]
mod more_long_traces;
#[cfg(test)]
mod need_traces;
#[cfg(test)]
mod refusal_traces;
#[cfg(test)]
mod table;
#[cfg(test)]
mod tests;
#[cfg(test)]
mod texts;
