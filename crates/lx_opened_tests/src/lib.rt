//! Tests of what runs and watches a program: its code, its steps, its runner, its requests, its lock, its world and its report; and of
//! worlds of images, also over images that a checker refuses.
//!
//! ```text
//! // `rt test` proves and runs them. A row of `wrapper_lines`: a wrapper that is bent, and the run that it gives or what the checker says.
//! Wanted::Run(Told { schedule: &[0, 0, 0], report: "schedule 0*3\ncall 0.0 m:main trap 3\n.." })
//! ```
#![tactic(auto)]

#[cfg(test)]
mod asking;
#[cfg(test)]
mod bare_code;
#[cfg(test)]
mod code;
#[cfg(test)]
mod codes;
#[cfg(test)]
mod common;
#[cfg(test)]
mod crossings;
#[cfg(test)]
mod differing;
#[cfg(test)]
mod events;
#[cfg(test)]
mod images;
#[cfg(test)]
mod inputs;
#[cfg(test)]
mod lock;
#[cfg(test)]
mod opened;
#[cfg(test)]
mod places;
#[cfg(test)]
mod report;
#[cfg(test)]
mod requests;
#[cfg(test)]
mod rows;
#[cfg(test)]
mod runner;
#[cfg(test)]
mod runs;
#[cfg(test)]
mod spared;
#[cfg(test)]
mod steps;
#[cfg(test)]
mod texts;
#[cfg(test)]
mod threads;
#[cfg(test)]
mod world;
#[cfg(test)]
mod wrapper_lines;
