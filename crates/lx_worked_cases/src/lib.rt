//! Worked cases of the whole program over memory: what it writes, its status, and what its input comes to.
//!
//! ```text
//! // `rt test` proves and runs them. A row of a table: the words, the files before them, and the status and the lines that are wanted.
//! ---- words check one.case m img.ll
//! ---- whole
//! status 8
//! img.ll:4: image 1 @main 0
//! ```
#![tactic(auto)]

#[cfg(test)]
mod bench;
#[cfg(test)]
mod between;
#[cfg(test)]
mod callbacks;
#[cfg(test)]
mod edges;
#[cfg(test)]
mod examples;
#[cfg(test)]
mod fault_texts;
#[cfg(test)]
mod files;
#[cfg(test)]
mod forms;
#[cfg(test)]
mod fuels;
#[cfg(test)]
mod gates;
#[cfg(test)]
mod inputs;
#[cfg(test)]
mod long;
#[cfg(test)]
mod one_entry;
#[cfg(test)]
mod reports;
#[cfg(test)]
mod series;
#[cfg(test)]
mod shelves;
#[cfg(test)]
mod sources;
#[cfg(test)]
mod system;
#[cfg(test)]
mod table;
#[cfg(test)]
mod tests;
#[cfg(test)]
mod threads;
#[cfg(test)]
mod trial;
#[cfg(test)]
mod wanted;
