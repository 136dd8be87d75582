//! Tests of words, the outside world, cases, schedules, interfaces and the tokens of a module's text.
//!
//! ```text
//! // `rt test` proves and runs them. A row of `words`: an operator at a width, its operands, and its result.
//! Row(BinOp::SDiv, Width::W8, 0x80, 0xff, None)
//! ```
#![tactic(auto)]

#[cfg(test)]
mod fault_texts;
#[cfg(test)]
mod interface_texts;
#[cfg(test)]
mod interfaces;
#[cfg(test)]
mod ir_tokens;
#[cfg(test)]
mod outside;
#[cfg(test)]
mod printed;
#[cfg(test)]
mod prototype_texts;
#[cfg(test)]
mod prototypes;
#[cfg(test)]
mod script;
#[cfg(test)]
mod values;
#[cfg(test)]
mod words;
