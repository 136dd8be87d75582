//! Tests of the texts of modules and of their parts, of what verifying finds in them, of what clang printed for C files, and of what makes
//! images and checks them.
//!
//! ```text
//! // A row of `instructions`: what stands in a block, and what is printed of the function. `rt test` proves and runs all rows.
//! "%r = freeze i8 %a", "define void @f() {\nb:\n  %r = freeze i8 %a\n}\n"
//! // [`reprinted`] of `@g = dso_local global i32 1, align 4` is `@g = global i32 1`.
//! ```
#![tactic(auto)]

#[cfg(test)]
mod alone;
#[cfg(test)]
mod c_files;
#[cfg(test)]
mod check;
#[cfg(test)]
mod checksum;
#[cfg(test)]
mod constants;
#[cfg(test)]
mod driver;
#[cfg(test)]
mod image_rows;
#[cfg(test)]
mod instructions;
#[cfg(test)]
mod instrument;
#[cfg(test)]
mod instrument_rows;
#[cfg(test)]
mod known;
#[cfg(test)]
mod modules;
#[cfg(test)]
mod operands;
mod reprint;
#[cfg(test)]
mod ring;
#[cfg(test)]
mod short_texts;
#[cfg(test)]
mod slots;
#[cfg(test)]
mod statements;
#[cfg(test)]
mod verified;
#[cfg(test)]
mod verified_rows;
#[cfg(test)]
mod wrap;

pub use reprint::reprinted;
