//! An index of acts by what they touch: who gave an atom, and what certificate a need has, without a walk over the acts.
//!
//! An [`ActIndex`] stands for a history of acts. For each place (a part of memory of 64 bytes, a call or a reference) it keeps a
//! line: what the acts said of that place, the newest first, with a bit for each byte. An act that is noted takes from the
//! older entries of the line what it says anew, so that a line has at most 64 entries for each holder of its bytes.
//!
//! ```
//! let mut index = ActIndex::new(alloc)?;
//! index.note(Act::Grant(Principal::Shared(0), Cap::Write { at: 0x1000000, size: 7 }))?;
//! let cert = index.cert_for(alloc, Principal::Shared(0), Cap::Write { at: 0x1000000, size: 8 }, false)?;
//! // Cert::Deny { atom: Atom::Byte(0x1000007), strip: None, .. }
//! ```
#![tactic(auto)]

mod index;
mod laws;
mod lines;
mod make;
mod note;
mod runs;
mod table;
mod threads;

pub use index::ActIndex;
pub use laws::worked_lines;
