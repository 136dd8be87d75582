//! Lists of who has what, as page tables of capabilities have them, and the ranges that the bytes in them make.
//!
//! ```text
//! // The bytes 0x2000000 to 0x200000f are the principal's, whose list has the number 0.
//! give_range(&mut pool, Holder::Keeper(who), 0, 0x2000000, 16);
//! // Bytes 0x1040 and 0x1041, and the last two bytes of the part before them: the one range `Write { at: 0x103e, size: 4 }`.
//! parts.push(PartBytes { part: 0x41, mask: 3 })?;
//! parts.push(PartBytes { part: 0x40, mask: 3 << 62 })?;
//! let ranges = ranges_of(alloc, parts)?;
//! ```
//!
//! Memory is cut into parts of 64 bytes. What a holder has of a part stands in one node, with a bit for each byte; so does each call
//! and each reference, with the lowest bit. A node stands in the list of its place (a part, a call or a reference) and in
//! the list of its owner (a principal, or a loan), so that both are walked at what they hold. The parts that somebody has bytes of may stand in
//! any order, and one part more than once: their greatest ranges come of a sort and a walk.
#![tactic(auto)]

mod bits;
mod entry;
mod holder;
mod index;
mod keys;
mod lists;
mod mask;
mod parts;
mod pool;
mod runs;
mod walk;

pub use entry::{Entry, Spot, atom_alone, bits_from, first_byte, sooner};
pub use holder::{Holder, InReach, principal_of};
pub use keys::{Key, call_key, loan_key, owner_key, place_for, place_in, ref_key};
pub use lists::{Seen, first_owned, first_owner, give, has_bits, reached, take, take_all, visit};
pub use lx_cap_nodes::bits::is_set;
pub use lx_cap_nodes::{PART, Piece, list_of_part, parts_end, piece_bits, piece_of};
pub use parts::{give_range, take_range};
pub use pool::Pool;
pub use walk::ranges_of;

/// Bytes of one part of memory, the 64 bytes that begin at 64 times the part's number: a bit of the mask for each.
#[derive(Clone, Copy)]
pub struct PartBytes {
    pub part: u64,
    pub mask: u64,
}
