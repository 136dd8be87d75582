//! Nodes in two linked lists at once, and the parts of memory that have lists of them.
//!
//! A [`NodePool`] keeps values in nodes. A node and a list have a number each. Every node stands in one list of places
//! and in one list of owners; both are doubly linked by numbers, so a node leaves both in a few steps.
//!
//! ```text
//! let mut pool = NodePool::new(alloc);
//! let place = pool.add_list(Family::Place)?;
//! let owner = pool.add_list(Family::Owner)?;
//! pool.reserve(1)?;
//! let node = pool.link(place, owner, 7);
//! // The node is the first of both its lists.
//! pool.first(ListName::Owner(owner));
//! pool.unlink(node);
//! ```
//!
//! Memory is cut into parts of 64 bytes, and each part has a list with a number. A range of bytes is a [`Piece`] in each of
//! the parts that it lies in, and a piece has a mask: a bit for each of its bytes.
//!
//! ```text
//! // The bytes 0x103e to 0x1041 lie in two parts; those of the first one are its last two.
//! let piece = piece_of(0x103e, 4, 0x40);
//! // So the mask is 3 << 62.
//! let mask = piece_bits(piece);
//! // The first part of the heap has the list 0x4000.
//! list_of_part(0x80000);
//! ```
#![tactic(auto)]

pub mod bits;
mod links;
mod piece;
mod pool;

pub use piece::{PART, Piece, list_of_part, parts_end, piece_bits, piece_of};
pub use pool::{Family, ListName, NodePool};
