//! Who wrote where: the writers of each byte since it was last zeroed, and a store of capabilities that tells them too.
//!
//! [`WriterSets`] has a list for each part of 64 bytes of memory. A node of it is a writer and a mask of the bytes in that part
//! that it may have written; one bit for each part says whether it has any, and a table finds the node of a writer in a part. A
//! grant of bytes is noted, at the cost of the parts that it touches; to zero bytes only clears bits and gives nodes back, and
//! so takes no memory; to take bytes from everyone changes no writer.
//!
//! ```text
//! let mut sets = WriterSets::new(alloc);
//! sets.reserve(2)?;
//! sets.note(Principal::Shared(0), 0x1000000, 8);
//! // The first writer of the slot, in the order of principals; and the first that passes the test.
//! sets.next_writer(0x1000000, None);
//! sets.first_writer(0x1000000, &test);
//! // Some writer that passes, the first that is met.
//! sets.some_writer(0x1000000, &test);
//! // Who does not own the bytes any more is forgotten.
//! sets.zero(0x1000000, 8, &caps);
//! ```
//!
//! [`Recorded`] is a store of capabilities and its writer sets. What is granted is noted in the sets too, and bytes that are
//! zeroed lose the writers that do not own them. So the pair stands for whole histories, with the zeroing of bytes among
//! them: the store for the grants and strips of the history, which alone say who owns what, and the sets for its writers.
//!
//! ```text
//! let mut caps = Recorded::new(alloc, PlainCaps::new(alloc));
//! caps.reserve(8)?;
//! caps.grant(Principal::Shared(0), Cap::Write { at: 0x1000000, size: 8 });
//! caps.strip(Cap::Write { at: 0x1000000, size: 8 });
//! // The module may still have left something in the slot there.
//! caps.next_writer(0x1000000, None);
//! ```
#![tactic(auto)]

mod behind;
mod bitmap;
mod chain;
mod entry;
mod index;
mod laws;
mod noted;
mod parts;
mod principal_test;
mod recorded;
mod sets;

pub use laws::{writer_look_laws, writer_set_laws};
pub use principal_test::PrincipalTest;
pub use recorded::Recorded;
pub use sets::WriterSets;
