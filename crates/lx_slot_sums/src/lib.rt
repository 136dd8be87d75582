//! What slot types lists of fields get, in two numbers for each list: the first slot type, and the first whose annotation differs
//! from that one's. Sums of lists are joined without going through the lists, so that each type is looked at once.
//!
//! ```text
//! let sums = SlotSums::new(alloc, &interface, &module)?;
//! // `%struct.dev_ops` is type 0, and `field %struct.dev_ops 0 : probe` alone types this field: its first slot type is `probe`, with no other.
//! let first = sums.of_field(FieldName { struct_number: 0, index: 0 });
//! // The sum of both lists, and that of the fields that begin at byte 8 of the first global.
//! sums.join(first, sums.of_global(0, 8));
//! ```
#![tactic(auto)]

mod classes;
mod field_sums;
mod fields;
mod known;
mod making;
mod rows;
mod slot_sums;
mod spread;
mod sums;
mod typed;

pub use fields::FieldName;
pub use slot_sums::SlotSums;
pub use sums::SlotSum;
