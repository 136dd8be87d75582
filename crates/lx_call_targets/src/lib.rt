//! What a call by an address or through a slot may enter: functions by their addresses, signatures by their widths, and what the writers of a
//! slot hold. Nothing of it takes memory.
//!
//! ```text
//! // The number of the function at this address, where a text defines it.
//! function_at(&program, 0x10070);
//! // Whether the function has the slot type's parameters and result, by their widths.
//! has_signature(&program, slot_type, function);
//! // SlotWriters::Lacks(who), with the first principal that wrote to the slot and does not hold the call.
//! slot_writers(&caps, &names, 0x1000000, 0x10070);
//! ```
#![tactic(auto)]

mod functions;
mod signatures;
mod writers;

pub use functions::{function_at, function_of, home_of, is_in, is_module_function, is_same_home};
pub use signatures::{
    are_declared, declared_width, fits_params, has_signature, has_slot_signature, have_same_widths,
    have_widths, is_same_result, is_same_width, result_width, width_of,
};
pub use writers::{SlotWriters, slot_writers};
