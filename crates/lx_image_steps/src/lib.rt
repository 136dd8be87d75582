//! What the next instruction of a running function does in a machine of images: its value, where control goes, or what it asks, and
//! for whom; what guards and checks leave for it; and which wrapper it calls.
//!
//! ```text
//! // At `%x = add i32 %a, 7`, where `%a` holds 1: Some(Step::Does(Effect::Gives(the word 8))).
//! let step = next_step(alloc, &code, &activation)?;
//! // Behind a guard that names all its bytes a store is asked for in the name of the top principal of the shadow stack, and else in the kernel's.
//! asker(Some(0), &marks, top, &what);
//! ```
#![tactic(auto)]

mod activation;
mod askers;
mod calls;
mod effect;
mod elements;
mod given;
mod jumps;
mod marks;
mod memory;
mod next;
mod operand;
mod routes;
mod steps;
mod values;
mod wrapped;

pub use activation::{Activation, Range};
pub use askers::asker;
pub use effect::Effect;
pub use marks::{Guarded, Marks};
pub use next::{Step, next_step};
pub use steps::{call_result, instruction, registers_of, returned};
