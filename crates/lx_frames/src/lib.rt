//! The frames of a thread of a program's instrumented code: functions that run, the wrappers round those that calls cross into, and
//! the principals of these wrappers, which are its shadow stack. What a reply may enter is made room for before it is asked.
//!
//! ```text
//! let mut stack = FrameStack::open(alloc)?;
//! // The function that runs on top; none, where a wrapper or nothing does.
//! stack.running();
//! // The function in the wrapper acts for module 0; it was called by the kernel.
//! stack.shadow.make_room()?;
//! stack.shadow.push(Principal::Shared(0));
//! // Principal::Shared(0), and below it Principal::Kernel.
//! stack.shadow.top();
//! stack.shadow.below_top();
//! ```
#![tactic(auto)]

mod callers;
mod copies;
mod frame;
mod registers;
mod shadow;
mod stack;

pub use callers::Callers;
pub use copies::copies_of;
pub use frame::Frame;
pub use shadow::Shadow;
pub use stack::{Entry, FrameStack};
