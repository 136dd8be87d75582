//! Generated cases: a module and as many calls of it as are asked for, on four threads, to see a whole run at once; and the kernel and the
//! interface that the program brings along, as texts.
//!
//! ```text
//! let texts = generate(alloc, 200)?;
//! // texts.case: "lxfi case 1\nkernel builtin\ninterface builtin\nmodule gen gen.ll\nthread\ncall gen:work 200 fuel 100\n.."
//! kernel_text();
//! // IR text: the functions that modules may import, such as `kmalloc` and `dev_register`, over natives as `k.alloc` and `k.note`.
//! interface_text();
//! // For each of these functions which capabilities a call checks, copies and transfers.
//! ```
//!
//! Each call allocates, stores, loads and frees; each tenth stores where its module may not.
#![tactic(auto)]

mod generated;
mod interface;
mod kernel;

pub use generated::{Generated, MOST_CALLS, generate, module_text};
pub use interface::interface_text;
pub use kernel::kernel_text;
