//! What each module of a program can come to hold, whatever runs: a bound by rules over its texts, which no run of the monitor passes;
//! the code that reckons it, and its text.
//!
//! ```text
//! let bound = bound(alloc, &linked)?;
//! // One line for each type of references, and one for each function of the kernel: `surface m ref box`, `surface m call box_open`.
//! let text = bound_text(alloc, linked.program(), &bound)?;
//! static_reach_laws();
//! // What a principal of a module comes to own of calls and references in a run, its module can come to hold.
//! ```
//!
//! Each pair of a module and a thing is gone over once, and what a function of another module gives is kept until that module can
//! hold it. So the work grows with the pairs, and with what the annotations of a function name, once for each two modules.
#![tactic(auto)]

ghost use Rattle.lx_surface.specs.Laws.{ReachLaws};
ghost use Rattle.lx_surface.specs.Other.{NamingLaws};

mod closing;
mod following;
mod giving;
mod limits;
mod marks;
mod opening;
mod pairs;
mod text;
mod waits;
mod whole;
mod work;

pub use limits::Bound;
pub use opening::bound_of;
pub use text::bound_text;
pub use whole::{bound, bound_by};

/// What a module can come to hold: references of a type of the interface, or the call of a defined function of the program.
#[derive(Clone, Copy)]
pub enum Thing {
    RefType(u32),
    Function(u32),
}

/// Whatever a principal of a module comes to own of calls and references in a run, its module can come to hold.
pub fn static_reach_laws()
    ensures { ReachLaws }
{}

/// What the rules say, in other words: what an action names and what it does not, and where a reference comes from.
pub fn naming_laws()
    ensures { NamingLaws }
{}
