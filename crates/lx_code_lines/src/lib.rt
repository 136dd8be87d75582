//! Places in a program's text: where a thread asks, that its image asks at the same place, and the line of each place at which a function stands in
//! the code of images, in tables that are made once.
//!
//! ```text
//! place_laws();
//! // An image that asks before `check`, `call` and `ret` of block `2` asks where 2 instructions of that block of the text are left: at the call.
//! let lines = Lines::new(alloc, &code)?;
//! // Where a function stands before the guard of a store, or behind it, the line of the store in the text of its module.
//! lines.line(standing);
//! ```
#![tactic(auto)]

ghost use Rattle.lx_code_lines.specs.PlaceLaws.{PlaceLaws};

mod block_lines;
mod functions;
mod lines;

pub use lines::Lines;
use lx_caps::{history_laws, loan_laws};
use lx_model::model_laws;
use lx_simulation::simulation_laws;

/// A thread of accepted images asks at the place of the program's text at which the thread asks that it stands for: in the same function and
/// block, with as many instructions left when marks are not counted. So it is at each point of a run. The line of such a place is that of the
/// instruction that runs.
pub fn place_laws()
    ensures { PlaceLaws }
{
    history_laws();
    loan_laws();
    model_laws();
    simulation_laws();
}
