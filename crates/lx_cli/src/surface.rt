//! What each module can come to hold.
ghost use Rattle.std.specs.Prelude.{◌≡◌, List, ℕ, IfOk};
ghost use Rattle.lx_input.specs.Laws.{IsReady};
ghost use Rattle.lx_cli.specs.Answer.{IsSurface};

use crate::answer::Answer;
use lx_input::Input;
use lx_surface::{bound_by, bound_text, static_reach_laws};
use lx_words::{Memory, Name};
use std::alloc::Global;

/// What each module of the input can come to hold. Nothing is run.
pub(crate) fn surface_input(alloc: Global, input: &Input) -> Result<Answer, Memory>
    requires { IsReady input.now }
    ensures { IfOk result (λ a. (text : List ℕ) × (a ≡ Answer.Text text) × IsSurface input.now text) }
{
    static_reach_laws();
    let program = &input.program;
    let bound = bound_by(alloc, program, input.annotated.as_slice())?;
    let text = bound_text(alloc, program, &bound)?;
    Ok(Answer::Text(Name::from_vec(text)))
}
