//! Modules compared as texts. The lines in which their parts stand do not count.
//!
//! ```text
//! // `@g = global i32 0` in line 1 and the same in line 3 are one text; with `i32 1` they are not.
//! is_same_text(&one, &other);
//! ```
#![tactic(auto)]

ghost use Rattle.std.specs.Prelude.{◌≡◌, IsTrue};
ghost use Rattle.lx_same_texts.specs.Same.{same_module};
ghost use Rattle.lx_same_texts.specs.SameText.{SameText};

mod effects;
mod functions;
mod globals;
mod operands;
mod registers;
mod types;

use functions::are_same_functions;
use globals::are_same_globals;
use lx_ir::module::Module;
use types::are_same_named_types;

fn is_same_module(a: &Module, b: &Module) -> bool
    ensures { result ≡ same_module a.now b.now }
{
    are_same_named_types(a.types.as_slice(), b.types.as_slice())
        && are_same_globals(a.globals.as_slice(), b.globals.as_slice())
        && are_same_functions(a.functions.as_slice(), b.functions.as_slice())
}

/// Whether two modules are one text: the same types, the same globals and the same functions, in whatever lines they stand. The time is
/// linear in the shorter of the two texts.
#[tactic(auto, using(crate::proofs::Modules::told, crate::proofs::Modules::tells))]
pub fn is_same_text(a: &Module, b: &Module) -> bool
    ensures same { IsTrue result → SameText a.now b.now }
    ensures told { SameText a.now b.now → IsTrue result }
{
    is_same_module(a, b)
}

/// Whether two modules have the same types.
#[tactic(auto, using(crate::proofs::Modules::types_told))]
pub fn has_same_types(a: &Module, b: &Module) -> bool
    ensures { IsTrue result → a.now.types ≡ b.now.types }
{
    are_same_named_types(a.types.as_slice(), b.types.as_slice())
}
