//! What takes memory where slot types are handed on.

ghost use Rattle.std.specs.Prelude.{◌≡◌, MatchResult, ⊤};
ghost use Rattle.lx_propagate.specs.Within.{HasLawfulTypes};
ghost use Rattle.lx_propagate.specs.Told.{HasSlotTypes};
ghost use Rattle.lx_propagate.specs.Slots.{annotated_of};

use crate::module::annotated_of;
use crate::slots::SlotTypes;
use lx_annot::interface::Interface;
use lx_ir::module::Module;
use lx_slot_types::Annotated;
use lx_words::{Memory, Name};
use std::alloc::Global;

/// What takes memory where slot types are handed on. Conflicts are looked for over any means, so that the contracts can
/// say where want of memory comes: only where the means lacked it, and never in the place of a conflict.
pub trait Means {
    /// There was no memory for a table, a list, a text or a name.
    ghost lacks: { Self → Type 0 };

    /// The slot types of the functions of a module.
    fn slot_types(&self, i: &Interface, m: &Module) -> Result<SlotTypes, Memory>
        requires { HasLawfulTypes m.now }
        ensures { MatchResult result (HasSlotTypes i.now m.now) (λ _. lacks self.now) };

    /// The name of these bytes, for a conflict.
    fn name(&self, bytes: &[u8]) -> Result<Name, Memory>
        ensures { MatchResult result (λ name. name ≡ bytes.now) (λ _. lacks self.now) };

    /// The functions of a module with their slot types.
    fn annotated_of(
        &self,
        i: &Interface,
        m: &Module,
        types: &SlotTypes,
    ) -> Result<Annotated, Memory>
        requires lawful { HasLawfulTypes m.now }
        requires types { HasSlotTypes i.now m.now types.now }
        ensures { MatchResult result (λ list. list ≡ annotated_of i.now m.now) (λ _. lacks self.now) };
}

impl Means for Global {
    ghost lacks = { λ _. ⊤ };

    fn slot_types(&self, i: &Interface, m: &Module) -> Result<SlotTypes, Memory> {
        let types = SlotTypes::new(*self, i, m)?;
        Ok(types)
    }

    fn name(&self, bytes: &[u8]) -> Result<Name, Memory> {
        let name = Name::from_bytes(*self, bytes)?;
        Ok(name)
    }

    fn annotated_of(
        &self,
        i: &Interface,
        m: &Module,
        types: &SlotTypes,
    ) -> Result<Annotated, Memory> {
        let list = annotated_of(*self, i, m, types)?;
        Ok(list)
    }
}
