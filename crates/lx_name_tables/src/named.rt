//! Things that answer to names.
ghost use Rattle.std.specs.Prelude.{◌≡◌, ℕ, List};
ghost use Rattle.lx_name_tables.specs.Places.{defines, is_export, is_global, is_slot, names};

use lx_annot::interface::{Export, Slot};
use lx_ir::module::{Function, GlobalVar};

/// A thing that may answer to a name.
pub(crate) trait Named {
    ghost use Rattle.std.specs.Prelude.{◌≡◌, ℕ, Bool, List};
    ghost use Rattle.lx_name_tables.specs.Places.{names};

    /// Whether the thing answers to a name.
    ghost answers: { List ℕ → Self → Bool };

    /// The name that the thing answers to, if there is one.
    fn known_as(&self) -> Option<&[u8]>
        ensures { (name : List ℕ) → answers name self.now ≡ names result name };

    /// Whether the thing answers to the name.
    fn is_known_as(&self, name: &[u8]) -> bool
        ensures { result ≡ answers name.now self.now };
}

/// A function answers to its name in a text that defines it.
impl Named for Function {
    ghost answers = { defines };

    fn known_as(&self) -> Option<&[u8]> {
        if self.blocks.is_some() {
            Some(self.name.as_slice())
        } else {
            None
        }
    }

    fn is_known_as(&self, name: &[u8]) -> bool {
        self.blocks.is_some() && self.name.is_same(name)
    }
}

impl Named for GlobalVar {
    ghost answers = { is_global };

    fn known_as(&self) -> Option<&[u8]> {
        Some(self.name.as_slice())
    }

    fn is_known_as(&self, name: &[u8]) -> bool {
        self.name.is_same(name)
    }
}

impl Named for Export {
    ghost answers = { is_export };

    fn known_as(&self) -> Option<&[u8]> {
        Some(self.name.as_slice())
    }

    fn is_known_as(&self, name: &[u8]) -> bool {
        self.name.is_same(name)
    }
}

impl Named for Slot {
    ghost answers = { is_slot };

    fn known_as(&self) -> Option<&[u8]> {
        Some(self.name.as_slice())
    }

    fn is_known_as(&self, name: &[u8]) -> bool {
        self.name.is_same(name)
    }
}
