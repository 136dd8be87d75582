//! The types that names stand for.

ghost use Rattle.std.specs.Prelude.{◌≡◌};
ghost use Rattle.lx_ir_offsets.specs.Known.{named_in, layouts_in};

use lx_ir::types::NamedType;
use lx_ir::{Layout, NamedTypes};

/// The types that have names, by their numbers, and what is known of their layouts.
#[derive(Clone, Copy)]
pub enum KnownTypes<'a> {
    /// These types, and as many layouts as are known of them; none for a type that is outside the limits.
    Listed(&'a [NamedType], &'a [Option<Layout>]),
    /// All types of a text. It is kept where the fields of each begin, so that no index goes over the fields before the one that it
    /// names.
    Laid(&'a NamedTypes),
}

impl<'a> KnownTypes<'a> {
    /// The types by their numbers.
    pub fn named(self) -> &'a [NamedType]
        ensures { result.now ≡ named_in self.entry }
    {
        match self {
            KnownTypes::Listed(named, _) => named,
            KnownTypes::Laid(types) => types.as_slice(),
        }
    }

    /// Their layouts.
    pub(crate) fn layouts(self) -> &'a [Option<Layout>]
        ensures { result.now ≡ layouts_in self.entry }
    {
        match self {
            KnownTypes::Listed(_, layouts) => layouts,
            KnownTypes::Laid(types) => types.layouts(),
        }
    }
}
