//! The named types of a module, with their layouts.

ghost use Rattle.std.specs.Prelude.{◌≡◌, [], IfOk, length, map, option_and_then, option_copied, slice_get};
ghost use Rattle.lx_ir.specs.Fitting.{fitting_layouts, named_starts, starts_of};

use crate::layout::{Layout, field_starts, fitting_layouts};
use crate::types::{IrType, NamedType, TypeNode};
use lx_words::{Items, Memory};
use std::alloc::Global;
use std::marker::Model;

/// The types of a module that have names. The layout of each and where its fields begin are kept, so that no use of a name goes
/// through what it names. Contracts see the list of the types.
pub struct NamedTypes {
    entries: Items<NamedType>,
    layouts: Items<Option<Layout>>,
    starts: Items<Items<u64>>,
}

impl Drop for NamedTypes {
    fn drop(self) {
        let NamedTypes {
            entries: _,
            layouts: _,
            starts: _,
        } = self;
    }
}

impl Model for NamedTypes {
    ghost use Rattle.std.specs.Prelude.{List, ◌≡◌};
    ghost use Rattle.std.specs.Coded.{coded_list};
    ghost use Rattle.lx_ir.specs.declared.types.NamedType.{NamedType as Meaning};
    ghost use Rattle.lx_ir.specs.Fitting.{fitting_layouts, named_starts};
    ghost use Rattle.lx_ir.specs.contracts.types.NamedType as named_type_row;

    ghost Value = { List Meaning };

    ghost coded = { coded_list named_type_row.the_row.coded };

    ghost view = { λ t. t.entries };

    ghost invariant = { λ t. (t.layouts ≡ fitting_layouts t.entries) × (t.starts ≡ named_starts t.entries) };
}

/// Where the fields of a type begin, if it is a struct without a name.
fn starts_of(alloc: Global, layouts: &[Option<Layout>], t: &IrType) -> Result<Items<u64>, Memory>
    ensures { IfOk result (λ starts. starts ≡ starts_of layouts.now t.now) }
{
    match &t.node {
        TypeNode::Struct(fields) => {
            let starts = field_starts(alloc, layouts, false, fields)?;
            Ok(starts)
        }
        TypeNode::Packed(fields) => {
            let starts = field_starts(alloc, layouts, true, fields)?;
            Ok(starts)
        }
        TypeNode::Scalar(_) | TypeNode::Array(_, _) | TypeNode::Named(_) => Ok(Items::new(alloc)),
    }
}

/// Where the fields of each named type begin.
fn all_starts(
    alloc: Global,
    layouts: &[Option<Layout>],
    types: &[NamedType],
) -> Result<Items<Items<u64>>, Memory>
    ensures { IfOk result (λ starts. starts ≡ map (λ e. starts_of layouts.now e.ty) types.now) }
{
    let mut starts = Items::new(alloc);
    for named in types {
        starts.push(starts_of(alloc, layouts, &named.ty)?)?;
    }
    Ok(starts)
}

impl NamedTypes {
    /// No types.
    #[tactic(auto, using(crate::proofs::Fits::no_layouts, crate::proofs::Fits::no_starts))]
    pub fn empty(alloc: Global) -> Self
        ensures { result ≡ [] }
    {
        NamedTypes {
            entries: Items::new(alloc),
            layouts: Items::new(alloc),
            starts: Items::new(alloc),
        }
    }

    /// These types. Their layouts are reckoned here, once.
    ///
    /// # Errors
    /// Want of memory for the layouts.
    #[tactic(auto, using(crate::proofs::Fits::starts_kept))]
    pub fn new(alloc: Global, entries: Items<NamedType>) -> Result<Self, Memory>
        ensures { IfOk result (λ types. types ≡ entries) }
    {
        let layouts = fitting_layouts(alloc, entries.as_slice())?;
        let starts = all_starts(alloc, layouts.as_slice(), entries.as_slice())?;
        Ok(NamedTypes {
            entries,
            layouts,
            starts,
        })
    }

    /// The types in order.
    pub fn as_slice(&self) -> &[NamedType]
        ensures { result.now ≡ self.now }
    {
        self.entries.as_slice()
    }

    /// How many types there are.
    pub fn len(&self) -> usize
        ensures { result ≡ length self.now }
    {
        self.entries.len()
    }

    /// The type that has a number.
    pub fn get(&self, number: u32) -> Option<&NamedType>
        ensures { option_copied result ≡ slice_get self.entry.now number }
    {
        self.entries.as_slice().get(number as usize)
    }

    /// The layouts of the types by their numbers; none for one that is outside the limits.
    pub fn layouts(&self) -> &[Option<Layout>]
        ensures { result.now ≡ fitting_layouts self.now }
    {
        self.layouts.as_slice()
    }

    /// Where a field of the type with a number begins, if that type is a struct and has such a field within the limits.
    pub fn field_start(&self, number: u32, field: usize) -> Option<u64>
        ensures { result ≡ option_and_then (λ starts. slice_get starts field) (slice_get (named_starts self.now) number) }
    {
        match self.starts.as_slice().get(number as usize) {
            Some(starts) => starts.as_slice().get(field).copied(),
            None => None,
        }
    }
}
