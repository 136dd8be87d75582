//! How far constant indices go, over types that may lie outside the limits, and which types do.
//!
//! ```text
//! // The indices `i64 1, i32 1` over `{ i32, ptr }`: one whole struct, and then to its second field. Some(24).
//! distance(types, &ty, &indices);
//! ```
#![tactic(auto)]

ghost use Rattle.lx_ir_offsets.specs.Laws.{FitsAreLayouts};
ghost use Rattle.lx_ir_offsets.specs.DistanceLaws.{LayoutsAreKept, LawfulTypesFit, FieldsAreOffsets, DistancesAreOffsets, DistancesAreFound};

mod known;
mod offset;
mod shape;

pub use known::KnownTypes;
pub use offset::{distance, part_at};
pub use shape::{Shape, is_outside, left_behind, named_shapes};

/// The layout that is kept of a type within the limits is that of its definition.
pub fn layout_laws()
    ensures { FitsAreLayouts }
{}

/// The layouts that are kept of types within the limits are those of their definition, a field begins where it says, and
/// indices can be followed and go as far as it says, modulo 2^64.
pub fn distance_laws()
    ensures kept { LayoutsAreKept }
    ensures fit { LawfulTypesFit }
    ensures fields { FieldsAreOffsets }
    ensures distances { DistancesAreOffsets }
    ensures found { DistancesAreFound }
{
    layout_laws();
}
