//! Worked rows.

ghost use Rattle.lx_propagate.specs.Rows.{WorkedSlots};

/// Worked rows: two slot types that differ and that agree, and each kind of place.
pub fn worked_slots()
    ensures { WorkedSlots }
{}
