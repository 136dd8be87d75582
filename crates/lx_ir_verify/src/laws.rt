//! Laws of the faults.
ghost use Rattle.lx_ir_verify.specs.Laws.{OneFirstFault, ReadsAreAssigned};
ghost use Rattle.lx_ir_verify.specs.Rows.{WorkedFaults};

/// A module has one first fault or none; and in a module without a fault every walk from the start of a function
/// to a read assigned the register that is read.
pub fn verifier_laws()
    ensures one { OneFirstFault }
    ensures assigned { ReadsAreAssigned }
{}

/// Worked rows of the register fault.
pub fn worked_faults()
    ensures { WorkedFaults }
{}
