//! Worked rows of linking: programs written out, and those that linking gives; faults of texts and of scripts, one alone and the first of
//! two.
ghost use Rattle.lx_generated_laws.specs.LinkedPrograms.{WorkedPrograms};
ghost use Rattle.lx_generated_laws.specs.LinkFaults.{WorkedFaults};
ghost use Rattle.lx_generated_laws.specs.LinkCalls.{WorkedCalls};
ghost use Rattle.lx_generated_laws.specs.LinkOrders.{WorkedOrders};

/// Linking gives the programs of the worked runs.
pub fn worked_programs()
    ensures { WorkedPrograms }
{}

/// The first fault of small texts.
pub fn worked_faults()
    ensures { WorkedFaults }
{}

/// The first fault of small scripts, and faults as they are answered.
pub fn worked_calls()
    ensures { WorkedCalls }
{}

/// The first of two faults.
pub fn worked_orders()
    ensures { WorkedOrders }
{}
