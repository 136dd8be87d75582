//! Worked rows: programs written out, and the accounts that the monitor gives of their runs.
ghost use Rattle.lx_generated_laws.specs.ProgramRows.{WorkedRows};
ghost use Rattle.lx_generated_laws.specs.RowsOfThreads.{WorkedThreads};
ghost use Rattle.lx_generated_laws.specs.Mains.{Freed, BentPacket, StackBytes, Edges};
ghost use Rattle.lx_generated_laws.specs.Spanned.{Spanned};
ghost use Rattle.lx_generated_laws.specs.Slots.{BentSlot, SwappedSlot, ZeroedSlot, ColdSlot};
ghost use Rattle.lx_generated_laws.specs.Hooked.{Hooked};
ghost use Rattle.lx_generated_laws.specs.SentPackets.{Raced, HalfGiven, RacedBefore, AllGiven};
ghost use Rattle.lx_generated_laws.specs.GivenBack.{GivenBack};
ghost use Rattle.lx_generated_laws.specs.Instances.{TwoInstances, Aliased, AliasRefused};
ghost use Rattle.lx_generated_laws.specs.Lone.{Divisions, Compiled, TooDeep, StackFull};
ghost use Rattle.lx_generated_laws.specs.References.{References};
ghost use Rattle.lx_generated_laws.specs.Generated.{Generated};
ghost use Rattle.lx_generated_laws.specs.LentPackets.{LentPacket, BorrowedPacket};

/// One function: with enough fuel, with too little, and a store past the end of a global.
pub fn worked_rows()
    ensures { WorkedRows }
{}

/// Two threads that race for a block.
pub fn worked_threads()
    ensures { WorkedThreads }
{}

/// A store to a block that was given back.
pub fn freed()
    ensures { Freed }
{}

/// A store over bytes of the shared principal and of an instance.
pub fn spanned()
    ensures { Spanned }
{}

/// A slot that a module bent to a function which it may not call.
pub fn bent_slot()
    ensures { BentSlot }
{}

/// A slot that holds a function of another annotation.
pub fn swapped_slot()
    ensures { SwappedSlot }
{}

/// A slot that is zeroed while a module owns it.
pub fn zeroed_slot()
    ensures { ZeroedSlot }
{}

/// A packet whose header points to a global that is not all the module's.
pub fn bent_packet()
    ensures { BentPacket }
{}

/// A transfer of stack bytes.
pub fn stack_bytes()
    ensures { StackBytes }
{}

/// Indirect calls of a function that was handed out, and of one that was not.
pub fn hooked()
    ensures { Hooked }
{}

/// A packet that is sent between two stores of another thread.
pub fn raced()
    ensures { Raced }
{}

/// A call that runs out of fuel between two actions.
pub fn half_given()
    ensures { HalfGiven }
{}

/// The same, where the other thread is done before.
pub fn raced_before()
    ensures { RacedBefore }
{}

/// The same, with fuel for both actions.
pub fn all_given()
    ensures { AllGiven }
{}

/// A reference that is given back by a negative result.
pub fn given_back()
    ensures { GivenBack }
{}

/// One instance writes to what another owns.
pub fn two_instances()
    ensures { TwoInstances }
{}

/// The same under a further name of the one that owns.
pub fn aliased()
    ensures { Aliased }
{}

/// A clean slot that holds no function.
pub fn cold_slot()
    ensures { ColdSlot }
{}

/// Ranges at the edges of memory and of the numbers.
pub fn edges()
    ensures { Edges }
{}

/// Divisions, and a loop without end.
pub fn divisions()
    ensures { Divisions }
{}

/// A function as a compiler writes it.
pub fn compiled()
    ensures { Compiled }
{}

/// References that are handed out on a condition.
pub fn references()
    ensures { References }
{}

/// A further name that is taken.
pub fn alias_refused()
    ensures { AliasRefused }
{}

/// A function that calls itself.
pub fn too_deep()
    ensures { TooDeep }
{}

/// A stack that is full, and one that is too full.
pub fn stack_full()
    ensures { StackFull }
{}

/// Twenty generated calls on four threads.
pub fn generated()
    ensures { Generated }
{}

/// A packet that is lent to a module for one call: it is not the module's in the next one.
pub fn lent_packet()
    ensures { LentPacket }
{}

/// A packet that a module gives away while it has it on loan.
pub fn borrowed_packet()
    ensures { BorrowedPacket }
{}
