//! What a report looks up in a program and a run.

ghost use Rattle.std.specs.Prelude.{◌≡◌};

use crate::slots::ModuleSlots;
use crate::teller::Teller;
use lx_model::account::{CallOutcome, InstanceName};
use lx_model::program::Program;
use lx_name_tables::InterfaceNames;
use lx_words::Memory;
use std::alloc::Global;

/// What tells principals of a program and a run, with tables of what else a report looks up in the program.
#[derive(Drop)]
pub struct Told<'a> {
    pub(crate) alloc: Global,
    /// What principals are told by.
    pub teller: Teller<'a>,
    pub(crate) interface: InterfaceNames<'a>,
    pub(crate) slots: ModuleSlots<'a>,
    ghost same: { interface ≡ teller.program.now.interface },
    ghost same_slots: { slots ≡ teller.program.now },
}

impl<'a> Told<'a> {
    ghost use Rattle.std.specs.Prelude.{◌≡◌, IfOk};
    ghost use Rattle.lx_report.specs.Lawful.{HasLawfulModules};

    /// The tables, of which those of slot types are made.
    fn with_slots(
        alloc: Global,
        program: &'a Program,
        names: &'a [InstanceName],
        slots: ModuleSlots<'a>,
    ) -> Result<Self, Memory>
        requires { slots ≡ program.now }
        ensures program { IfOk result (λ told. told.teller.program.now ≡ program.now) }
        ensures names { IfOk result (λ told. told.teller.names ≡ names.now) }
    {
        match Teller::new(alloc, program, names) {
            Ok(teller) => Ok(Told {
                alloc,
                teller,
                interface: InterfaceNames::new(alloc, &program.interface),
                slots,
            }),
            Err(why) => {
                drop(slots);
                Err(why)
            }
        }
    }

    /// Makes the tables, once for a text: of a program, the names of instances, and the outcomes that will be told, whose refusals
    /// may name slot types. Want of memory is the only error.
    pub fn new(
        alloc: Global,
        program: &'a Program,
        names: &'a [InstanceName],
        outcomes: &[CallOutcome],
    ) -> Result<Self, Memory>
        requires { HasLawfulModules program.now }
        ensures program { IfOk result (λ told. told.teller.program.now ≡ program.now) }
        ensures names { IfOk result (λ told. told.teller.names ≡ names.now) }
    {
        match ModuleSlots::new(alloc, program, outcomes) {
            Ok(slots) => Told::with_slots(alloc, program, names, slots),
            Err(why) => Err(why),
        }
    }
}
