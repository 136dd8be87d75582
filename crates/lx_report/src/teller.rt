//! What principals and capabilities are told by.

use crate::given::GivenNames;
use lx_model::account::InstanceName;
use lx_model::program::Program;
use lx_words::Memory;
use std::alloc::Global;

/// A program and the names of a run's instances.
#[derive(Drop)]
pub struct Teller<'a> {
    /// The program, which has the names of modules and reference types.
    pub program: &'a Program,
    /// The names of instances, of which the first one of each is told.
    pub names: GivenNames<'a>,
}

impl<'a> Teller<'a> {
    ghost use Rattle.std.specs.Prelude.{◌≡◌, IfOk};

    /// Makes a map of the names' first values. Want of memory is the only error.
    pub fn new(
        alloc: Global,
        program: &'a Program,
        names: &'a [InstanceName],
    ) -> Result<Self, Memory>
        ensures program { IfOk result (λ teller. teller.program.now ≡ program.now) }
        ensures names { IfOk result (λ teller. teller.names ≡ names.now) }
    {
        let names = GivenNames::new(alloc, names)?;
        Ok(Teller { program, names })
    }
}
