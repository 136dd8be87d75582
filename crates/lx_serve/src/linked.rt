//! A linked program that several owners share.
ghost use Rattle.std.specs.Prelude.{◌≡◌};
ghost use Rattle.std.specs.Arc.{arc_value};
ghost use Rattle.lx_serve.specs.Sources.{IsLinked};

use lx_model::program::Program;
use std::alloc::Global;
use std::sync::Arc;

/// A linked program, which the code that runs it shares.
pub(crate) struct LinkedProgram {
    program: Arc<Program>,
    ghost linked: { IsLinked (arc_value program) },
}

impl Drop for LinkedProgram {
    fn drop(self) {
        let LinkedProgram { program: _ } = self;
    }
}

impl LinkedProgram {
    ghost use Rattle.std.specs.Prelude.{◌≡◌};
    ghost use Rattle.std.specs.Arc.{arc_value};
    ghost use Rattle.lx_serve.specs.Sources.{IsLinked};

    pub(crate) fn new(program: Arc<Program>) -> LinkedProgram
        requires { IsLinked (arc_value program) }
        ensures { result.program ≡ program }
    {
        LinkedProgram { program }
    }

    pub(crate) fn get(&self) -> &Program
        ensures program { result.now ≡ arc_value self.now.program }
        ensures linked { IsLinked result.now }
    {
        &self.program
    }
}
