//! What the names of a program stand for.
ghost use Rattle.std.specs.Prelude.{◌≡◌, IfOk};
ghost use Rattle.lx_model.specs.Program.{module_of, empty_module, target, global_address};
ghost use Rattle.lx_code.specs.Reach.{IsWithinReach};
ghost use Rattle.lx_code.specs.Targets.{target_of};

use crate::tables::Tables;
use crate::targets::Target;
use lx_ir::NamedTypes;
use lx_ir::module::Module;
use lx_model::program::Program;
use lx_words::{Items, Memory};
use std::alloc::Global;
use std::marker::Model;
use std::sync::Arc;

/// A program, with tables of what the names of its texts stand for. Contracts see the program.
pub(crate) struct Names {
    program: Arc<Program>,
    empty: Module,
    tables: Tables,
}

impl Drop for Names {
    fn drop(self) {
        let Names {
            program: _,
            empty: _,
            tables: _,
        } = self;
    }
}

impl Model for Names {
    ghost use Rattle.std.specs.Arc.{arc_value};
    ghost use Rattle.lx_model.specs.declared.program.Program.{Program as Meaning};
    ghost use Rattle.lx_code.specs.Runnable.{IsNamed};
    ghost use Rattle.lx_model.specs.contracts.program.Program as program_row;

    ghost Value = { Meaning };

    ghost coded = { program_row.the_row.coded };

    ghost view = { λ n. arc_value n.program };

    ghost invariant = { λ n. IsNamed (arc_value n.program) n.empty n.tables.kernel n.tables.modules n.tables.addresses.entries };
}

// A text that has nothing.
fn no_text(alloc: Global) -> Module
    ensures { result ≡ empty_module }
{
    Module {
        types: NamedTypes::empty(alloc),
        globals: Items::new(alloc),
        functions: Items::new(alloc),
    }
}

impl Names {
    ghost use Rattle.std.specs.Arc.{arc_value};

    /// The tables of a program. More modules than a number of 32 bits counts are want of memory.
    pub(crate) fn new(alloc: Global, program: Arc<Program>) -> Result<Names, Memory>
        requires { IsWithinReach (arc_value program) }
        ensures { IfOk result (λ names. names ≡ arc_value program) }
    {
        let tables = Tables::new(alloc, &program)?;
        Ok(Names {
            program,
            empty: no_text(alloc),
            tables,
        })
    }

    /// The program.
    pub(crate) fn program(&self) -> &Program
        ensures { result.now ≡ self.now }
    {
        &*self.program
    }

    /// The text of a module, or of the kernel; an empty one, where there is none.
    pub(crate) fn text(&self, home: Option<u32>) -> &Module
        ensures { result.now ≡ module_of self.now home }
    {
        match home {
            None => &self.program().kernel,
            Some(number) => match self.program().modules.items.get(number as usize) {
                Some(found) => &found.module,
                None => &self.empty,
            },
        }
    }

    /// What the function with this number in a text names there.
    pub(crate) fn target(&self, home: Option<u32>, function: u32) -> Target
        ensures { target_of result ≡ target self.now home function }
    {
        self.tables.target(home, function)
    }

    /// The address of a global; 0, where there is none.
    pub(crate) fn global_address(&self, home: Option<u32>, number: u32) -> u64
        ensures { result ≡ global_address self.now home number }
    {
        self.tables.address(home, number).unwrap_or(0)
    }
}
