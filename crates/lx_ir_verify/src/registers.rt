//! Registers that are read on some walk that did not assign them.
ghost use Rattle.std.specs.Prelude.{Some};
ghost use Rattle.lx_ir.specs.Faults.{FirstUnassigned, read_fault, reads_of};
ghost use Rattle.lx_ir_verify.specs.Shown.{Answers, Gives};

use crate::fault::{VerifyFault, marked};
use crate::operands::register_name;
use lx_ir::module::Function;
use lx_ir_walks::{Read, first_unassigned};
use std::alloc::Global;

/// The fault of a read.
fn not_assigned(alloc: Global, f: &Function, x: Read) -> Result<(), VerifyFault>
    ensures { Gives (Some (read_fault f.now x)) result }
{
    let what = marked(alloc, b"%", register_name(f, x.register))?;
    Err(VerifyFault::NotAssigned { line: x.line, what })
}

/// Finds the first read of a register on some walk that did not assign it.
pub fn check_registers(alloc: Global, f: &Function) -> Result<(), VerifyFault>
    ensures { Answers (FirstUnassigned f.now (reads_of f.now)) result }
{
    let found = first_unassigned(alloc, f)?;
    match found {
        None => Ok(()),
        Some(x) => not_assigned(alloc, f, x),
    }
}
