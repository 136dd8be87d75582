//! The passes over a module, in their order.
ghost use Rattle.lx_ir.specs.Faults.{FirstFault, FirstOfFunctions, FunctionFault, earlier_fault};
ghost use Rattle.lx_ir_verify.specs.Shown.{Answers, Gives};

use crate::fault::VerifyFault;
use crate::labels::{check_ends, check_labels};
use crate::phis::check_phis;
use crate::registers::check_registers;
use crate::types::check_globals;
use crate::typing::check_types;
use lx_ir::module::{Function, Module};
use lx_ir_uses::blocks_of;
use lx_ir_walks::Blocks;
use std::alloc::Global;

/// The first four passes over a function.
#[tactic(auto, using(crate::proofs::Passes::first_answer))]
fn check_earlier(alloc: Global, m: &Module, f: &Function) -> Result<(), VerifyFault>
    ensures { Gives (earlier_fault m.now f.now) result }
{
    let blocks = blocks_of(f);
    check_ends(alloc, f, blocks)?;
    let names = Blocks::of(alloc, f)?;
    check_labels(alloc, &names, blocks)?;
    check_types(alloc, m, f)?;
    check_phis(alloc, &names)?;
    Ok(())
}

/// Finds the first fault of a function.
#[tactic(auto, using(crate::proofs::Orders::earlier))]
fn check_function(alloc: Global, m: &Module, f: &Function) -> Result<(), VerifyFault>
    ensures { Answers (FunctionFault m.now f.now) result }
{
    check_earlier(alloc, m, f)?;
    check_registers(alloc, f)?;
    Ok(())
}

fn check_functions(alloc: Global, m: &Module) -> Result<(), VerifyFault>
    ensures { Answers (FirstOfFunctions m.now m.now.functions) result }
{
    for f in m.functions.as_slice() {
        check_function(alloc, m, f)?;
    }
    Ok(())
}

/// Finds the first fault of a module: those of globals come first.
#[tactic(auto, using(crate::proofs::Orders::of_global, crate::proofs::Orders::behind_globals))]
pub fn check_module(alloc: Global, m: &Module) -> Result<(), VerifyFault>
    ensures { Answers (FirstFault m.now) result }
{
    check_globals(alloc, m)?;
    check_functions(alloc, m)?;
    Ok(())
}
