//! Verified modules.
ghost use Rattle.std.specs.Prelude.{◌≡◌, IfOk};
ghost use Rattle.lx_ir.specs.Lawful.{IsLawful};
ghost use Rattle.lx_ir.specs.Faults.{FirstFault};
ghost use Rattle.lx_ir_verify.specs.Shown.{Answers};

use crate::fault::VerifyFault;
use crate::order::check_module;
use lx_ir::module::Module;
use std::alloc::Global;
use std::marker::Model;

/// A lawful module without a fault. Contracts see the module.
pub struct Verified {
    module: Module,
}

impl Drop for Verified {
    fn drop(self) {
        let Verified { module: _ } = self;
    }
}

impl Model for Verified {
    ghost use Rattle.lx_ir.specs.declared.module.Module.{Module as Meaning};
    ghost use Rattle.lx_ir.specs.Verified.{IsVerified};
    ghost use Rattle.lx_ir.specs.contracts.module.Module as module_row;

    ghost Value = { Meaning };

    ghost coded = { module_row.the_row.coded };

    ghost view = { λ v. v.module };

    ghost invariant = { λ v. IsVerified v.module };
}

impl Verified {
    ghost use Rattle.lx_ir.specs.Verified.{IsVerified};

    /// A module that is known to be verified. Nothing is looked at: the caller owes a proof that the module is lawful and that none
    /// of the five faults stands in it. Who has no such proof calls [`verify`].
    pub fn proved(m: Module) -> Verified
        requires { IsVerified m }
        ensures { result ≡ m }
    {
        Verified { module: m }
    }

    /// The module, which is verified.
    pub fn module(&self) -> &Module
        ensures whole { result.now ≡ self.now }
        ensures verified { IsVerified self.now }
    {
        &self.module
    }

    /// The module by value, which is verified.
    pub fn into_module(self) -> Module
        ensures whole { result ≡ self }
        ensures verified { IsVerified result }
    {
        let Verified { module } = self;
        module
    }
}

/// Verifies a lawful module.
///
/// # Errors
/// The first fault: that of the first global whose initialiser is of another type; else, in the first function
/// that has a fault, the first of the passes 5, 2, 1, 4 and 3 that finds one, and its first instruction there.
/// `Memory` where there was not enough.
pub fn verify(alloc: Global, m: Module) -> Result<Verified, VerifyFault>
    requires { IsLawful m }
    ensures whole { IfOk result (λ v. v ≡ m) }
    ensures first { Answers (FirstFault m) result }
{
    check_module(alloc, &m)?;
    Ok(Verified { module: m })
}
