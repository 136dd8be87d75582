//! What is wrong with a module.
ghost use Rattle.std.specs.Prelude.{◌≡◌, ◌++◌, IfOk};

use lx_words::{Memory, Name};
use std::alloc::{AllocError, Global};
use thiserror::Error;

/// The first fault of a module: its line, and a name or a word. A register has its `%` and a global its `@`
/// before its name; a block and a label have none.
#[derive(Debug, Drop, Error)]
pub enum VerifyFault {
    /// Fault 1, with the name of a global whose initialiser is of another type, or with the first word of an
    /// instruction whose operand, argument or result is of another type than its form or the called function asks.
    #[error("line {line}: the types of `{what}` do not match")]
    TypeDiffers { line: u32, what: Name },
    /// Fault 2, with a label that the function lacks.
    #[error("line {line}: the function has no block `{what}`")]
    NoSuchLabel { line: u32, what: Name },
    /// Fault 3, with a register that is read on some walk from the start that did not assign it.
    #[error("line {line}: `{what}` may be read before it is assigned")]
    NotAssigned { line: u32, what: Name },
    /// Fault 4, with the register of a phi whose labels are not the block's predecessors, or that stands in the
    /// first block or behind another kind of instruction.
    #[error("line {line}: the phi `{what}` is out of place, or its labels are not its block's predecessors")]
    PhiEdges { line: u32, what: Name },
    /// Fault 5, with the name of a block that ends without a terminator.
    #[error("line {line}: the block `{what}` ends without a terminator")]
    NoTerminator { line: u32, what: Name },
    /// There was not enough memory.
    #[error("out of memory")]
    Memory,
}

impl From<Memory> for VerifyFault {
    ghost use Rattle.std.specs.Prelude.{◌≡◌};
    ghost use Rattle.lx_ir_verify.specs.declared.fault.VerifyFault.TheVariants.{Memory as no_memory};

    ghost from_gives = { λ _ e. e ≡ no_memory };

    fn from(_want: Memory) -> Self {
        VerifyFault::Memory
    }
}

impl From<AllocError> for VerifyFault {
    ghost use Rattle.std.specs.Prelude.{◌≡◌};
    ghost use Rattle.lx_ir_verify.specs.declared.fault.VerifyFault.TheVariants.{Memory as no_memory};

    ghost from_gives = { λ _ e. e ≡ no_memory };

    fn from(_want: AllocError) -> Self {
        VerifyFault::Memory
    }
}

/// A name behind a mark.
pub fn marked(alloc: Global, mark: &[u8], name: &[u8]) -> Result<Name, Memory>
    ensures { IfOk result (λ marked. marked ≡ mark.now ++ name.now) }
{
    let mut bytes = Vec::from_slice(alloc, mark)?;
    bytes.extend_from_slice(name)?;
    Ok(Name::from_vec(bytes))
}
