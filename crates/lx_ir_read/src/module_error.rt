//! Why tokens are no module.

ghost use Rattle.std.specs.Prelude.{◌≡◌};
ghost use Rattle.lx_ir_read.specs.declared.module_error.ModuleError.TheVariants as errors;

use crate::TextFault;
use lx_words::Memory;

/// Why tokens are no module.
#[derive(Drop)]
pub enum ModuleError {
    Memory,
    Fault(TextFault),
}

impl From<Memory> for ModuleError {
    ghost from_gives = { λ _ e. e ≡ errors.Memory };

    fn from(_want: Memory) -> ModuleError {
        ModuleError::Memory
    }
}
