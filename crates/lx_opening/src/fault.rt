//! Why a world was not opened.
use lx_words::Memory;
use thiserror::Error;

/// Why a world was not opened.
#[derive(Clone, Copy, Debug, Error)]
pub enum OpenFault {
    /// The image of a module is that of another text. It is the first such module.
    #[error("the image of module {module} is not that of its text")]
    ImageDiffers { module: u32 },
    /// There was not enough memory.
    #[error("out of memory")]
    Memory,
}

impl From<Memory> for OpenFault {
    ghost use Rattle.std.specs.Prelude.{◌≡◌};
    ghost use Rattle.lx_opening.specs.declared.fault.OpenFault.TheVariants.{Memory};

    ghost from_gives = { λ _ e. e ≡ Memory };

    fn from(_: Memory) -> Self {
        OpenFault::Memory
    }
}
