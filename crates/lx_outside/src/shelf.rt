//! A shelf of files, by name.
ghost use Rattle.std.specs.Prelude.{◌≡◌, ◌∷◌, [], ◌++◌, List, ℕ, Option, Some, IfOk, OnOk, IsErrOf};
ghost use Rattle.lx_outside.specs.declared.file_text.FileText.{FileText};
ghost use Rattle.lx_outside.specs.Files.{file_at};

use lx_words::Memory;
use std::alloc::{AllocError, Global};
use thiserror::Error;

/// Why a read gave no bytes.
#[derive(Clone, Copy, Debug, Error)]
pub enum ShelfFault {
    #[error("the file cannot be read")]
    Failed,
    #[error("out of memory")]
    Memory,
}

impl From<AllocError> for ShelfFault {
    ghost use Rattle.std.specs.Prelude.{◌≡◌};
    ghost use Rattle.lx_outside.specs.declared.shelf.ShelfFault.TheVariants.{Memory};

    ghost from_gives = { λ _ fault. fault ≡ Memory };

    fn from(_: AllocError) -> Self {
        ShelfFault::Memory
    }
}

impl From<Memory> for ShelfFault {
    ghost use Rattle.std.specs.Prelude.{◌≡◌};
    ghost use Rattle.lx_outside.specs.declared.shelf.ShelfFault.TheVariants.{Memory};

    ghost from_gives = { λ _ fault. fault ≡ Memory };

    fn from(_: Memory) -> Self {
        ShelfFault::Memory
    }
}

/// Files that are read by name. The count of its faults is the length of `faults`.
pub trait Shelf {
    /// The files, where the shelf tells them.
    ghost files: { Self → Option (List FileText) };

    /// The names whose reads failed, the oldest first.
    ghost faults: { Self → List (List ℕ) };

    /// Reads a file, whole where the shelf tells it. After `Memory` the shelf has no new fault.
    fn read(&mut self, alloc: Global, name: &str) -> Result<Vec<u8>, ShelfFault>
        ensures files { files self.new ≡ files self.old }
        // A name that a told shelf lacks is never Ok.
        ensures told { IfOk result (λ bytes. (told : List FileText) → files self.old ≡ Some told → file_at told name.now ≡ Some bytes.items) }
        ensures failed { IsErrOf result ShelfFault.Failed → faults self.new ≡ faults self.old ++ name.now ∷ [] }
        ensures ok { OnOk result (faults self.new ≡ faults self.old) }
        ensures memory { IsErrOf result ShelfFault.Memory → faults self.new ≡ faults self.old };
}
