//! Why texts and a script could not be linked.
use lx_words::{Memory, Name};
use std::alloc::AllocError;
use std::fmt;
use thiserror::Error;

/// Where a fault is, as its text begins: the file, where it has a name, and the line.
#[derive(Clone, Copy)]
struct Place<'a> {
    file: &'a Name,
    line: u32,
}

impl<'a> Place<'a> {
    fn new(file: &'a Name, line: u32) -> Self {
        Place { file, line }
    }
}

impl fmt::Display for Place<'_> {
    fn fmt<W: fmt::Write>(&self, f: &mut fmt::Formatter<W>) -> fmt::Result {
        if !self.file.is_empty() {
            write!(f, "{}, ", self.file)?;
        }
        write!(f, "line {}", self.line)
    }
}

/// The first fault of what is linked: the file and the line, and a name with its `@` or the word for a limit. For a
/// call of the case `file` is empty.
#[derive(Debug, Drop, Error)]
pub enum LinkFault {
    /// Fault 1: a function or global that is not there.
    #[error("{at}: there is no `{what}`", at = Place::new(.file, *.line))]
    Missing { file: Name, line: u32, what: Name },
    /// Fault 2: an import that the interface does not export.
    #[error("{at}: the interface does not export `{what}`", at = Place::new(.file, *.line))]
    Unannotated { file: Name, line: u32, what: Name },
    /// Fault 3: a function whose signature is another than is asked for, or a call whose arguments do not fit.
    #[error("{at}: the signature of `{what}` does not fit", at = Place::new(.file, *.line))]
    SignatureDiffers { file: Name, line: u32, what: Name },
    /// Fault 4: too many functions, or too many bytes of globals; `what` is `functions` or `globals`.
    #[error("{at}: the limit on {what} is passed", at = Place::new(.file, *.line))]
    TooLarge { file: Name, line: u32, what: Name },
    /// Fault 5: a function of the kernel that calls through a register.
    #[error("{at}: `{what}` of the kernel calls through a register", at = Place::new(.file, *.line))]
    KernelIndirect { file: Name, line: u32, what: Name },
    /// There was not enough memory.
    #[error("out of memory")]
    Memory,
}

impl From<Memory> for LinkFault {
    ghost use Rattle.std.specs.Prelude.{◌≡◌};
    ghost use Rattle.lx_link.specs.declared.fault.LinkFault.TheVariants.{Memory as no_memory};

    ghost from_gives = { λ _ e. e ≡ no_memory };

    fn from(_want: Memory) -> Self {
        LinkFault::Memory
    }
}

impl From<AllocError> for LinkFault {
    ghost use Rattle.std.specs.Prelude.{◌≡◌};
    ghost use Rattle.lx_link.specs.declared.fault.LinkFault.TheVariants.{Memory as no_memory};

    ghost from_gives = { λ _ e. e ≡ no_memory };

    fn from(_want: AllocError) -> Self {
        LinkFault::Memory
    }
}
