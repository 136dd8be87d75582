//! Why a program and images do not run.
use thiserror::Error;

/// Why a program and images do not run.
#[derive(Clone, Copy, Debug, PartialEq, Eq, Error)]
pub enum CodeFault {
    /// A function of a module's image is named as a wrapper and has not the form of one. It is the first such function.
    #[error("function {function} of the image of module {module} is not a wrapper")]
    Wrapper { module: u32, function: u32 },
    /// There was not enough memory.
    #[error("out of memory")]
    Memory,
}
