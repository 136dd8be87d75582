//! Faults of what is linked.
use lx_ir::module::Function;
use std::fmt;
use std::marker::Model;
use thiserror::Error;

/// What kind of fault it is.
#[derive(Clone, Copy, Debug)]
pub enum FaultKind {
    Missing,
    Unannotated,
    SignatureDiffers,
    TooLarge,
    KernelIndirect,
}

/// What the text of a fault says of the name that it has.
fn predicate(kind: FaultKind) -> &'static str {
    match kind {
        FaultKind::Missing => "is not there",
        FaultKind::Unannotated => "is not exported by the interface",
        FaultKind::SignatureDiffers => "has a signature that does not fit",
        FaultKind::TooLarge => "are past their limit",
        FaultKind::KernelIndirect => "calls through a register",
    }
}

/// A name in a text, each byte as the character of its number.
#[derive(Clone, Copy)]
struct Shown<'a>(&'a [u8]);

impl fmt::Display for Shown<'_> {
    fn fmt<W: fmt::Write>(&self, f: &mut fmt::Formatter<W>) -> fmt::Result {
        for byte in self.0 {
            f.write_char(char::from(*byte))?;
        }
        Ok(())
    }
}

/// The text that has a fault: a module by its number.
#[derive(Clone, Copy, Debug)]
pub enum Source {
    Kernel,
    Interface,
    Module(u32),
    Case,
}

/// A fault that was found: the text and the line, and the name of a function or global, or the word for a limit.
#[derive(Debug, Drop, Error)]
#[error("line {line}: `{}` {}", Shown(.name), predicate(*.kind))]
pub struct Found<'a> {
    pub kind: FaultKind,
    pub source: Source,
    pub line: u32,
    pub name: &'a [u8],
}

impl<'a> Model for Found<'a> {
    ghost use Rattle.lx_link_texts.specs.Faults.{Fault as Meaning};

    ghost Value = { Meaning };

    ghost view = { λ f. record { kind = f.kind; source = f.source; line = f.line; name = f.name.now } };
}

impl<'a> Found<'a> {
    ghost use Rattle.std.specs.Prelude.{◌≡◌};
    ghost use Rattle.lx_link_texts.specs.Faults.{fault_of};

    /// A fault of a function, at its line.
    pub fn at(kind: FaultKind, source: Source, function: &'a Function) -> Self
        ensures { result ≡ fault_of kind source function.now }
    {
        Found {
            kind,
            source,
            line: function.line,
            name: function.name.as_slice(),
        }
    }
}
