//! Faults as they are printed.

ghost use Rattle.std.specs.Prelude.{◌≡◌, ◌++◌, OnOk, IfOk};
ghost use Rattle.lx_files.specs.Lines.{kind_text, number_text, place_text, rule_text, fault_text};

use lx_words::{Memory, Name, put_decimal};
use std::alloc::Global;
use thiserror::Error;

/// What met a fault: the reader of a text, a check of what was read, or the limit on a file's bytes.
#[derive(Clone, Copy, Debug)]
pub enum FaultKind {
    Case,
    Ir,
    Interface,
    Cproto,
    Verify,
    Propagate,
    Link,
    Schedule,
    Image,
    Limit,
}

/// A fault of the input: the file, the line in it, counted from 1, the fault's number among those of its kind, and the
/// words that name it.
#[derive(Debug, Drop, Error)]
#[error("{file}, line {line}: {} fault {number}, `{what}`", kind_name(*.kind))]
pub struct FaultLine {
    pub file: Name,
    pub line: u32,
    pub kind: FaultKind,
    pub number: u32,
    pub what: Name,
}

fn kind_name(kind: FaultKind) -> &'static str
    ensures { result.now ≡ kind_text kind }
{
    match kind {
        FaultKind::Case => "case",
        FaultKind::Ir => "ir",
        FaultKind::Interface => "interface",
        FaultKind::Cproto => "cproto",
        FaultKind::Verify => "verify",
        FaultKind::Propagate => "propagate",
        FaultKind::Link => "link",
        FaultKind::Schedule => "schedule",
        FaultKind::Image => "image",
        FaultKind::Limit => "limit",
    }
}

fn put(out: &mut Vec<u8>, text: &str) -> Result<(), Memory>
    ensures { OnOk result (out.new.items ≡ out.old.items ++ text.now) }
{
    out.extend_from_slice(text.as_bytes())?;
    Ok(())
}

#[tactic(auto, unfolding(crate::specs::Lines::number_text))]
fn put_number(out: &mut Vec<u8>, n: u32) -> Result<(), Memory>
    ensures { OnOk result (out.new.items ≡ out.old.items ++ number_text n) }
{
    put_decimal(out, i128::from(n))
}

fn put_place(out: &mut Vec<u8>, file: &[u8], line: u32) -> Result<(), Memory>
    ensures { OnOk result (out.new.items ≡ out.old.items ++ place_text file.now line) }
{
    out.extend_from_slice(file)?;
    put(out, ":")?;
    put_number(out, line)?;
    put(out, ": ")
}

fn put_rule(out: &mut Vec<u8>, kind: FaultKind, number: u32) -> Result<(), Memory>
    ensures { OnOk result (out.new.items ≡ out.old.items ++ rule_text kind number) }
{
    put(out, kind_name(kind))?;
    put(out, " ")?;
    put_number(out, number)?;
    put(out, " ")
}

/// The line of a fault as it is printed, `FILE:LINE: KIND N WHAT`, with its line feed.
pub fn fault_text(alloc: Global, fault: &FaultLine) -> Result<Name, Memory>
    ensures { IfOk result (λ text. text ≡ fault_text fault.now) }
{
    let mut out = Vec::new(alloc);
    put_place(&mut out, fault.file.as_slice(), fault.line)?;
    put_rule(&mut out, fault.kind, fault.number)?;
    out.extend_from_slice(fault.what.as_slice())?;
    put(&mut out, "\n")?;
    Ok(Name::from_vec(out))
}
