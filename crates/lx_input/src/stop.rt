//! Faults that the checks find, as ends of the input.

ghost use Rattle.std.specs.Prelude.{◌≡◌, ◌++◌, IfOk, Some, codes};
ghost use Rattle.lx_files.specs.Faults.{IsTold, fault_at};
ghost use Rattle.lx_files.specs.declared.line.FaultKind.TheVariants as kinds;
ghost use Rattle.lx_input.specs.Lines.{link_answer, named_or, propagate_answer, verify_answer};

use lx_files::{FaultKind, InputStop, fault_at};
use lx_ir_verify::VerifyFault;
use lx_link::LinkFault;
use lx_propagate::PropagateFault;
use lx_words::{Memory, Name};
use std::alloc::Global;

/// The end of the input by the fault of a module of this file.
pub fn verify_stop(alloc: Global, file: &[u8], fault: VerifyFault) -> InputStop
    ensures { IsTold (verify_answer file.now fault) result }
{
    let kind = FaultKind::Verify;
    match fault {
        VerifyFault::Memory => InputStop::Memory,
        VerifyFault::TypeDiffers { line, what } => fault_at(alloc, file, kind, 1, line, what),
        VerifyFault::NoSuchLabel { line, what } => fault_at(alloc, file, kind, 2, line, what),
        VerifyFault::NotAssigned { line, what } => fault_at(alloc, file, kind, 3, line, what),
        VerifyFault::PhiEdges { line, what } => fault_at(alloc, file, kind, 4, line, what),
        VerifyFault::NoTerminator { line, what } => fault_at(alloc, file, kind, 5, line, what),
    }
}

/// `@FUNCTION FIRST SECOND`.
fn conflict_text(
    alloc: Global,
    function: &[u8],
    first: &[u8],
    second: &[u8],
) -> Result<Name, Memory>
    ensures { IfOk result (λ text. text ≡ codes "@" ++ function.now ++ codes " " ++ first.now ++ codes " " ++ second.now) }
{
    let mut text = Vec::from_slice(alloc, b"@")?;
    text.extend_from_slice(function)?;
    text.extend_from_slice(b" ")?;
    text.extend_from_slice(first)?;
    text.extend_from_slice(b" ")?;
    text.extend_from_slice(second)?;
    Ok(Name::from_vec(text))
}

/// The end of the input by a function of a module of this file that gets two slot types.
pub fn propagate_stop(alloc: Global, file: &[u8], fault: PropagateFault) -> InputStop
    ensures { IsTold (propagate_answer file.now fault) result }
{
    match fault {
        PropagateFault::Memory => InputStop::Memory,
        PropagateFault::Conflict {
            line,
            function,
            first,
            second,
        } => match conflict_text(
            alloc,
            function.as_slice(),
            first.as_slice(),
            second.as_slice(),
        ) {
            Ok(what) => fault_at(alloc, file, FaultKind::Propagate, 1, line, what),
            Err(_) => InputStop::Memory,
        },
    }
}

/// The name of a file, or that of the case where there is none.
fn named_or<'a>(case: &'a [u8], file: &'a [u8]) -> &'a [u8]
    ensures { result.now ≡ named_or case.now file.now }
{
    if file.is_empty() { case } else { file }
}

/// The end of the input by a fault of a kind of its own.
fn link_fault_at(
    alloc: Global,
    case: &[u8],
    file: &Name,
    number: u32,
    line: u32,
    what: Name,
) -> InputStop
    ensures { IsTold (Some (fault_at (named_or case.now file.now) kinds.Link number line what)) result }
{
    fault_at(
        alloc,
        named_or(case, file.as_slice()),
        FaultKind::Link,
        number,
        line,
        what,
    )
}

/// The end of the input by what does not link; `case` is the name of the case.
pub fn link_stop(alloc: Global, case: &[u8], fault: LinkFault) -> InputStop
    ensures { IsTold (link_answer case.now fault) result }
{
    match fault {
        LinkFault::Memory => InputStop::Memory,
        LinkFault::Missing { file, line, what } => {
            link_fault_at(alloc, case, &file, 1, line, what)
        }
        LinkFault::Unannotated { file, line, what } => {
            link_fault_at(alloc, case, &file, 2, line, what)
        }
        LinkFault::SignatureDiffers { file, line, what } => {
            link_fault_at(alloc, case, &file, 3, line, what)
        }
        LinkFault::TooLarge { file, line, what } => {
            link_fault_at(alloc, case, &file, 4, line, what)
        }
        LinkFault::KernelIndirect { file, line, what } => {
            link_fault_at(alloc, case, &file, 5, line, what)
        }
    }
}
