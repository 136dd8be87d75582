//! Why the input ends.

ghost use Rattle.std.specs.Prelude.{◌≡◌, Some, codes};
ghost use Rattle.lx_files.specs.Faults.{IsTold, fault_at, interface_line, module_line, script_line};
ghost use Rattle.lx_files.specs.declared.stop.InputStop.TheVariants as stops;

use crate::line::{FaultKind, FaultLine};
use lx_annot_read::InterfaceFault;
use lx_ir_read::ReadFault;
use lx_script::CaseFault;
use lx_words::{Memory, Name};
use std::alloc::{AllocError, AllocFailed, Global};
use thiserror::Error;

/// Why not all files of a command were read.
#[derive(Debug, Drop, Error)]
pub enum InputStop {
    /// The shelf did not give this file.
    #[error("the file `{0}` cannot be read")]
    Unread(Name),
    /// The first fault of the input.
    #[error("{0}")]
    Fault(FaultLine),
    /// There is not enough memory to read the files.
    #[error("out of memory")]
    Memory,
}

impl From<AllocError> for InputStop {
    ghost from_gives = { λ _ e. e ≡ stops.Memory };

    fn from(_want: AllocError) -> InputStop {
        InputStop::Memory
    }
}

impl From<Memory> for InputStop {
    ghost from_gives = { λ _ e. e ≡ stops.Memory };

    fn from(_want: Memory) -> InputStop {
        InputStop::Memory
    }
}

impl<T: Drop> From<AllocFailed<T>> for InputStop {
    ghost from_gives = { λ _ e. e ≡ stops.Memory };

    fn from(_want: AllocFailed<T>) -> InputStop {
        InputStop::Memory
    }
}

/// The end of the input by a fault in a line of a file.
pub fn fault_at(
    alloc: Global,
    file: &[u8],
    kind: FaultKind,
    number: u32,
    line: u32,
    what: Name,
) -> InputStop
    ensures { IsTold (Some (fault_at file.now kind number line what)) result }
{
    match Name::from_bytes(alloc, file) {
        Ok(file) => InputStop::Fault(FaultLine {
            file,
            line,
            kind,
            number,
            what,
        }),
        Err(_) => InputStop::Memory,
    }
}

/// The end of the input by the fault of a case or a schedule.
pub fn script_stop(alloc: Global, kind: FaultKind, file: &[u8], fault: CaseFault) -> InputStop
    ensures { IsTold (script_line kind file.now fault) result }
{
    match fault {
        CaseFault::Memory => InputStop::Memory,
        CaseFault::Lexical { line, what } => fault_at(alloc, file, kind, 1, line, what),
        CaseFault::Statement { line, what } => fault_at(alloc, file, kind, 2, line, what),
        CaseFault::Unknown { line, what } => fault_at(alloc, file, kind, 3, line, what),
        CaseFault::Twice { line, what } => fault_at(alloc, file, kind, 4, line, what),
        CaseFault::Range { line, what } => fault_at(alloc, file, kind, 5, line, what),
        CaseFault::Limit { line, what } => fault_at(alloc, file, kind, 6, line, what),
    }
}

/// The end of the input by the fault of a module.
pub fn module_stop(alloc: Global, file: &[u8], fault: ReadFault) -> InputStop
    ensures { IsTold (module_line file.now fault) result }
{
    let kind = FaultKind::Ir;
    match fault {
        ReadFault::Memory => InputStop::Memory,
        ReadFault::Lexical { line, what } => fault_at(alloc, file, kind, 1, line, what),
        ReadFault::Statement { line, what } => fault_at(alloc, file, kind, 2, line, what),
        ReadFault::OutOfProfile { line, what } => fault_at(alloc, file, kind, 3, line, what),
        ReadFault::Twice { line, what } => fault_at(alloc, file, kind, 4, line, what),
        ReadFault::Unknown { line, what } => fault_at(alloc, file, kind, 5, line, what),
    }
}

/// The end of the input by the fault of an interface.
pub fn interface_stop(
    alloc: Global,
    kind: FaultKind,
    file: &[u8],
    fault: InterfaceFault,
) -> InputStop
    ensures { IsTold (interface_line kind file.now fault) result }
{
    match fault {
        InterfaceFault::Memory => InputStop::Memory,
        InterfaceFault::Lexical { line, what } => fault_at(alloc, file, kind, 1, line, what),
        InterfaceFault::Statement { line, what } => fault_at(alloc, file, kind, 2, line, what),
        InterfaceFault::Unknown { line, what } => fault_at(alloc, file, kind, 3, line, what),
        InterfaceFault::Twice { line, what } => fault_at(alloc, file, kind, 4, line, what),
        InterfaceFault::NeedsSize { line, what } => fault_at(alloc, file, kind, 5, line, what),
    }
}
