//! Inputs, and whether each comes to what is wanted.

use crate::shelves::{Files, put_files};
use lx_input::{Asked, FaultLine, Input, InputStop, fault_text, read_input, read_sources};
use lx_outside::MemShelf;
use lx_words::Name;
use std::alloc::Global;
use std::process::Abort;
use std::test::Fail;

/// What is wanted of an input. What is told is its first fault as it is printed, or the file that is not read, or nothing.
#[derive(Clone, Copy)]
pub enum Wanted {
    /// What is told of the files alone.
    Read(&'static str),
    /// The same where a schedule is asked for.
    Scheduled(&'static str),
    /// What is told of all that is checked and linked.
    Linked(&'static str),
    /// One module, one thread, and a schedule.
    Whole,
    /// The functions that every program has, and nothing else.
    Natives,
    /// The slot type of function 0 of the one module, and of no other function.
    Slot(u32),
}

/// The files of an input, and what is wanted of it.
pub struct Row(pub Files, pub Wanted);

/// What is told; of an input without faults it is nothing.
fn told(wanted: Wanted) -> &'static str {
    match wanted {
        Wanted::Read(text) | Wanted::Scheduled(text) | Wanted::Linked(text) => text,
        _ => "",
    }
}

fn schedule_of(wanted: Wanted) -> Option<&'static str> {
    match wanted {
        Wanted::Scheduled(_) | Wanted::Whole => Some("two.txt"),
        _ => None,
    }
}

/// Asks for a schedule, if for anything.
fn asked(schedule: Option<&str>) -> Asked<'_> {
    Asked {
        module: None,
        schedule,
        image: None,
    }
}

fn is_fault(alloc: Global, fault: &FaultLine, told: &str) -> bool {
    match fault_text(alloc, fault) {
        Ok(text) => {
            let is = text.is_same(told.as_bytes());
            drop(text);
            is
        }
        Err(_) => false,
    }
}

fn is_unread(file: &Name, told: &str) -> bool {
    match told.strip_prefix("cannot read ") {
        Some(name) => file.is_same(name.as_bytes()),
        None => false,
    }
}

/// Whether this is told where an input ends.
fn is_stop(alloc: Global, stop: &InputStop, told: &str) -> bool {
    match stop {
        InputStop::Fault(fault) => is_fault(alloc, fault, told),
        InputStop::Unread(file) => is_unread(file, told),
        InputStop::Memory => false,
    }
}

/// Whether one function of the one module has a slot type, and it is function 0 with this one.
fn is_alone_with(input: &Input, slot: u32) -> bool {
    match input.annotated.as_slice() {
        [marks] => match marks.as_slice() {
            [mark] => mark.function == 0 && mark.slot == slot,
            _ => false,
        },
        _ => false,
    }
}

fn is_whole(input: &Input) -> bool {
    input.program.modules.len() == 1
        && input.script.len() == 1
        && input.annotated.len() == 1
        && input.besides.schedule.is_some()
}

fn is_wanted(input: &Input, wanted: Wanted) -> bool {
    match wanted {
        Wanted::Whole => is_whole(input),
        Wanted::Natives => {
            input.program.functions.len() == 6 && input.program.globals.is_empty()
        }
        Wanted::Slot(slot) => is_alone_with(input, slot),
        _ => told(wanted).is_empty(),
    }
}

/// Whether an input comes to what is wanted of all that is checked and linked.
fn is_linked(alloc: Global, shelf: &mut MemShelf, wanted: Wanted) -> bool {
    match read_input(alloc, shelf, "one.case", asked(schedule_of(wanted))) {
        Ok(input) => {
            let is = is_wanted(&input, wanted);
            drop(input);
            is
        }
        Err(stop) => {
            let is = is_stop(alloc, &stop, told(wanted));
            drop(stop);
            is
        }
    }
}

/// Whether this is told of the files alone.
fn is_read(alloc: Global, shelf: &mut MemShelf, wanted: Wanted) -> bool {
    match read_sources(alloc, shelf, "one.case", asked(schedule_of(wanted))) {
        Ok(sources) => {
            drop(sources);
            told(wanted).is_empty()
        }
        Err(stop) => {
            let is = is_stop(alloc, &stop, told(wanted));
            drop(stop);
            is
        }
    }
}

fn is_so(alloc: Global, shelf: &mut MemShelf, wanted: Wanted) -> bool {
    match wanted {
        Wanted::Read(_) | Wanted::Scheduled(_) => is_read(alloc, shelf, wanted),
        _ => is_linked(alloc, shelf, wanted),
    }
}

fn is_row_on(alloc: Global, shelf: &mut MemShelf, row: &Row) -> Result<bool, Fail> {
    put_files(alloc, shelf, &row.0)?;
    Ok(is_so(alloc, shelf, row.1))
}

/// Whether the input of a row comes to what is wanted.
fn is_row(alloc: Global, row: &Row) -> Result<bool, Fail> {
    let mut shelf = MemShelf::new(alloc, Vec::new(alloc));
    let is = is_row_on(alloc, &mut shelf, row);
    drop(shelf);
    is
}

/// Each input comes to what is wanted.
pub fn assert_rows(rt: &impl Abort, alloc: Global, rows: &[Row]) -> Result<(), Fail> {
    for (number, row) in rows.iter().enumerate() {
        assert!(rt; is_row(alloc, row)?, "row {number}");
    }
    Ok(())
}
