//! Texts are read, and what verifying the modules that they say finds is compared.

use crate::verified_rows::{ROWS, Row, SAYINGS, Wanted};
use lx_example_texts::{checksum_text, driver_text, kernel_text, ring_text};
use lx_ir::module::Module;
use lx_ir_lawful::whole_laws;
use lx_ir_read::{ReadFault, TextForm, read_module};
use lx_ir_verify::{Verified, VerifyFault, verify};
use std::alloc::Global;
use std::process::Abort;

/// What verifying the module of a text finds.
fn found(alloc: Global, text: &str) -> Result<Result<Verified, VerifyFault>, ReadFault> {
    let bytes = text.as_bytes();
    if bytes.len() > 20000 {
        return Err(ReadFault::Memory);
    }
    whole_laws();
    let module = read_module(alloc, TextForm::Program, bytes)?;
    Ok(verify(alloc, module))
}

fn is_fault(fault: &VerifyFault, number: u8, line: u32, what: &[u8]) -> bool {
    let (found, at, words) = match fault {
        VerifyFault::Memory => return false,
        VerifyFault::TypeDiffers { line, what } => (1, *line, what),
        VerifyFault::NoSuchLabel { line, what } => (2, *line, what),
        VerifyFault::NotAssigned { line, what } => (3, *line, what),
        VerifyFault::PhiEdges { line, what } => (4, *line, what),
        VerifyFault::NoTerminator { line, what } => (5, *line, what),
    };
    found == number && at == line && words.is_same(what)
}

fn says(alloc: Global, fault: &VerifyFault, wanted: &str) -> bool {
    match format!(in alloc; "{fault}") {
        Ok(text) => text.as_str() == wanted,
        Err(_) => false,
    }
}

fn fault_is(alloc: Global, fault: &VerifyFault, wanted: Wanted) -> bool {
    match wanted {
        Wanted::Fault(number, line, what) => is_fault(fault, number, line, what.as_bytes()),
        Wanted::Says(text) => says(alloc, fault, text),
        _ => false,
    }
}

/// Whether a module's first function has two parameters of these names.
fn has_parameters(module: &Module, first: &str, second: &str) -> bool {
    let Some(function) = module.functions.as_slice().first() else {
        return false;
    };
    match function.params.as_slice() {
        [one, two] => one.name.is_same(first.as_bytes()) && two.name.is_same(second.as_bytes()),
        _ => false,
    }
}

fn module_is(module: &Module, wanted: Wanted) -> bool {
    match wanted {
        Wanted::Nothing(functions) => module.functions.len() == functions,
        Wanted::Parameters(first, second) => has_parameters(module, first, second),
        _ => false,
    }
}

/// Whether what was found is wanted.
fn is_wanted(alloc: Global, found: Result<Verified, VerifyFault>, wanted: Wanted) -> bool {
    match found {
        Ok(verified) => {
            let is_wanted = module_is(verified.module(), wanted);
            drop(verified);
            is_wanted
        }
        Err(fault) => {
            let is_wanted = fault_is(alloc, &fault, wanted);
            drop(fault);
            is_wanted
        }
    }
}

/// Whether verifying the module of a text finds what is wanted.
fn is_so(alloc: Global, text: &str, wanted: Wanted) -> bool {
    match found(alloc, text) {
        Ok(found) => is_wanted(alloc, found, wanted),
        Err(fault) => {
            drop(fault);
            false
        }
    }
}

fn assert_found(rt: &impl Abort, alloc: Global, rows: &[Row]) {
    for row in rows {
        let name = row.name;
        assert!(rt; is_so(alloc, row.text, row.wanted), "{name}");
    }
}

/// What clang printed for the C files, and the driver's kernel, each with as many functions as it has.
#[test]
fn what_clang_prints_is_verified(rt: HostRuntime) {
    let alloc = rt.alloc();
    assert!(rt; is_so(alloc, ring_text(), Wanted::Nothing(4)));
    assert!(rt; is_so(alloc, checksum_text(), Wanted::Nothing(3)));
    assert!(rt; is_so(alloc, driver_text(), Wanted::Nothing(7)));
    assert!(rt; is_so(alloc, kernel_text(), Wanted::Nothing(14)));
}

#[test]
fn modules_are_verified_or_their_first_fault_is_told(rt: HostRuntime) {
    assert_found(&rt, rt.alloc(), &ROWS);
}

#[test]
fn a_fault_says_what_is_wrong(rt: HostRuntime) {
    assert_found(&rt, rt.alloc(), &SAYINGS);
}
