//! The functions of a program by their numbers and their addresses.
ghost use Rattle.std.specs.Prelude.{◌≡◌, ◌≤◌, length, option_copied, slice_get, unwrap_or};
ghost use Rattle.lx_model.specs.Program.{empty_module, function_at, function_of, home_of, is_in, is_module_function, module_of, numbered, same_home};

use lx_ir::module::{Function, Module};
use lx_model::program::{Program, ProgramFunction};

/// Whose text defines the function, if it is one of a text.
pub fn home_of(program: &Program, function: u32) -> Option<Option<u32>>
    ensures { result ≡ home_of program.now function }
{
    match program.functions.items.get(function as usize) {
        Some(ProgramFunction::Of { module, .. }) => Some(*module),
        _ => None,
    }
}

/// Whether two texts are the same; none is the kernel's.
pub fn is_same_home(home: Option<u32>, other: Option<u32>) -> bool
    ensures { result ≡ same_home home other }
{
    match (home, other) {
        (None, None) => true,
        (Some(m), Some(n)) => m == n,
        _ => false,
    }
}

/// Whether the text defines the function.
pub fn is_in(program: &Program, home: Option<u32>, function: u32) -> bool
    ensures { result ≡ is_in program.now home function }
{
    match home_of(program, function) {
        Some(other) => is_same_home(home, other),
        None => false,
    }
}

/// Whether a module defines the function.
pub fn is_module_function(program: &Program, function: u32) -> bool
    ensures { result ≡ is_module_function program.now function }
{
    match home_of(program, function) {
        Some(Some(_)) => true,
        _ => false,
    }
}

fn function_in<'a>(text: &'a Module, number: u32) -> Option<&'a Function>
    ensures { option_copied result ≡ slice_get text.now.functions number }
{
    text.functions.items.get(number as usize)
}

fn module_in(program: &Program, home: Option<u32>) -> Option<&Module>
    ensures { unwrap_or (option_copied result) empty_module ≡ module_of program.now home }
{
    match home {
        None => Some(&program.kernel),
        Some(number) => match program.modules.items.get(number as usize) {
            Some(found) => Some(&found.module),
            None => None,
        },
    }
}

/// The function with this number, if a text defines it.
pub fn function_of(program: &Program, function: u32) -> Option<&Function>
    ensures { option_copied result ≡ function_of program.now function }
{
    match program.functions.items.get(function as usize) {
        Some(ProgramFunction::Of { module, function }) => match module_in(program, *module) {
            Some(text) => function_in(text, *function),
            None => None,
        },
        Some(ProgramFunction::Native(_)) => None,
        None => None,
    }
}

/// The number, if it is that of a function of a text.
fn numbered(program: &Program, number: u64) -> Option<u32>
    requires { length program.now.functions ≤ 0x100000000 }
    ensures { result ≡ numbered program.now number }
{
    match program.functions.items.get(number as usize) {
        Some(ProgramFunction::Of { .. }) => Some(number as u32),
        Some(ProgramFunction::Native(_)) => None,
        None => None,
    }
}

/// The function of a text whose address this is; a native is none. The program has at most 2^32 functions.
pub fn function_at(program: &Program, at: u64) -> Option<u32>
    requires { length program.now.functions ≤ 0x100000000 }
    ensures { result ≡ function_at program.now at }
{
    if at >= 0x10000 && at % 16 == 0 {
        numbered(program, (at - 0x10000) / 16)
    } else {
        None
    }
}
