//! What the names of a program's texts name in the program.
ghost use Rattle.std.specs.Prelude.{◌≡◌, ◌≤◌, Some, length, option_and_then, option_copied, option_map, position, unwrap_or};
ghost use Rattle.lx_model.specs.Program.{empty_module, global_address, module_of, number_of};
ghost use Rattle.lx_name_tables.specs.Places.{defines, is_global};

use crate::keys::{Key, address_of, addresses_of, number_of, numbers_of};
use crate::modules::names_of;
use crate::texts::TextNames;
use indexmap::IndexMap;
use lx_ir::module::Module;
use lx_model::program::Program;
use lx_words::Items;
use std::alloc::Global;
use std::marker::Model;

/// A program, and tables of what the names of its texts name. Contracts see the program.
#[derive(Drop)]
pub struct ProgramNames<'a> {
    program: &'a Program,
    kernel: TextNames<'a>,
    modules: Items<TextNames<'a>>,
    numbers: Option<IndexMap<Key, u32>>,
    addresses: Option<IndexMap<Key, u64>>,
}

impl<'a> Model for ProgramNames<'a> {
    ghost use Rattle.std.specs.Prelude.{◌≡◌, ◌≤◌, IfSome, length};
    ghost use Rattle.lx_model.specs.declared.program.Program.{Program as Meaning};
    ghost use Rattle.lx_model.specs.contracts.program.Program as program_row;
    ghost use Rattle.lx_name_tables.specs.Keys.{HasAddresses, HasNumbers};
    ghost use Rattle.lx_name_tables.specs.Texts.{AreTextsOf};

    ghost Value = { Meaning };

    ghost coded = { program_row.the_row.coded };

    ghost view = { λ n. n.program.now };

    ghost invariant = { λ n. (n.kernel ≡ n.program.now.kernel) × AreTextsOf n.program.now.modules n.modules × (length n.program.now.functions ≤ 4294967296) × IfSome n.numbers (λ numbers. HasNumbers n.program.now.functions numbers.entries) × IfSome n.addresses (λ addresses. HasAddresses n.program.now.globals addresses.entries) };
}

/// The text of a module, if there is one with this number.
fn module_text(program: &Program, number: u32) -> Option<&Module>
    ensures { unwrap_or (option_copied result) empty_module ≡ module_of program.now (Some number) }
{
    match program.modules.items.get(number as usize) {
        Some(entry) => Some(&entry.module),
        None => None,
    }
}

/// The number of the function of that name that a module defines, by a search of its functions.
fn searched_function(program: &Program, number: u32, name: &[u8]) -> Option<usize>
    ensures { result ≡ position (defines name.now) (module_of program.now (Some number)).functions }
{
    match module_text(program, number) {
        Some(text) => TextNames::without_tables(text).defined_place(name),
        None => None,
    }
}

/// The number of the global of that name of a module, by a search of its globals.
fn searched_global(program: &Program, number: u32, name: &[u8]) -> Option<usize>
    ensures { result ≡ position (is_global name.now) (module_of program.now (Some number)).globals }
{
    match module_text(program, number) {
        Some(text) => TextNames::without_tables(text).global_place(name),
        None => None,
    }
}

impl<'a> ProgramNames<'a> {
    /// The names of a program that has at most 2^32 functions.
    pub fn new(alloc: Global, program: &'a Program) -> Self
        requires { length program.now.functions ≤ 4294967296 }
        ensures { result ≡ program.now }
    {
        ProgramNames {
            program,
            kernel: TextNames::new(alloc, &program.kernel),
            modules: names_of(alloc, program.modules.as_slice()),
            numbers: numbers_of(alloc, program.functions.as_slice()),
            addresses: addresses_of(alloc, program.globals.as_slice()),
        }
    }

    /// The program.
    pub fn program(&self) -> &'a Program
        ensures { result.now ≡ self.now }
    {
        self.program
    }

    /// The number, in its text, of the function of that name that the text defines.
    fn function_place(&self, home: Option<u32>, name: &[u8]) -> Option<usize>
        ensures { result ≡ position (defines name.now) (module_of self.now home).functions }
    {
        match home {
            None => self.kernel.defined_place(name),
            Some(number) => match self.modules.as_slice().get(number as usize) {
                Some(names) => names.defined_place(name),
                None => searched_function(self.program, number, name),
            },
        }
    }

    /// The number in the program of a function that a text defines.
    fn number_of(&self, home: Option<u32>, function: usize) -> Option<u32>
        ensures { result ≡ number_of self.now home function }
    {
        number_of(
            self.program.functions.as_slice(),
            &self.numbers,
            home,
            function,
        )
    }

    /// The number in the program of the function of that name that a text defines.
    pub fn function_named(&self, home: Option<u32>, name: &[u8]) -> Option<u32>
        ensures { result ≡ option_and_then (number_of self.now home) (position (defines name.now) (module_of self.now home).functions) }
    {
        match self.function_place(home, name) {
            None => None,
            Some(place) => self.number_of(home, place),
        }
    }

    /// The number, in its text, of the global of that name.
    fn global_place(&self, home: Option<u32>, name: &[u8]) -> Option<usize>
        ensures { result ≡ position (is_global name.now) (module_of self.now home).globals }
    {
        match home {
            None => self.kernel.global_place(name),
            Some(number) => match self.modules.as_slice().get(number as usize) {
                Some(names) => names.global_place(name),
                None => searched_global(self.program, number, name),
            },
        }
    }

    /// The address of a global; 0, where there is none.
    fn global_address(&self, home: Option<u32>, number: usize) -> u64
        ensures { result ≡ global_address self.now home number }
    {
        match address_of(
            self.program.globals.as_slice(),
            &self.addresses,
            home,
            number,
        ) {
            Some(address) => address,
            None => 0,
        }
    }

    /// The address of the global of that name.
    pub fn global_named(&self, home: Option<u32>, name: &[u8]) -> Option<u64>
        ensures { result ≡ option_map (global_address self.now home) (position (is_global name.now) (module_of self.now home).globals) }
    {
        match self.global_place(home, name) {
            None => None,
            Some(place) => Some(self.global_address(home, place)),
        }
    }
}
