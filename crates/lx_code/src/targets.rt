//! What called names name, looked up by name.
ghost use Rattle.std.specs.Prelude.{◌≡◌, ℕ, false, ◌++◌, None, Some, List, bytes_eq, MatchOption, IfOk};
ghost use Rattle.lx_code.specs.Reach.{IsWithinReach};
ghost use Rattle.lx_code.specs.Targets.{target_of};
ghost use Rattle.lx_model.specs.Program.{number_of, kernel_function, native_named, slot_named, target_of as target_in, import, own};

use crate::places::{Key, defined_in, numbers_of, slots_in};
use indexmap::IndexMap;
use lx_ir::module::Function;
use lx_model::program::Program;
use lx_words::Memory;
use std::alloc::Global;
use std::marker::Model;

/// What a called name names: a native, a slot of a slot type, a function of the kernel, one of the same text, or
/// nothing.
#[derive(Clone, Copy)]
pub enum Target {
    Native(u32),
    Slot(u32),
    Import(u32),
    Own(u32),
    Nowhere,
}

fn is_same(a: &[u8], b: &[u8]) -> bool
    ensures { result ≡ bytes_eq a.now b.now }
{
    a == b
}

// What stands in a name behind a text, if the name begins with that text.
#[tactic(auto, using(lx_words::proofs::Lists::longer_name))]
fn behind<'a>(front: &[u8], name: &'a [u8]) -> Option<&'a [u8]>
    ensures { MatchOption result ((back : List ℕ) → bytes_eq (front.now ++ back) name.now ≡ false) (λ rest. (back : List ℕ) → bytes_eq (front.now ++ back) name.now ≡ bytes_eq back rest.now) }
{
    if name.len() < front.len() {
        return None;
    }
    let (first, rest) = name.split_at(front.len());
    if is_same(front, first) {
        Some(rest)
    } else {
        None
    }
}

// The native with this name.
fn native_named(name: &[u8]) -> Option<u32>
    ensures { result ≡ native_named name.now }
{
    if name == b"k.alloc".as_slice() {
        Some(0)
    } else if name == b"k.free".as_slice() {
        Some(1)
    } else if name == b"k.zero".as_slice() {
        Some(2)
    } else if name == b"k.try_lock".as_slice() {
        Some(3)
    } else if name == b"k.note".as_slice() {
        Some(4)
    } else if name == b"lxfi_princ_alias".as_slice() {
        Some(5)
    } else {
        None
    }
}

/// The program whose names are looked up, and maps of them, so that no name is searched for. Contracts see the program.
#[derive(Drop)]
pub(crate) struct Lookup<'a> {
    program: &'a Program,
    numbers: IndexMap<Key, u32>,
    kernel: IndexMap<&'a [u8], usize>,
    slots: IndexMap<&'a [u8], u32>,
}

impl<'a> Model for Lookup<'a> {
    ghost use Rattle.lx_model.specs.declared.program.Program.{Program as Meaning};
    ghost use Rattle.lx_code.specs.Places.{IsIndexed};
    ghost use Rattle.lx_model.specs.contracts.program.Program as program_row;

    ghost Value = { Meaning };

    ghost coded = { program_row.the_row.coded };

    ghost view = { λ l. l.program.now };

    ghost invariant = { λ l. IsIndexed l.program.now l.numbers.entries l.kernel.entries l.slots.entries };
}

impl<'a> Lookup<'a> {
    /// The maps of a program.
    pub(crate) fn new(alloc: Global, program: &'a Program) -> Result<Self, Memory>
        requires { IsWithinReach program.now }
        ensures { IfOk result (λ lookup. lookup ≡ program.now) }
    {
        let numbers = numbers_of(alloc, program.functions.as_slice())?;
        let kernel = match defined_in(alloc, program.kernel.functions.as_slice()) {
            Ok(kernel) => kernel,
            Err(why) => {
                drop(numbers);
                return Err(why);
            }
        };
        match slots_in(alloc, program.interface.slots.as_slice()) {
            Ok(slots) => Ok(Lookup {
                program,
                numbers,
                kernel,
                slots,
            }),
            Err(why) => {
                drop(kernel);
                drop(numbers);
                Err(why)
            }
        }
    }

    /// The program.
    pub(crate) fn program(&self) -> &'a Program
        ensures { result.now ≡ self.now }
    {
        self.program
    }

    // The number in the program of a function that a text defines.
    fn number_of(&self, home: Option<u32>, function: usize) -> Option<u32>
        ensures { result ≡ number_of self.now home function }
    {
        self.numbers.get(&(home, function)).copied()
    }

    // The number of the kernel's function with this name.
    fn kernel_function(&self, name: &[u8]) -> Option<u32>
        ensures { result ≡ kernel_function self.now name.now }
    {
        match self.kernel.get(name) {
            Some(place) => self.number_of(None, *place),
            None => None,
        }
    }

    // The slot type of the import `k.slot.` with its name.
    fn slot_named(&self, name: &[u8]) -> Option<u32>
        ensures { result ≡ slot_named self.now name.now }
    {
        match behind(b"k.slot.", name) {
            Some(rest) => self.slots.get(rest).copied(),
            None => None,
        }
    }

    // What the import of the kernel names: a native, or a slot.
    fn kernel_import(&self, name: &[u8]) -> Target
        ensures { target_of result ≡ import self.now None name.now }
    {
        if let Some(native) = native_named(name) {
            return Target::Native(native);
        }
        match self.slot_named(name) {
            Some(slot) => Target::Slot(slot),
            None => Target::Nowhere,
        }
    }

    // What the import of a module names: the one native that a module may call, or a function of the kernel.
    fn module_import(&self, name: &[u8]) -> Target
        ensures { (m : ℕ) → target_of result ≡ import self.now (Some m) name.now }
    {
        if name == b"lxfi_princ_alias".as_slice() {
            return Target::Native(5);
        }
        match self.kernel_function(name) {
            Some(number) => Target::Import(number),
            None => Target::Nowhere,
        }
    }

    fn import(&self, home: Option<u32>, name: &[u8]) -> Target
        ensures { target_of result ≡ import self.now home name.now }
    {
        match home {
            None => self.kernel_import(name),
            Some(module_number) => self.module_import(name),
        }
    }

    fn own(&self, home: Option<u32>, function: usize) -> Target
        ensures { target_of result ≡ own (number_of self.now home function) }
    {
        match self.number_of(home, function) {
            Some(number) => Target::Own(number),
            None => Target::Nowhere,
        }
    }

    /// What a function of a text, by its number there, names in that text.
    pub(crate) fn target(&self, home: Option<u32>, number: usize, function: &Function) -> Target
        ensures { target_of result ≡ target_in self.now home number (Some function.now) }
    {
        if function.blocks.is_some() {
            self.own(home, number)
        } else {
            self.import(home, function.name.as_slice())
        }
    }
}
