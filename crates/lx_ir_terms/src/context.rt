//! What names stand for.

ghost use Rattle.std.specs.Prelude.{◌≡◌};
ghost use Rattle.lx_ir_terms.specs.Context.{entry, unless_complete, type_number, symbol_of, register_number, bytes_of};

use lx_ir::module::Symbol;
use lx_ir_offsets::{KnownTypes, Shape};
use lx_ir_tokens::NameTable;
use std::marker::Model;

/// What is kept of a name that names nothing.
const NOTHING: u32 = u32::MAX;

/// What the names of a text stand for: tables by the number of the name.
#[derive(Drop)]
pub struct Context<'a> {
    /// The numbers of the types.
    pub types: &'a [Option<u32>],
    /// The functions and globals.
    pub symbols: &'a [Option<Symbol>],
    /// The registers of the function that is read.
    pub registers: &'a [Option<u32>],
    /// The types, by their numbers, with their layouts.
    pub known: KnownTypes<'a>,
    /// Their shapes, where types have to be within the limits as they are written.
    pub limits: Option<&'a [Shape]>,
    /// The names of the text, and what its byte strings say.
    pub names: &'a NameTable,
    /// Whether the tables hold every type, function and global that the text may name.
    pub complete: bool,
}

impl<'a> Model for Context<'a> {
    ghost use Rattle.std.specs.Prelude.{option_map};
    ghost use Rattle.lx_ir_offsets.specs.Known.{named_in, layouts_in};
    ghost use Rattle.lx_ir_terms.specs.Context.{Context as Meaning};

    ghost Value = { Meaning };

    ghost use Rattle.lx_ir.specs.contracts.types.IrType as ir_type;
    ghost use Rattle.std.specs.Coded.{codes};

    ghost coded = { Prim.hlevel (codes, ir_type.the_row.coded) };

    ghost view = { λ c. record { types = c.types.now; symbols = c.symbols.now; registers = c.registers.now; named = named_in c.known; layouts = layouts_in c.known; limits = option_map (λ s. s.now) c.limits; names = c.names.now; complete = c.complete } };
}

fn entry<T: Copy>(table: &[Option<T>], name: u32) -> Option<T>
    ensures { result ≡ entry table.now name }
{
    table.get(name as usize).copied().flatten()
}

/// What a name stands for, where names that name nothing may stand as `other`.
fn unless_complete<T: Copy>(complete: bool, other: T, known: Option<T>) -> Option<T>
    ensures { result ≡ unless_complete complete other known }
{
    match known {
        Some(x) => Some(x),
        None => { if complete { None } else { Some(other) } }
    }
}

impl<'a> Context<'a> {
    /// The number of the type that a name names; none where it names none in a complete context.
    pub fn type_number(&self, name: u32) -> Option<u32>
        ensures { result ≡ type_number self.now name }
    {
        unless_complete(self.complete, NOTHING, entry(self.types, name))
    }

    /// The function or global that a name names; none where it names none in a complete context.
    pub fn symbol(&self, name: u32) -> Option<Symbol>
        ensures { result ≡ symbol_of self.now name }
    {
        unless_complete(
            self.complete,
            Symbol::Global(NOTHING),
            entry(self.symbols, name),
        )
    }

    /// The number of the register that a name names.
    pub fn register(&self, name: u32) -> u32
        ensures { result ≡ register_number self.now name }
    {
        match entry(self.registers, name) {
            Some(register) => register,
            None => NOTHING,
        }
    }

    /// The bytes that a byte string says.
    pub fn bytes(&self, name: u32) -> &[u8]
        ensures { result.now ≡ bytes_of self.now name }
    {
        if name < self.names.len() {
            self.names.name(name)
        } else {
            &[]
        }
    }
}
