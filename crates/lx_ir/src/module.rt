//! Constants, globals, functions and modules.
use crate::instr::Instr;
use crate::named::NamedTypes;
use crate::types::{IrType, Scalar};
use lx_words::{Items, Name, Names, Width, Word};
use std::marker::Model;

/// The constants whose bytes are all 0, as they are written.
#[derive(Clone, Copy)]
pub enum Blank {
    Undef,
    Poison,
    Zero,
}

/// What a name stands for: the number of a function or of a global of the module.
#[derive(Clone, Copy)]
pub enum Symbol {
    Function(u32),
    Global(u32),
}

/// A constant pointer: `null`, a blank one, a number, or a name with an offset.
#[derive(Clone, Copy)]
pub enum Pointer {
    Null,
    Blank(Blank),
    Number(u64),
    Symbol(Symbol, u64),
}

/// A constant of a register's type, as it is written.
#[derive(Clone, Copy)]
pub enum Constant {
    Number(Word),
    Truth(bool),
    Blank(Blank, Width),
    Pointer(Pointer),
    Cast(Pointer, Width),
}

/// An operand.
#[derive(Clone, Copy)]
pub enum Value {
    Register(u32),
    Constant(Constant),
}

/// How the items of an initialiser stand together.
#[derive(Clone, Copy)]
pub enum Brackets {
    Struct,
    Packed,
    Array,
}

/// An initialiser.
#[cycle(init)]
#[derive(Drop)]
pub struct Init {
    pub node: InitNode,
}

/// The forms of initialisers.
#[cycle(init)]
#[derive(Drop)]
pub enum InitNode {
    Plain(Constant),
    Blank(Blank),
    Bytes(Items<u8>),
    Group(Brackets, Items<IrType>, Vec<Init>),
}

impl Model for Init {
    ghost use Rattle.lx_ir.specs.Init.{Init as Meaning};
    ghost use Rattle.lx_ir.specs.InitCodes.{coded_init};

    ghost Value = { Meaning };

    ghost coded = { coded_init };

    ghost use Rattle.lx_ir.specs.Init.{init_depth};
    ghost use Rattle.lx_ir.specs.InitNodes.{init_of_node};

    ghost view = { λ i. init_of_node i.node };

    ghost size = { init_depth };

    ghost use Rattle.lx_ir.specs.InitFalls.{deep_le-init_depth};

    ghost size_decreases = { λ i h. deep_le-init_depth i.node };
}

/// A global.
pub struct GlobalVar {
    pub name: Name,
    pub constant: bool,
    pub ty: IrType,
    pub init: Init,
    pub line: u32,
}

impl Drop for GlobalVar {
    fn drop(self) {
        let GlobalVar {
            name: _,
            constant: _,
            ty: _,
            init: _,
            line: _,
        } = self;
    }
}

/// A parameter, which is the register of its place.
pub struct Parameter {
    pub name: Name,
    pub ty: Scalar,
}

impl Drop for Parameter {
    fn drop(self) {
        let Parameter { name: _, ty: _ } = self;
    }
}

/// A block: its label, and its instructions.
pub struct Block {
    pub name: Name,
    pub instrs: Items<Instr>,
}

impl Drop for Block {
    fn drop(self) {
        let Block { name: _, instrs: _ } = self;
    }
}

/// A function. Its registers are the parameters, then what the instructions give, in the order of the text,
/// then those that are read and that no instruction gives, in the order in which they are first read; `locals`
/// names those behind the parameters. An import has no blocks and keeps no names.
pub struct Function {
    pub name: Name,
    pub params: Items<Parameter>,
    pub locals: Names,
    pub ret: Option<Scalar>,
    pub blocks: Option<Items<Block>>,
    pub line: u32,
}

impl Drop for Function {
    fn drop(self) {
        let Function {
            name: _,
            params: _,
            locals: _,
            ret: _,
            blocks: _,
            line: _,
        } = self;
    }
}

/// A module: its functions are the imports and then those that it defines.
pub struct Module {
    pub types: NamedTypes,
    pub globals: Items<GlobalVar>,
    pub functions: Items<Function>,
}

impl Drop for Module {
    fn drop(self) {
        let Module {
            types: _,
            globals: _,
            functions: _,
        } = self;
    }
}
