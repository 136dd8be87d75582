//! Instructions.
ghost use Rattle.std.specs.Prelude.{◌≡◌};
ghost use Rattle.lx_ir.specs.Text.{conversion_word, unary_word};

use crate::module::{Symbol, Value};
use crate::types::{IrType, Scalar};
use lx_words::{BinOp, Items, Name, Pred};

/// An operator on one word.
#[derive(Clone, Copy)]
pub enum UnaryOp {
    /// The word itself.
    Freeze,
}

/// What a conversion does to a word.
#[derive(Clone, Copy)]
pub enum Conversion {
    Trunc,
    ZExt,
    SExt,
    PtrToInt,
    IntToPtr,
}

impl UnaryOp {
    /// The word of the instruction.
    pub fn word(self) -> &'static [u8]
        ensures { result.now ≡ unary_word self }
    {
        match self {
            UnaryOp::Freeze => b"freeze",
        }
    }
}

impl Conversion {
    /// The word of the instruction.
    pub fn word(self) -> &'static [u8]
        ensures { result.now ≡ conversion_word self }
    {
        match self {
            Conversion::Trunc => b"trunc",
            Conversion::ZExt => b"zext",
            Conversion::SExt => b"sext",
            Conversion::PtrToInt => b"ptrtoint",
            Conversion::IntToPtr => b"inttoptr",
        }
    }
}

/// A value of a `phi`, and the block that it comes from.
pub struct Edge {
    pub value: Value,
    pub label: Name,
}

impl Drop for Edge {
    fn drop(self) {
        let Edge { value: _, label: _ } = self;
    }
}

/// A case of a `switch`.
pub struct SwitchCase {
    pub value: Value,
    pub label: Name,
}

impl Drop for SwitchCase {
    fn drop(self) {
        let SwitchCase { value: _, label: _ } = self;
    }
}

/// An argument of a call, or an index of a `getelementptr`, with its type.
#[derive(Clone, Copy)]
pub struct Argument {
    pub ty: Scalar,
    pub value: Value,
}

/// What a call calls.
#[derive(Clone, Copy)]
pub enum Callee {
    Symbol(Symbol),
    Register(u32),
}

/// An instruction, and its line.
pub struct Instr {
    pub op: Op,
    pub line: u32,
}

impl Drop for Instr {
    fn drop(self) {
        let Instr { op: _, line: _ } = self;
    }
}

/// The forms of instructions. `to` is the number of the register that is given.
#[derive(Drop)]
pub enum Op {
    Binary {
        to: u32,
        op: BinOp,
        ty: Scalar,
        a: Value,
        b: Value,
    },
    Compare {
        to: u32,
        pred: Pred,
        ty: Scalar,
        a: Value,
        b: Value,
    },
    Convert {
        to: u32,
        how: Conversion,
        from: Scalar,
        a: Value,
        into: Scalar,
    },
    Unary {
        to: u32,
        op: UnaryOp,
        ty: Scalar,
        a: Value,
    },
    Select {
        to: u32,
        condition: Value,
        ty: Scalar,
        a: Value,
        b: Value,
    },
    Phi {
        to: u32,
        ty: Scalar,
        edges: Items<Edge>,
    },
    Alloca {
        to: u32,
        ty: IrType,
    },
    Load {
        to: u32,
        ty: Scalar,
        at: Value,
    },
    Store {
        ty: Scalar,
        value: Value,
        at: Value,
    },
    GetElementPtr {
        to: u32,
        ty: IrType,
        base: Value,
        indices: Items<Argument>,
    },
    Call {
        to: Option<u32>,
        ret: Option<Scalar>,
        callee: Callee,
        args: Items<Argument>,
    },
    CopyBlock {
        moves: bool,
        dest: Value,
        source: Value,
        len: Argument,
    },
    FillBlock {
        dest: Value,
        byte: Value,
        len: Argument,
    },
    Ret {
        value: Option<Argument>,
    },
    Jump {
        label: Name,
    },
    Branch {
        condition: Value,
        if_true: Name,
        if_false: Name,
    },
    Switch {
        ty: Scalar,
        value: Value,
        otherwise: Name,
        cases: Items<SwitchCase>,
    },
    Unreachable,
    Guard {
        at: Value,
        size: Value,
        narrow: bool,
    },
    Check {
        target: Value,
    },
    Enter {
        f: Symbol,
    },
    Pre {
        f: Symbol,
        k: u32,
    },
    Post {
        f: Symbol,
        k: u32,
    },
    Leave {
        f: Symbol,
    },
}
