//! Words, their widths, and the names of the operators on them.

ghost use Rattle.std.specs.Prelude.{◌≡◌, ◌<◌, ◌+◌};
ghost use Rattle.lx_words.specs.Width.{bit_count, byte_count, modulus};

use std::marker::Model;

/// How many bits a word has.
#[derive(Clone, Copy, PartialEq, Eq)]
pub enum Width {
    W1,
    W8,
    W16,
    W32,
    W64,
}

impl Width {
    /// How many bits a word of this width has.
    pub fn bit_count(self) -> u32
        ensures { result ≡ bit_count self }
    {
        match self {
            Width::W1 => 1,
            Width::W8 => 8,
            Width::W16 => 16,
            Width::W32 => 32,
            Width::W64 => 64,
        }
    }

    /// How many bytes a word of this width takes in memory.
    pub fn byte_count(self) -> u8
        ensures count { result ≡ byte_count self }
        ensures some { 0 < result }
        ensures small { result < 9 }
    {
        match self {
            Width::W1 | Width::W8 => 1,
            Width::W16 => 2,
            Width::W32 => 4,
            Width::W64 => 8,
        }
    }

    /// The greatest number of this width: every bit is set.
    pub fn mask(self) -> u64
        ensures { result + 1 ≡ modulus self }
    {
        match self {
            Width::W1 => 1,
            Width::W8 => 0xff,
            Width::W16 => 0xffff,
            Width::W32 => 0xffff_ffff,
            Width::W64 => u64::MAX,
        }
    }
}

/// An operator on two words of one width.
#[derive(Clone, Copy, PartialEq, Eq)]
pub enum BinOp {
    Add,
    Sub,
    Mul,
    UDiv,
    SDiv,
    URem,
    SRem,
    And,
    Or,
    Xor,
    Shl,
    LShr,
    AShr,
}

/// A comparison of two words of one width.
#[derive(Clone, Copy, PartialEq, Eq)]
pub enum Pred {
    Eq,
    Ne,
    Ugt,
    Uge,
    Ult,
    Ule,
    Sgt,
    Sge,
    Slt,
    Sle,
}

/// A word: a width, and a number below 2 to that width.
#[derive(Clone, Copy, PartialEq, Eq)]
pub struct Word {
    pub width: Width,
    pub bits: u64,
}

impl Model for Word {
    ghost use Rattle.std.specs.Prelude.{◌<◌, ◌^◌};
    ghost use Rattle.lx_words.specs.Width.{bit_count};
    ghost use Rattle.lx_words.specs.Word.{Word as Meaning};

    ghost Value = { Meaning };

    ghost view = { λ w. record { width = w.width; bits = w.bits } };

    ghost invariant = { λ w. w.bits < 2 ^ bit_count w.width };

    ghost inverse = { λ w. record { width = w.width; bits = w.bits } };
}
