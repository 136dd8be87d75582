//! Functions that run.
ghost use Rattle.std.specs.Prelude.{◌≡◌, ◌≤◌};

use lx_words::Word;
use std::marker::Model;

/// Bytes of the stack.
#[derive(Clone, Copy)]
pub struct Range {
    pub at: u64,
    pub size: u64,
}

impl Model for Range {
    ghost use Rattle.lx_model.specs.Thread.{Range as Meaning};

    ghost Value = { Meaning };

    ghost view = { λ r. record { at = r.at; size = r.size } };

    ghost inverse = { λ r. record { at = r.at; size = r.size } };
}

/// A function that runs: its number, the number of its block and the place of its next instruction there, whether a
/// jump led to the block, whose phis then are behind it, its registers, its part of the stack, and what it has
/// allocated there, the newest last.
pub struct Activation {
    pub function: u32,
    pub block: usize,
    pub place: usize,
    pub arrived: bool,
    pub registers: Vec<Word>,
    pub low: u64,
    pub high: u64,
    pub allocas: Vec<Range>,
    ghost below: { high ≤ 9223372036854775808 },
}

impl Drop for Activation {
    fn drop(self) {
        let Activation {
            function: _,
            block: _,
            place: _,
            arrived: _,
            registers: _,
            low: _,
            high: _,
            allocas: _,
        } = self;
    }
}
