//! The words of constants.
ghost use Rattle.std.specs.Prelude.{◌≡◌, ℕ, ◌%◌, ◌^◌};
ghost use Rattle.lx_model.specs.Program.{symbol_address, pointer_value, constant_word, target_address};
ghost use Rattle.lx_code.specs.Targets.{target_of};

use crate::code::Code;
use crate::named::Names;
use crate::targets::Target;
use lx_ir::module::{Constant, Pointer, Symbol};
use lx_words::{Width, Word};

// The address that a called name has as a value.
fn target_number(target: &Target) -> u64
    ensures { result ≡ target_address (target_of target.now) }
{
    match target {
        Target::Native(number) | Target::Import(number) | Target::Own(number) => {
            0x1_0000 + 16 * u64::from(*number)
        }
        Target::Slot(_) | Target::Nowhere => 0,
    }
}

fn symbol_number(names: &Names, home: Option<u32>, symbol: &Symbol) -> u64
    ensures { result ≡ symbol_address names.now home symbol.now }
{
    match symbol {
        Symbol::Global(global) => names.global_address(home, *global),
        Symbol::Function(function) => target_number(&names.target(home, *function)),
    }
}

fn pointer_number(names: &Names, home: Option<u32>, pointer: &Pointer) -> u64
    ensures { result ≡ pointer_value names.now home pointer.now % 2 ^ 64 }
{
    match pointer {
        Pointer::Null => 0,
        Pointer::Blank(_) => 0,
        Pointer::Number(number) => *number,
        Pointer::Symbol(symbol, offset) => symbol_number(names, home, symbol).wrapping_add(*offset),
    }
}

/// The word of a constant in a text.
pub(crate) fn word_of(names: &Names, home: Option<u32>, constant: &Constant) -> Word
    ensures { result ≡ constant_word names.now home constant.now }
{
    match constant {
        Constant::Number(word) => *word,
        Constant::Truth(true) => Word::new(Width::W1, 1),
        Constant::Truth(false) => Word::new(Width::W1, 0),
        Constant::Blank(_, width) => Word::new(*width, 0),
        Constant::Pointer(pointer) => Word::new(Width::W64, pointer_number(names, home, pointer)),
        Constant::Cast(pointer, width) => Word::new(*width, pointer_number(names, home, pointer)),
    }
}

/// The word of a constant in a text.
pub fn constant_of(code: &Code, home: Option<u32>, constant: &Constant) -> Word
    ensures { result ≡ constant_word code.now home constant.now }
{
    word_of(code.names(), home, constant)
}
