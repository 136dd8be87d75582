//! The functions, globals and numbers that constants are.

ghost use Rattle.std.specs.Prelude.{◌≡◌, nat_abs, negsuc, option_map, option_copied, slice_get, true};
ghost use Rattle.lx_ir.specs.declared.module.Constant.TheVariants as constant;
ghost use Rattle.lx_ir.specs.declared.module.Value.TheVariants as value;
ghost use Rattle.lx_words.specs.Word.{signed};
ghost use Rattle.lx_slot_types.specs.Sites.{function_in, function_init, function_value, index_number, index_of_value};

use lx_ir::instr::Argument;
use lx_ir::module::{Constant, Init, InitNode, Pointer, Symbol, Value};
use lx_words::{Word, below_minus_one, is_negative};

fn function_at(pointer: Pointer) -> Option<u32>
    ensures { result ≡ function_in (constant.Pointer pointer) }
{
    match pointer {
        Pointer::Symbol(Symbol::Function(number), 0) => Some(number),
        _ => None,
    }
}

/// The number of the function that a constant is.
fn function_in(constant: Constant) -> Option<u32>
    ensures { result ≡ function_in constant }
{
    match constant {
        Constant::Pointer(pointer) => function_at(pointer),
        _ => None,
    }
}

/// The number of the function that an operand is.
pub fn function_value(value: Value) -> Option<u32>
    ensures { result ≡ function_value value }
{
    match value {
        Value::Register(_) => None,
        Value::Constant(constant) => function_in(constant),
    }
}

/// The number of the function that an initialiser is.
pub fn function_init(init: &Init) -> Option<u32>
    ensures { result ≡ function_init init.now }
{
    match &init.node {
        InitNode::Plain(constant) => function_in(*constant),
        _ => None,
    }
}

/// How far a word lies from 0.
fn magnitude(word: Word) -> u64
    ensures { result ≡ nat_abs (signed word) }
{
    if is_negative(word) {
        below_minus_one(word) + 1
    } else {
        word.bits
    }
}

fn number_in(constant: Constant) -> u64
    ensures { result ≡ nat_abs (index_of_value (value.Constant constant)) }
{
    match constant {
        Constant::Number(word) => magnitude(word),
        _ => 0,
    }
}

/// The number of the field that an index names, where it names one.
pub fn field_number(index: &Argument) -> u64
    ensures { result ≡ nat_abs (index_number index.now) }
{
    match index.value {
        Value::Register(_) => 0,
        Value::Constant(constant) => number_in(constant),
    }
}
