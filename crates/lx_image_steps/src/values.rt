//! Instructions that give a value of their operands.
ghost use Rattle.std.specs.Prelude.{◌≡◌};
ghost use Rattle.lx_words.specs.Word.{binary, compare, word};
ghost use Rattle.lx_model.specs.Effect.{operand, bits, truth_word, conversion, choice, unary_value};
ghost use Rattle.lx_image_steps.specs.Standing.{run_of};

use crate::activation::Activation;
use crate::operand::operand;
use lx_code::width_of;
use lx_image_code::Code;
use lx_ir::instr::{Conversion, UnaryOp};
use lx_ir::module::Value;
use lx_ir::types::Scalar;
use lx_words::{BinOp, Pred, Width, Word, resize};

/// The result of an operator on two words; none, where a division has no result.
pub(crate) fn binary(code: &Code, run: &Activation, op: BinOp, a: &Value, b: &Value) -> Option<Word>
    ensures { result ≡ binary op (operand code.now.program (run_of code.now run.now) a.now) (operand code.now.program (run_of code.now run.now) b.now) }
{
    match lx_words::binary(op, operand(code, run, a), operand(code, run, b)) {
        Ok(word) => Some(word),
        Err(_) => None,
    }
}

/// The result of an operator on one word.
pub(crate) fn unary(op: UnaryOp, word: Word) -> Word
    ensures { result ≡ unary_value op word }
{
    match op {
        UnaryOp::Freeze => word,
    }
}

// The word of a truth.
fn truth(holds: bool) -> Word
    ensures { result ≡ truth_word holds }
{
    if holds {
        Word::new(Width::W1, 1)
    } else {
        Word::new(Width::W1, 0)
    }
}

/// Whether a comparison holds.
pub(crate) fn compare(code: &Code, run: &Activation, pred: Pred, a: &Value, b: &Value) -> Word
    ensures { result ≡ truth_word (compare pred (operand code.now.program (run_of code.now run.now) a.now) (operand code.now.program (run_of code.now run.now) b.now)) }
{
    truth(lx_words::compare(pred, operand(code, run, a), operand(code, run, b)))
}

// A word at another type.
fn converted(how: Conversion, word: Word, into: &Scalar) -> Word
    ensures { result ≡ conversion how word into.now }
{
    match how {
        Conversion::SExt => resize(word, width_of(into), true),
        _ => resize(word, width_of(into), false),
    }
}

/// The operand at another type.
pub(crate) fn convert(
    code: &Code,
    run: &Activation,
    how: Conversion,
    value: &Value,
    into: &Scalar,
) -> Word
    ensures { result ≡ conversion how (operand code.now.program (run_of code.now run.now) value.now) into.now }
{
    converted(how, operand(code, run, value), into)
}

/// The first value, unless the condition is 0.
#[tactic(auto, using(crate::proofs::Choices::second_chosen, crate::proofs::Choices::first_chosen))]
pub(crate) fn select(code: &Code, run: &Activation, condition: &Value, a: &Value, b: &Value) -> Word
    ensures { result ≡ choice (bits code.now.program (run_of code.now run.now) condition.now) (operand code.now.program (run_of code.now run.now) a.now) (operand code.now.program (run_of code.now run.now) b.now) }
{
    let test = operand(code, run, condition);
    let first = operand(code, run, a);
    let second = operand(code, run, b);
    chosen(test.bits, first, second)
}

// The first word, unless the number is 0.
#[tactic(auto, using(crate::proofs::Choices::second_chosen, crate::proofs::Choices::first_chosen))]
fn chosen(number: u64, first: Word, second: Word) -> Word
    ensures { result ≡ choice number first second }
{
    if number == 0 { second } else { first }
}
