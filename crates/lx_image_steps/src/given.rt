//! Instructions that give a value of their operands alone, and functions that go past them.
ghost use Rattle.std.specs.Prelude.{◌≡◌, IfSome, IsTrue, Some, false};
ghost use Rattle.lx_image_code.specs.Jumps.{op_at};
ghost use Rattle.lx_images.specs.Image.{image_routine};
ghost use Rattle.lx_image_steps.specs.Given.{GivesWord, GoesTo};
ghost use Rattle.lx_image_steps.specs.Standing.{run_of};

use crate::activation::Activation;
use crate::operand::operand;
use crate::routes::element_by_table;
use crate::steps::{instr_at, instrs_of, next_place};
use crate::values::{binary, compare, convert, select, unary};
use lx_image_code::Code;
use lx_ir::instr::Op;
use lx_words::Word;

// The value that an instruction at a place of the block that runs gives of its operands alone; none, where it is another one, a division
// without a result, or the address of a part that no table has.
#[tactic(auto, using(crate::proofs::Giving::value_given, crate::proofs::Giving::value_given_if, crate::proofs::Giving::quotient_given))]
fn value_given(code: &Code, run: &Activation, place: usize, op: &Op) -> Option<Word>
    requires { op_at (image_routine code.now run.now.function).blocks run.now.block place ≡ Some op.now }
    ensures { IfSome result (GivesWord code.now (run_of code.now run.now) op.now) }
{
    match op {
        Op::Binary { op, a, b, .. } => binary(code, run, *op, a, b),
        Op::Compare { pred, a, b, .. } => Some(compare(code, run, *pred, a, b)),
        Op::Convert { how, a, into, .. } => Some(convert(code, run, *how, a, into)),
        Op::Unary { op, a, .. } => Some(unary(*op, operand(code, run, a))),
        Op::Select {
            condition,
            a,
            b,
            ..
        } => Some(select(code, run, condition, a, b)),
        Op::GetElementPtr { .. } => element_by_table(code, run, place, op),
        _ => None,
    }
}

impl Activation {
    /// Where the next instruction gives a value of its operands alone, the function goes past it with that value, which costs a unit of
    /// fuel; `true` then. Nothing changes, where the value can not be given so: at a guard, a check, a call and a jump, where memory is
    /// asked, where a division has no result, and where no instruction is left. Then `next_step` tells what comes next.
    pub fn give_next(&mut self, code: &Code) -> bool
        ensures gives { IsTrue result → GoesTo code.now (run_of code.now self.old) (run_of code.now self.new) }
        ensures stays { result ≡ false → self.new ≡ self.old }
    {
        let instrs = instrs_of(code, self);
        let place = next_place(instrs, self.arrived, self.place);
        match instr_at(instrs, place) {
            Some(instr) => match value_given(code, self, place, &instr.op) {
                Some(word) => {
                    self.pass_at(instrs, place, &Some(word));
                    true
                }
                None => false,
            },
            None => false,
        }
    }
}
