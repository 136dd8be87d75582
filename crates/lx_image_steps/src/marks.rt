//! Guards and checks, and what they leave for the next instruction.
ghost use Rattle.std.specs.Prelude.{◌≡◌, List, map};
ghost use Rattle.lx_images.specs.Image.{ImageFrame, ImageThread, image_routine, instruction_step, no_marks};
ghost use Rattle.lx_image_steps.specs.Marks.{StandsPlain, StepsAs, marks_behind, marks_set, moved, plain_step};
ghost use Rattle.lx_image_steps.specs.Standing.{block_at, head_of, run_of};

use crate::activation::Activation;
use crate::operand::operand;
use crate::steps::{instrs_of, is_phi};
use lx_image_code::Code;
use lx_ir::instr::{Instr, Op};
use std::marker::Model;

/// Bytes that a guard names: so many from an address on.
#[derive(Clone, Copy)]
pub struct Guarded {
    pub at: u64,
    pub size: u64,
}

impl Model for Guarded {
    ghost use Rattle.std.specs.Prelude.{ℕ};

    ghost Value = { ℕ × ℕ };

    ghost view = { λ g. (g.at, g.size) };

    ghost inverse = { λ g. record { at = g.0; size = g.1 } };
}

/// What guards and checks have left for the next instruction: the bytes that the last guard names, and the address that the last
/// check names.
#[derive(Clone, Copy)]
pub struct Marks {
    pub guarded: Option<Guarded>,
    pub checked: Option<u64>,
}

impl Model for Marks {
    ghost use Rattle.lx_images.specs.Image.{Marks as Meaning};

    ghost Value = { Meaning };

    ghost view = { λ m. record { guarded = m.guarded; checked = m.checked } };

    ghost inverse = { λ m. record { guarded = m.guarded; checked = m.checked } };
}

// A place behind guards and checks, and what they have left there.
#[derive(Clone, Copy)]
struct Passed {
    place: usize,
    marks: Marks,
}

// The marks behind a guard or a check; none, where the instruction is another one.
fn marks_set(code: &Code, run: &Activation, marks: &Marks, op: &Op) -> Option<Marks>
    ensures { result ≡ marks_set code.now.program (run_of code.now run.now) marks.now op.now }
{
    match op {
        Op::Guard { at, size, .. } => Some(Marks {
            guarded: Some(Guarded {
                at: operand(code, run, at).bits,
                size: operand(code, run, size).bits,
            }),
            checked: marks.checked,
        }),
        Op::Check { target } => Some(Marks {
            guarded: marks.guarded,
            checked: Some(operand(code, run, target).bits),
        }),
        _ => None,
    }
}

// The marks behind an instruction that is gone past without a step.
fn marks_behind(code: &Code, run: &Activation, marks: &Marks, op: &Op) -> Option<Marks>
    ensures { result ≡ marks_behind code.now.program (run_of code.now run.now) run.now.arrived marks.now op.now }
{
    if run.arrived && is_phi(op) {
        Some(*marks)
    } else {
        marks_set(code, run, marks, op)
    }
}

// Goes past the guards and checks before the next other instruction.
fn pass_marks(code: &Code, run: &Activation, instrs: &[Instr]) -> Passed
    requires { map (λ i. i.op) instrs.now ≡ (block_at (image_routine code.now run.now.function).blocks run.now.block).code }
    ensures step { StepsAs code.now (run_of code.now run.now) result.marks (moved code.now run.now result.place) }
    ensures plain { StandsPlain (moved code.now run.now result.place) }
{
    let mut marks = Marks {
        guarded: None,
        checked: None,
    };
    for place in run.place..instrs.len() {
        match marks_behind(code, run, &marks, &instrs[place].op) {
            Some(further) => marks = further,
            None => return Passed { place, marks },
        }
    }
    Passed {
        place: instrs.len(),
        marks,
    }
}

impl Activation {
    /// The function goes past the guards and checks before its next other instruction, which costs no unit, and answers what they
    /// leave for that instruction. Nothing but its place changes.
    pub fn take_marks(&mut self, code: &Code) -> Marks
        ensures step { (v : ImageThread) → (fs : List ImageFrame) → instruction_step code.now v fs (run_of code.now self.old).code no_marks (run_of code.now self.old) ≡ instruction_step code.now v fs (run_of code.now self.new).code result (run_of code.now self.new) }
        ensures costs { (v : ImageThread) → (fs : List ImageFrame) → instruction_step code.now v fs (run_of code.now self.old).code no_marks (run_of code.now self.old) ≡ plain_step code.now v fs result (run_of code.now self.new) (head_of (run_of code.now self.new).code) }
        ensures plain { StandsPlain (run_of code.now self.new) }
        ensures rest { self.new ≡ record self.old { place = self.new.place } }
    {
        let passed = pass_marks(code, self, instrs_of(code, self));
        self.place = passed.place;
        passed.marks
    }
}
