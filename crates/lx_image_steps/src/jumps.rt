//! Instructions that end a block.
ghost use Rattle.std.specs.Prelude.{◌≡◌, ℕ, true, Some, List, nat_eq, IfSome, IsSome};
ghost use Rattle.lx_ir.specs.declared.instr.Op.TheVariants as op_is;
ghost use Rattle.lx_ir.specs.declared.instr.SwitchCase.{SwitchCase};
ghost use Rattle.lx_ir.specs.declared.module.Value.{Value};
ghost use Rattle.lx_ir.specs.declared.types.Scalar.{Scalar};
ghost use Rattle.lx_code.specs.Fits.{wants_table};
ghost use Rattle.lx_image_code.specs.Jumps.{op_at};
ghost use Rattle.lx_model.specs.Effect.{effect, jump_effect, chosen_label, bits, choice};
ghost use Rattle.lx_images.specs.Image.{image_routine};
ghost use Rattle.lx_image_steps.specs.Effects.{effect_of, Leads, label_after};
ghost use Rattle.lx_image_steps.specs.Standing.{label_at, run_of};

use crate::activation::Activation;
use crate::effect::Effect;
use crate::operand::operand;
use lx_image_code::Code;
use lx_ir::instr::{Op, SwitchCase};
use lx_ir::module::Value;
use lx_model::request::Trap;
use lx_words::Name;

/// Control goes to the block with a label.
pub(crate) fn jump(code: &Code, run: &Activation, label: &Name) -> Effect
    ensures does { effect_of code.now.program (run_of code.now run.now) result ≡ jump_effect code.now.program (run_of code.now run.now) label.now }
    ensures leads { Leads (run_of code.now run.now) (Some label.now) result }
{
    match code.block_named(run.function, label.as_slice()) {
        Some(number) => Effect::Jumps(number),
        None => Effect::Traps(Trap::Unreachable),
    }
}

/// Control goes to the first label, unless the condition is 0.
#[tactic(auto, using(crate::proofs::Choices::second_chosen, crate::proofs::Choices::first_chosen))]
pub(crate) fn branch(
    code: &Code,
    run: &Activation,
    condition: &Value,
    if_true: &Name,
    if_false: &Name,
) -> Effect
    ensures does { effect_of code.now.program (run_of code.now run.now) result ≡ jump_effect code.now.program (run_of code.now run.now) (choice (bits code.now.program (run_of code.now run.now) condition.now) if_true.now if_false.now) }
    ensures leads { Leads (run_of code.now run.now) (Some (choice (bits code.now.program (run_of code.now run.now) condition.now) if_true.now if_false.now)) result }
{
    let test = operand(code, run, condition).bits;
    if test == 0 {
        jump(code, run, if_false)
    } else {
        jump(code, run, if_true)
    }
}

fn is_case(code: &Code, run: &Activation, case: &SwitchCase, number: u64) -> bool
    ensures { result ≡ nat_eq (bits code.now.program (run_of code.now run.now) case.now.value) number }
{
    operand(code, run, &case.value).bits == number
}

// The label of the first equal case.
fn chosen_label<'a>(
    code: &Code,
    run: &Activation,
    number: u64,
    otherwise: &'a Name,
    cases: &'a [SwitchCase],
) -> &'a Name
    ensures { result.now ≡ chosen_label code.now.program (run_of code.now run.now) number otherwise.now cases.now }
{
    match cases.iter().find(|case| is_case(code, run, case, number)) {
        Some(case) => &case.label,
        None => otherwise,
    }
}

/// Control goes to the label of the first equal case.
pub(crate) fn switch(
    code: &Code,
    run: &Activation,
    value: &Value,
    otherwise: &Name,
    cases: &[SwitchCase],
) -> Effect
    ensures does { effect_of code.now.program (run_of code.now run.now) result ≡ jump_effect code.now.program (run_of code.now run.now) (chosen_label code.now.program (run_of code.now run.now) (bits code.now.program (run_of code.now run.now) value.now) otherwise.now cases.now) }
    ensures leads { Leads (run_of code.now run.now) (Some (chosen_label code.now.program (run_of code.now run.now) (bits code.now.program (run_of code.now run.now) value.now) otherwise.now cases.now)) result }
{
    let number = operand(code, run, value).bits;
    jump(code, run, chosen_label(code, run, number, otherwise, cases))
}

// The label of the case at a place, if there is a place.
fn label_at<'a>(cases: &'a [SwitchCase], place: Option<usize>, otherwise: &'a Name) -> &'a Name
    ensures { result.now ≡ label_at cases.now place otherwise.now }
{
    match place {
        Some(place) => match cases.get(place) {
            Some(case) => &case.label,
            None => otherwise,
        },
        None => otherwise,
    }
}

/// What a switch at a place of the block that runs does, by the table of its cases; none, where it has no table. A switch of more than
/// eight cases, each of which is a constant, has one.
pub(crate) fn switch_by_table(
    code: &Code,
    run: &Activation,
    place: usize,
    op: &Op,
) -> Option<Effect>
    requires { op_at (image_routine code.now run.now.function).blocks run.now.block place ≡ Some op.now }
    ensures quick { (ty : Scalar) → (v : Value) → (otherwise : List ℕ) → (cases : List SwitchCase) → op.now ≡ op_is.Switch ty v otherwise cases → wants_table op.now ≡ true → IsSome result }
    ensures does { IfSome result (λ e. effect_of code.now.program (run_of code.now run.now) e ≡ effect code.now.program (run_of code.now run.now) op.now) }
    ensures leads { IfSome result (Leads (run_of code.now run.now) (label_after code.now.program (run_of code.now run.now) op.now)) }
{
    match op {
        Op::Switch {
            value,
            otherwise,
            cases,
            ..
        } => {
            let number = operand(code, run, value).bits;
            match code.case(run.function, run.block, place, number) {
                Some(found) => Some(jump(code, run, label_at(cases.as_slice(), found, otherwise))),
                None => None,
            }
        }
        _ => None,
    }
}
