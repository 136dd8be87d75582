//! The faults of a whole text.
ghost use Rattle.std.specs.Prelude.{◌≡◌, true, Option, option_map, ⊤};
ghost use Rattle.std.specs.List.{list_all};
ghost use Rattle.lx_ir.specs.Lawful.{IsLawful};
ghost use Rattle.lx_ir.specs.Faults.{first_some};
ghost use Rattle.lx_propagate.specs.Answers.{IsAnswerOr};
ghost use Rattle.lx_propagate.specs.Slots.{Conflict, conflict_of};
ghost use Rattle.lx_propagate.specs.Within.{HasLawfulTypes};
ghost use Rattle.lx_image_texts.specs.ImageFaults.{conflict_fault, fault_in_function, first_image_fault, whole_fault, without_wrappers};
ghost use Rattle.lx_image_marks.specs.Told.{Gives, IsAnswer};
ghost use Rattle.lx_image_check.specs.Compared.{has_one_block};
ghost use Rattle.lx_image_check.specs.Answers.{beside_fault, stripped_fault};

use crate::globals::{check_globals, check_imports};
use crate::places::check_places;
use crate::right::right_wrappers;
use crate::stripped::without_wrappers;
use crate::wrappers::check_wrappers;
use lx_annot::interface::Interface;
use lx_image_marks::{FaultKind, ImageText, Refusal, check_instructions, refuse};
use lx_ir::module::{Function, Module};
use lx_propagate::{PropagateFault, check_conflicts};
use std::alloc::Global;

/// A conflict as a fault of the text.
fn refuse_conflict(alloc: Global, fault: PropagateFault) -> Refusal
    ensures { (x : Option Conflict) → IsAnswerOr ⊤ x fault → IsAnswer (option_map conflict_fault x) result }
{
    match fault {
        PropagateFault::Conflict { line, function, .. } => refuse(
            alloc,
            FaultKind::WrapperDiffers,
            line,
            function.as_slice(),
            0,
        ),
        PropagateFault::Memory => Refusal::Memory,
    }
}

/// Finds a function with two annotations that differ.
fn check_conflict(alloc: Global, i: &Interface, stripped: &Module) -> Result<(), Refusal>
    requires { HasLawfulTypes stripped.now }
    ensures { Gives (option_map conflict_fault (conflict_of i.now stripped.now)) result }
{
    match check_conflicts(alloc, i, stripped) {
        Ok(()) => Ok(()),
        Err(fault) => Err(refuse_conflict(alloc, fault)),
    }
}

/// Finds the first fault of the wrappers that a text ought to have, of its order, and of its functions' annotations.
#[tactic(auto, using(lx_image_marks::proofs::Passes::first_answer))]
fn check_beside(
    alloc: Global,
    i: &Interface,
    m: &Module,
    right: &[Function],
    stripped: &Module,
) -> Result<(), Refusal>
    requires typed { HasLawfulTypes stripped.now }
    requires blocks { list_all has_one_block right.now ≡ true }
    ensures { Gives (beside_fault i.now m.now right.now stripped.now) result }
{
    check_wrappers(alloc, m, right)?;
    check_places(alloc, m, right)?;
    check_conflict(alloc, i, stripped)?;
    Ok(())
}

/// The same, where the text without the bodies of its wrappers says what wrappers it ought to have.
#[tactic(auto, using(crate::proofs::OneBlock::one_blocks))]
fn check_stripped(
    alloc: Global,
    i: &Interface,
    m: &Module,
    stripped: &Module,
) -> Result<(), Refusal>
    requires { HasLawfulTypes stripped.now }
    ensures { Gives (stripped_fault i.now m.now stripped.now) result }
{
    let right = right_wrappers(alloc, i, stripped)?;
    let found = check_beside(alloc, i, m, &right, stripped);
    drop(right);
    found
}

#[tactic(auto, using(crate::proofs::Copying::typed))]
fn check_annotated(alloc: Global, i: &Interface, m: &Module) -> Result<(), Refusal>
    requires { IsLawful m.now }
    ensures { Gives (stripped_fault i.now m.now (without_wrappers m.now)) result }
{
    let stripped = without_wrappers(alloc, m)?;
    let found = check_stripped(alloc, i, m, &stripped);
    drop(stripped);
    found
}

#[tactic(auto, using(lx_image_marks::proofs::Passes::first_answer))]
fn check_whole(alloc: Global, i: &Interface, m: &Module) -> Result<(), Refusal>
    requires { IsLawful m.now }
    ensures { Gives (whole_fault i.now m.now) result }
{
    check_globals(alloc, m)?;
    check_imports(alloc, m)?;
    check_annotated(alloc, i, m)?;
    Ok(())
}

fn check_instrs(alloc: Global, m: &Module) -> Result<(), Refusal>
    requires { IsLawful m.now }
    ensures { Gives (first_some (fault_in_function m.now) m.now.functions) result }
{
    let text = ImageText::new(alloc, m)?;
    let found = check_instructions(alloc, &text);
    drop(text);
    found
}

/// Finds the first fault of a text as an image.
#[tactic(auto, using(lx_image_marks::proofs::Passes::first_answer))]
pub(crate) fn check_image(alloc: Global, i: &Interface, m: &Module) -> Result<(), Refusal>
    requires { IsLawful m.now }
    ensures { Gives (first_image_fault i.now m.now) result }
{
    check_instrs(alloc, m)?;
    check_whole(alloc, i, m)?;
    Ok(())
}
