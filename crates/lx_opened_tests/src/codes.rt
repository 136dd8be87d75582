//! Code over images that may be any, also over those that a checker refuses.
ghost use Rattle.std.specs.Prelude.{◌≡◌, ◌∷◌, [], IfOk, IsTrue, length, map};
ghost use Rattle.std.specs.Arc.{arc_value};
ghost use Rattle.lx_annotation_tables.specs.Entries.{all_annotated};
ghost use Rattle.lx_code.specs.Reach.{CountsActions};
ghost use Rattle.lx_image_code.specs.Code.{code_of};
ghost use Rattle.lx_input.specs.Laws.{IsReady};
ghost use Rattle.lx_ir.specs.Verified.{IsVerified};
ghost use Rattle.lx_link_texts.specs.WellFormed.{IsWellFormed};
ghost use Rattle.lx_model.specs.Account.{image_count};
ghost use Rattle.lx_opened_tests.specs.Coded.{IsCoded};
ghost use Rattle.lx_opened_tests.specs.Typed.{HasTypesOf};
ghost use Rattle.lx_slot_types.specs.Gets.{below};

use crate::images::image_of_text;
use lx_annotation_tables::{action_counts, image_counts, reach_laws, sources_of};
use lx_code::ActionCounts;
use lx_image_code::{Code, CodeFault};
use lx_input::Input;
use lx_ir::module::Module;
use lx_ir_verify::Verified;
use lx_model::account::ImageCount;
use lx_model::program::{Calls, Program};
use lx_same_texts::has_same_types;
use lx_slot_types::Annotated;
use lx_words::{Items, Memory};
use std::alloc::Global;
use std::sync::Arc;
use std::test::Fail;

/// An input with the code of its program over an image, and with what images of its modules have beyond the modules.
#[derive(Drop)]
pub struct Coded {
    pub code: Code,
    pub program: Arc<Program>,
    pub script: Items<Calls>,
    pub annotated: Items<Annotated>,
    pub counts: Items<ImageCount>,
}

/// What is reckoned of a program: how much the images of its modules have beyond them, and how many actions each function has.
#[derive(Drop)]
struct Reckoning {
    counts: Items<ImageCount>,
    actions: Vec<ActionCounts>,
}

fn reckoned(alloc: Global, program: &Program, annotated: &[Annotated]) -> Result<Reckoning, Memory>
    requires well_formed { IsWellFormed program.now }
    requires annotated { annotated.now ≡ all_annotated program.now }
    ensures counts { IfOk result (λ r. r.counts ≡ map (image_count program.now) (below (length program.now.modules))) }
    ensures actions { IfOk result (λ r. CountsActions program.now r.actions.items) }
{
    let sources = sources_of(alloc, program, annotated)?;
    let actions = action_counts(alloc, program, sources.as_slice())?;
    let counts = image_counts(alloc, program, annotated)?;
    Ok(Reckoning { counts, actions })
}

/// A program with two owners.
fn owned_twice(alloc: Global, program: Program) -> Result<(Arc<Program>, Arc<Program>), Memory>
    ensures { IfOk result (λ owners. (arc_value owners.0 ≡ program) × (arc_value owners.1 ≡ program)) }
{
    match Arc::new(alloc, program) {
        Ok(first) => match Arc::try_clone(&first) {
            Ok(second) => Ok((first, second)),
            Err(_) => {
                drop(first);
                Err(Memory)
            }
        },
        Err(failed) => {
            drop(failed);
            Err(Memory)
        }
    }
}

/// A list of one image.
fn alone(alloc: Global, image: Verified) -> Result<Vec<Verified>, Memory>
    ensures { IfOk result (λ images. images.items ≡ image ∷ []) }
{
    let images = vec![in alloc; image]?;
    Ok(images)
}

fn see_verified(image: &Verified)
    ensures { IsVerified image.now }
{
    let _module = image.module();
}

/// The code of a program over an image that has the types of the program's first module.
#[tactic(auto, using(crate::proofs::Typed::within_reach))]
fn code_over(
    alloc: Global,
    program: Arc<Program>,
    image: Verified,
    actions: Vec<ActionCounts>,
) -> Result<Code, CodeFault>
    requires well_formed { IsWellFormed (arc_value program) }
    requires typed { HasTypesOf (arc_value program) image }
    requires counted { CountsActions (arc_value program) actions.items }
    ensures { IfOk result (λ code. code ≡ code_of (arc_value program) (image ∷ [])) }
{
    reach_laws();
    see_verified(&image);
    match alone(alloc, image) {
        Ok(images) => Code::new(alloc, program, images, actions),
        Err(_) => {
            drop(program);
            drop(actions);
            Err(CodeFault::Memory)
        }
    }
}

/// The same with a further owner of the program.
fn owned_code(
    alloc: Global,
    program: Program,
    image: Verified,
    actions: Vec<ActionCounts>,
) -> Result<(Code, Arc<Program>), CodeFault>
    requires well_formed { IsWellFormed program }
    requires typed { HasTypesOf program image }
    requires counted { CountsActions program actions.items }
    ensures code { IfOk result (λ parts. parts.0 ≡ code_of program (image ∷ [])) }
    ensures same { IfOk result (λ parts. arc_value parts.1 ≡ program) }
{
    match owned_twice(alloc, program) {
        Ok((first, second)) => match code_over(alloc, first, image, actions) {
            Ok(code) => Ok((code, second)),
            Err(why) => {
                drop(second);
                Err(why)
            }
        },
        Err(_) => {
            drop(image);
            drop(actions);
            Err(CodeFault::Memory)
        }
    }
}

/// An input with the code of its program over an image that has the types of the program's first module.
#[tactic(auto, using(crate::proofs::Coded::coded))]
fn code_of_input(alloc: Global, input: Input, image: Verified) -> Result<Coded, CodeFault>
    requires ready { IsReady input }
    requires typed { HasTypesOf input.program image }
    ensures { IfOk result (λ c. IsCoded c.code (arc_value c.program) c.script c.annotated c.counts) }
{
    let Input {
        program,
        script,
        annotated,
        besides,
    } = input;
    drop(besides);
    match reckoned(alloc, &program, annotated.as_slice()) {
        Ok(Reckoning { counts, actions }) => match owned_code(alloc, program, image, actions) {
            Ok(parts) => {
                let (code, program) = parts;
                Ok(Coded {
                    code,
                    program,
                    script,
                    annotated,
                    counts,
                })
            }
            Err(why) => {
                drop(script);
                drop(annotated);
                drop(counts);
                Err(why)
            }
        },
        Err(_) => {
            drop(program);
            drop(script);
            drop(annotated);
            drop(image);
            Err(CodeFault::Memory)
        }
    }
}

/// Whether an image has the types of the first module of a program.
#[tactic(auto, using(crate::proofs::Typed::has_types))]
fn has_types_of(program: &Program, image: &Module) -> bool
    ensures { IsTrue result → HasTypesOf program.now image.now }
{
    match program.modules.items.get(0) {
        Some(entry) => has_same_types(image, &entry.module),
        None => false,
    }
}

/// What making the code of an input's program over the image that a text says answers, whatever a checker says of the image.
fn made_code(alloc: Global, input: Input, text: &str) -> Result<Result<Coded, CodeFault>, Fail>
    requires { IsReady input }
    ensures { IfOk result (λ made. IfOk made (λ c. IsCoded c.code (arc_value c.program) c.script c.annotated c.counts)) }
{
    match image_of_text(alloc, text.as_bytes()) {
        Ok(image) => {
            if has_types_of(&input.program, image.module()) {
                Ok(code_of_input(alloc, input, image))
            } else {
                drop(input);
                drop(image);
                Err(Fail::new("the types differ"))
            }
        }
        Err(why) => {
            drop(input);
            Err(why)
        }
    }
}

/// An input with the code of its program over the image that a text says, whatever a checker says of it. The image's wrappers have the
/// form of one.
pub fn code_of_text(alloc: Global, input: Input, text: &str) -> Result<Coded, Fail>
    requires { IsReady input }
    ensures { IfOk result (λ c. IsCoded c.code (arc_value c.program) c.script c.annotated c.counts) }
{
    match made_code(alloc, input, text)? {
        Ok(coded) => Ok(coded),
        Err(_) => Err(Fail::new("the code is not made")),
    }
}

/// Whether no code is made over the image that a text says, since this function of it is the first that is named as a wrapper and has not
/// the form of one.
pub fn is_unmade(alloc: Global, input: Input, text: &str, function: u32) -> Result<bool, Fail>
    requires { IsReady input }
{
    let wanted = CodeFault::Wrapper {
        module: 0,
        function,
    };
    match made_code(alloc, input, text)? {
        Ok(coded) => {
            drop(coded);
            Ok(false)
        }
        Err(why) => Ok(why == wanted),
    }
}
