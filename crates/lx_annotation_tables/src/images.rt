//! What the images of modules have beyond the modules.
ghost use Rattle.std.specs.Prelude.{◌≡◌, ◌+◌, IfOk, Some, count_by, length, map};
ghost use Rattle.std.specs.List.{enumerate_from, flat_map};
ghost use Rattle.lx_ir.specs.Lookup.{instrs_of, is_write};
ghost use Rattle.lx_model.specs.Account.{image_count};
ghost use Rattle.lx_slot_types.specs.Gets.{below};
ghost use Rattle.lx_propagate.specs.Slots.{annotated_of};
ghost use Rattle.lx_annot.specs.declared.interface.Interface.{Interface};
ghost use Rattle.lx_annotation_tables.specs.Entries.{IsRising, all_annotated};
ghost use Rattle.lx_annotation_tables.specs.Images.{image_of, inserted_in, is_behind, is_wrapped};
ghost use Rattle.lx_annotation_tables.specs.declared.images.Inserted.TheVariants as inserted;

use crate::marked::is_annotated;
use lx_ir::instr::{Instr, Op};
use lx_ir::module::{Block, Function, Module};
use lx_link_texts::{is_alias, is_indirect_call};
use lx_model::account::ImageCount;
use lx_model::program::Program;
use lx_slot_types::{Annotated, Marked};
use lx_words::{Items, Memory};
use std::alloc::Global;

/// What an image has before an instruction: a guard before a store or a block write, a check before an indirect call.
#[derive(Clone, Copy)]
pub enum Inserted {
    Guard,
    Check,
}

fn is_write(op: &Op) -> bool
    ensures { result ≡ is_write op.now }
{
    matches!(
        op,
        Op::Store { .. } | Op::CopyBlock { .. } | Op::FillBlock { .. }
    )
}

#[tactic(auto, unfolding(crate::specs::Images::is_behind))]
fn is_behind(what: Inserted, instr: &Instr) -> bool
    ensures { result ≡ is_behind what instr.now }
{
    match what {
        Inserted::Guard => is_write(&instr.op),
        Inserted::Check => is_indirect_call(&instr.op),
    }
}

fn count_instrs(what: Inserted, instrs: &[Instr]) -> usize
    ensures { result ≡ count_by (is_behind what) instrs.now }
{
    let mut count = 0usize;
    for instr in instrs {
        if is_behind(what, instr) {
            count += 1;
        }
    }
    count
}

fn add(total: u64, more: usize) -> Result<u64, Memory>
    ensures { IfOk result (λ n. n ≡ total + more) }
{
    match total.checked_add(more as u64) {
        Some(sum) => Ok(sum),
        None => Err(Memory),
    }
}

fn count_blocks(what: Inserted, blocks: &[Block]) -> Result<usize, Memory>
    ensures { IfOk result (λ n. n ≡ count_by (is_behind what) (flat_map (λ b. b.instrs) blocks.now)) }
{
    let mut total = 0usize;
    for block in blocks {
        total = match total.checked_add(count_instrs(what, block.instrs.as_slice())) {
            Some(sum) => sum,
            None => return Err(Memory),
        };
    }
    Ok(total)
}

fn count_function(what: Inserted, function: &Function) -> Result<usize, Memory>
    ensures { IfOk result (λ n. n ≡ count_by (is_behind what) (instrs_of function.now)) }
{
    match &function.blocks {
        None => Ok(0),
        Some(blocks) => {
            let total = count_blocks(what, blocks.as_slice())?;
            Ok(total)
        }
    }
}

fn count_functions(what: Inserted, functions: &[Function]) -> Result<u64, Memory>
    ensures { IfOk result (λ n. n ≡ inserted_in what functions.now) }
{
    let mut total = 0u64;
    for function in functions {
        let more = count_function(what, function)?;
        total = add(total, more)?;
    }
    Ok(total)
}

#[tactic(auto, unfolding(crate::specs::Images::is_wrapped))]
fn is_wrapped(annotated: &[Marked], number: usize, function: &Function) -> bool
    requires { IsRising annotated.now }
    ensures { result ≡ is_wrapped annotated.now (number, function.now) }
{
    if function.blocks.is_some() {
        is_annotated(annotated, number)
    } else {
        !is_alias(function.name.as_slice())
    }
}

/// How many functions of a module are called through a wrapper.
#[tactic(auto, using(crate::proofs::ImageTables::wrapped_more, crate::proofs::ImageTables::wrapped_all))]
fn count_wrappers(annotated: &[Marked], functions: &[Function]) -> u64
    requires { IsRising annotated.now }
    ensures { result ≡ count_by (is_wrapped annotated.now) (enumerate_from 0 functions.now) }
{
    let mut count = 0u64;
    for (number, function) in functions.iter().enumerate() {
        if is_wrapped(annotated, number, function) {
            count += 1;
        }
    }
    count
}

#[tactic(auto, using(crate::proofs::ImageTables::image_by))]
fn image_of(text: &Module, annotated: &[Marked]) -> Result<ImageCount, Memory>
    requires { IsRising annotated.now }
    ensures { IfOk result (λ image. (i : Interface) → annotated.now ≡ annotated_of i text.now → image ≡ image_of i text.now) }
{
    let functions = text.functions.as_slice();
    let guards = count_functions(Inserted::Guard, functions)?;
    let checks = count_functions(Inserted::Check, functions)?;
    Ok(ImageCount {
        guards,
        checks,
        wrappers: count_wrappers(annotated, functions),
    })
}

/// What the image of each module has beyond the module. `annotated` has the functions of each module that get a slot type.
///
/// # Errors
/// Want of memory.
#[tactic(auto, using(crate::proofs::ImageTables::annotated_long))]
pub fn image_counts(
    alloc: Global,
    program: &Program,
    annotated: &[Annotated],
) -> Result<Items<ImageCount>, Memory>
    requires { annotated.now ≡ all_annotated program.now }
    ensures { IfOk result (λ images. images ≡ map (image_count program.now) (below (length program.now.modules))) }
{
    let mut images = Vec::new(alloc);
    for (number, entry) in program.modules.as_slice().iter().enumerate() {
        let image = image_of(&entry.module, annotated[number].as_slice())?;
        images.push(image)?;
    }
    Ok(Items::from_vec(images))
}
