//! An image without the bodies of its wrappers.
ghost use Rattle.std.specs.Prelude.{◌≡◌, ◌++◌, ◌∷◌, [], map, option_map, IfOk, OnOk};
ghost use Rattle.lx_image_texts.specs.ImageFaults.{is_wrapper, without_body, without_wrappers};
ghost use Rattle.lx_image_check.specs.Copies.{body_unless};

use lx_image_marks::is_wrapper;
use lx_ir::instr::Instr;
use lx_ir::module::{Block, Function, Module};
use lx_ir_copies::{Copied, copied_named_types, copied_op, copies};
use lx_words::{Items, Memory};
use std::alloc::Global;

fn push_instr(alloc: Global, list: &mut Items<Instr>, instr: &Instr) -> Result<(), Memory>
    ensures { OnOk result (list.new ≡ list.old ++ instr.now ∷ []) }
{
    let op = copied_op(alloc, &instr.op)?;
    list.push(Instr {
        op,
        line: instr.line,
    })?;
    Ok(())
}

fn push_instrs(alloc: Global, list: &mut Items<Instr>, instrs: &[Instr]) -> Result<(), Memory>
    ensures { OnOk result (list.new ≡ list.old ++ instrs.now) }
{
    for instr in instrs {
        push_instr(alloc, list, instr)?;
    }
    Ok(())
}

fn instrs_of(alloc: Global, instrs: &[Instr]) -> Result<Items<Instr>, Memory>
    ensures { IfOk result (λ list. list ≡ instrs.now) }
{
    let mut list = Items::new(alloc);
    match push_instrs(alloc, &mut list, instrs) {
        Ok(()) => Ok(list),
        Err(why) => {
            drop(list);
            Err(why)
        }
    }
}

fn push_block(alloc: Global, list: &mut Items<Block>, block: &Block) -> Result<(), Memory>
    ensures { OnOk result (list.new ≡ list.old ++ block.now ∷ []) }
{
    let name = block.name.copied(alloc)?;
    let instrs = instrs_of(alloc, block.instrs.as_slice())?;
    list.push(Block { name, instrs })?;
    Ok(())
}

fn push_blocks(alloc: Global, list: &mut Items<Block>, blocks: &[Block]) -> Result<(), Memory>
    ensures { OnOk result (list.new ≡ list.old ++ blocks.now) }
{
    for block in blocks {
        push_block(alloc, list, block)?;
    }
    Ok(())
}

fn copied_blocks(alloc: Global, blocks: &[Block]) -> Result<Items<Block>, Memory>
    ensures { IfOk result (λ list. list ≡ blocks.now) }
{
    let mut list = Items::new(alloc);
    match push_blocks(alloc, &mut list, blocks) {
        Ok(()) => Ok(list),
        Err(why) => {
            drop(list);
            Err(why)
        }
    }
}

fn body_of(alloc: Global, body: &Option<Items<Block>>) -> Result<Option<Items<Block>>, Memory>
    ensures { IfOk result (λ copy. copy ≡ body.now) }
{
    match body {
        Some(blocks) => {
            let blocks = copied_blocks(alloc, blocks.as_slice())?;
            Ok(Some(blocks))
        }
        None => Ok(None),
    }
}

/// A function's body, unless it is a wrapper's.
fn body_unless_wrapper(alloc: Global, f: &Function) -> Result<Option<Items<Block>>, Memory>
    ensures { IfOk result (λ body. body ≡ body_unless (is_wrapper f.now) f.now.blocks) }
{
    if is_wrapper(f) {
        Ok(None)
    } else {
        body_of(alloc, &f.blocks)
    }
}

#[tactic(auto, using(crate::proofs::Copying::without))]
fn without_body(alloc: Global, f: &Function) -> Result<Function, Memory>
    ensures { IfOk result (λ g. g ≡ without_body f.now) }
{
    let name = f.name.copied(alloc)?;
    let params = copies(alloc, f.params.as_slice())?;
    let locals = copies(alloc, f.locals.as_slice())?;
    let blocks = body_unless_wrapper(alloc, f)?;
    Ok(Function {
        name,
        params,
        locals,
        ret: f.ret,
        blocks,
        line: f.line,
    })
}

fn push_without(alloc: Global, list: &mut Items<Function>, f: &Function) -> Result<(), Memory>
    ensures { OnOk result (list.new ≡ list.old ++ without_body f.now ∷ []) }
{
    let f = without_body(alloc, f)?;
    list.push(f)?;
    Ok(())
}

#[tactic(auto, using(lx_words::proofs::Lists::map_step, lx_words::proofs::Lists::map_end))]
fn push_all_without(
    alloc: Global,
    list: &mut Items<Function>,
    functions: &[Function],
) -> Result<(), Memory>
    ensures { OnOk result (list.new ≡ list.old ++ map without_body functions.now) }
{
    for f in functions {
        push_without(alloc, list, f)?;
    }
    Ok(())
}

fn all_without(alloc: Global, functions: &[Function]) -> Result<Items<Function>, Memory>
    ensures { IfOk result (λ list. list ≡ map without_body functions.now) }
{
    let mut list = Items::new(alloc);
    match push_all_without(alloc, &mut list, functions) {
        Ok(()) => Ok(list),
        Err(why) => {
            drop(list);
            Err(why)
        }
    }
}

/// An image without the bodies of its wrappers. Its functions keep their numbers.
pub(crate) fn without_wrappers(alloc: Global, m: &Module) -> Result<Module, Memory>
    ensures { IfOk result (λ stripped. stripped ≡ without_wrappers m.now) }
{
    let types = copied_named_types(alloc, &m.types)?;
    let globals = copies(alloc, m.globals.as_slice())?;
    let functions = all_without(alloc, m.functions.as_slice())?;
    Ok(Module {
        types,
        globals,
        functions,
    })
}
