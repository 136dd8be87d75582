//! The program of an image.
ghost use Rattle.std.specs.Prelude.{◌≡◌, ◌++◌, ◌∷◌, [], Some, filter, map, option_copied, option_map, slice_get, IfOk, OnOk};
ghost use Rattle.lx_image_texts.specs.Marks.{is_mark};
ghost use Rattle.lx_image_texts.specs.Erased.{erased_callee, erased_number, erased_op, is_of_program};
ghost use Rattle.lx_image_texts.specs.Programs.{program_block, program_function, program_of};
ghost use Rattle.lx_image_check.specs.Program.{lines_of, program_lines};

use crate::checked::Checked;
use lx_image_marks::{Imports, is_own_name, is_wrapper};
use lx_ir::instr::{Callee, Instr, Op};
use lx_ir::module::{Block, Function, Module, Symbol};
use lx_ir_copies::{Copied, copied_call, copied_named_types, copied_op, copies};
use lx_words::{Items, Memory};
use std::alloc::Global;

fn function_at(m: &Module, number: u32) -> Option<&Function>
    ensures { option_copied result ≡ slice_get m.now.functions number }
{
    m.functions.items.get(number as usize)
}

/// The number of the import that a wrapper stands for; other functions keep theirs.
fn number_in_program(imports: &Imports<'_>, number: u32, f: &Function) -> Result<u32, Memory>
    ensures { IfOk result (λ n. n ≡ erased_number imports.now number (Some f.now)) }
{
    if !is_own_name(f.name.as_slice()) {
        return Ok(number);
    }
    match imports.wrapped_number(f.name.as_slice()) {
        Some(place) => number_of(place),
        None => Ok(number),
    }
}

/// A count as a number of 32 bits: no text that is read has more functions.
fn number_of(count: usize) -> Result<u32, Memory>
    ensures { IfOk result (λ n. n ≡ count) }
{
    match u32::try_from(count) {
        Ok(number) => Ok(number),
        Err(_) => Err(Memory),
    }
}

/// What a call of the function with this number calls in the program.
fn erased_number(imports: &Imports<'_>, number: u32) -> Result<u32, Memory>
    ensures { IfOk result (λ n. n ≡ erased_number imports.now number (slice_get imports.now.functions number)) }
{
    match function_at(imports.text(), number) {
        Some(f) => number_in_program(imports, number, f),
        None => Ok(number),
    }
}

fn erased_callee(imports: &Imports<'_>, callee: Callee) -> Result<Callee, Memory>
    ensures { IfOk result (λ target. target ≡ erased_callee imports.now callee) }
{
    match callee {
        Callee::Symbol(Symbol::Function(number)) => {
            let number = erased_number(imports, number)?;
            Ok(Callee::Symbol(Symbol::Function(number)))
        }
        _ => Ok(callee),
    }
}

fn erased_op(alloc: Global, imports: &Imports<'_>, op: &Op) -> Result<Op, Memory>
    ensures { IfOk result (λ erased. erased ≡ erased_op imports.now op.now) }
{
    match op {
        Op::Call {
            to,
            ret,
            callee,
            args,
        } => {
            let callee = erased_callee(imports, *callee)?;
            copied_call(alloc, *to, *ret, callee, args.as_slice())
        }
        _ => copied_op(alloc, op),
    }
}

/// Whether an instruction is a guard or a check.
fn is_mark(op: &Op) -> bool
    ensures { result ≡ is_mark op.now }
{
    matches!(op, Op::Guard { .. } | Op::Check { .. })
}

/// Adds an instruction of the image as it is in the program; marks are none there.
fn push_erased(
    alloc: Global,
    list: &mut Items<Instr>,
    imports: &Imports<'_>,
    op: &Op,
) -> Result<(), Memory>
    ensures { OnOk result (list.new ≡ list.old ++ program_lines imports.now op.now) }
{
    if is_mark(op) {
        return Ok(());
    }
    let op = erased_op(alloc, imports, op)?;
    list.push(Instr { op, line: 0 })?;
    Ok(())
}

#[tactic(auto, using(crate::proofs::Erasing::lines_step, crate::proofs::Erasing::lines_end))]
fn push_instrs(
    alloc: Global,
    list: &mut Items<Instr>,
    imports: &Imports<'_>,
    instrs: &[Instr],
) -> Result<(), Memory>
    ensures { OnOk result (list.new ≡ list.old ++ lines_of imports.now instrs.now) }
{
    for instr in instrs {
        push_erased(alloc, list, imports, &instr.op)?;
    }
    Ok(())
}

fn erased_instrs(
    alloc: Global,
    imports: &Imports<'_>,
    instrs: &[Instr],
) -> Result<Items<Instr>, Memory>
    ensures { IfOk result (λ list. list ≡ lines_of imports.now instrs.now) }
{
    let mut list = Items::new(alloc);
    match push_instrs(alloc, &mut list, imports, instrs) {
        Ok(()) => Ok(list),
        Err(why) => {
            drop(list);
            Err(why)
        }
    }
}

fn push_block(
    alloc: Global,
    list: &mut Items<Block>,
    imports: &Imports<'_>,
    block: &Block,
) -> Result<(), Memory>
    ensures { OnOk result (list.new ≡ list.old ++ program_block imports.now block.now ∷ []) }
{
    let name = block.name.copied(alloc)?;
    let instrs = erased_instrs(alloc, imports, block.instrs.as_slice())?;
    list.push(Block { name, instrs })?;
    Ok(())
}

#[tactic(auto, using(lx_words::proofs::Lists::map_step, lx_words::proofs::Lists::map_end))]
fn push_blocks(
    alloc: Global,
    list: &mut Items<Block>,
    imports: &Imports<'_>,
    blocks: &[Block],
) -> Result<(), Memory>
    ensures { OnOk result (list.new ≡ list.old ++ map (program_block imports.now) blocks.now) }
{
    for block in blocks {
        push_block(alloc, list, imports, block)?;
    }
    Ok(())
}

fn erased_blocks(
    alloc: Global,
    imports: &Imports<'_>,
    blocks: &[Block],
) -> Result<Items<Block>, Memory>
    ensures { IfOk result (λ list. list ≡ map (program_block imports.now) blocks.now) }
{
    let mut list = Items::new(alloc);
    match push_blocks(alloc, &mut list, imports, blocks) {
        Ok(()) => Ok(list),
        Err(why) => {
            drop(list);
            Err(why)
        }
    }
}

fn erased_body(
    alloc: Global,
    imports: &Imports<'_>,
    body: &Option<Items<Block>>,
) -> Result<Option<Items<Block>>, Memory>
    ensures { IfOk result (λ erased. erased ≡ option_map (map (program_block imports.now)) body.now) }
{
    match body {
        Some(blocks) => {
            let blocks = erased_blocks(alloc, imports, blocks.as_slice())?;
            Ok(Some(blocks))
        }
        None => Ok(None),
    }
}

fn erased_function(alloc: Global, imports: &Imports<'_>, f: &Function) -> Result<Function, Memory>
    ensures { IfOk result (λ g. g ≡ program_function imports.now f.now) }
{
    let name = f.name.copied(alloc)?;
    let params = copies(alloc, f.params.as_slice())?;
    let locals = copies(alloc, f.locals.as_slice())?;
    let blocks = erased_body(alloc, imports, &f.blocks)?;
    Ok(Function {
        name,
        params,
        locals,
        ret: f.ret,
        blocks,
        line: f.line,
    })
}

fn push_function(
    alloc: Global,
    list: &mut Items<Function>,
    imports: &Imports<'_>,
    f: &Function,
) -> Result<(), Memory>
    ensures { OnOk result (list.new ≡ list.old ++ map (program_function imports.now) (filter is_of_program (f.now ∷ []))) }
{
    if is_wrapper(f) {
        return Ok(());
    }
    let f = erased_function(alloc, imports, f)?;
    list.push(f)?;
    Ok(())
}

#[tactic(auto, using(crate::proofs::Erasing::functions_step, crate::proofs::Erasing::functions_end))]
fn push_functions(
    alloc: Global,
    list: &mut Items<Function>,
    imports: &Imports<'_>,
    functions: &[Function],
) -> Result<(), Memory>
    ensures { OnOk result (list.new ≡ list.old ++ map (program_function imports.now) (filter is_of_program functions.now)) }
{
    for f in functions {
        push_function(alloc, list, imports, f)?;
    }
    Ok(())
}

fn program_functions(
    alloc: Global,
    imports: &Imports<'_>,
    functions: &[Function],
) -> Result<Items<Function>, Memory>
    ensures { IfOk result (λ list. list ≡ map (program_function imports.now) (filter is_of_program functions.now)) }
{
    let mut list = Items::new(alloc);
    match push_functions(alloc, &mut list, imports, functions) {
        Ok(()) => Ok(list),
        Err(why) => {
            drop(list);
            Err(why)
        }
    }
}

fn erased_functions(alloc: Global, m: &Module) -> Result<Items<Function>, Memory>
    ensures { IfOk result (λ list. list ≡ map (program_function m.now) (filter is_of_program m.now.functions)) }
{
    let imports = Imports::new(alloc, m)?;
    let list = program_functions(alloc, &imports, m.functions.as_slice())?;
    Ok(list)
}

/// The program of an image.
fn program_of(alloc: Global, m: &Module) -> Result<Module, Memory>
    ensures { IfOk result (λ program. program ≡ program_of m.now) }
{
    let types = copied_named_types(alloc, &m.types)?;
    let globals = copies(alloc, m.globals.as_slice())?;
    let functions = erased_functions(alloc, m)?;
    Ok(Module {
        types,
        globals,
        functions,
    })
}

/// The program that has an image: its functions without guards and checks and without the wrappers, with the calls of imports'
/// wrappers as calls of the imports. The lines of its instructions are 0.
///
/// # Errors
/// Want of memory.
pub fn erase(alloc: Global, checked: &Checked) -> Result<Module, Memory>
    ensures { IfOk result (λ program. program ≡ program_of checked.now) }
{
    program_of(alloc, checked.image().module())
}
