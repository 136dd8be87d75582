//! Wrappers of functions.
ghost use Rattle.std.specs.Prelude.{◌≡◌, ◌<◌, ◌∷◌, [], Some, codes, length, map, option_map, slice_get, IfOk};
ghost use Rattle.lx_image_texts.specs.WrapperText.{empty_annotation, unlined, wrapper_code, wrapper_of};
ghost use Rattle.lx_wrap.specs.Sides.{meant};

use crate::lines::push_code;
use crate::names::{Side, result_names, wrapper_name};
use crate::signature::wrapper_params;
use lx_annot::action::{Actions, Annotation};
use lx_ir::instr::Instr;
use lx_ir::module::{Block, Function, Module};
use lx_words::{Items, Memory, Name};
use std::alloc::Global;

/// The lines of a wrapper.
fn wrapper_code(
    alloc: Global,
    f: &Function,
    number: u32,
    annotation: &Annotation,
) -> Result<Items<Instr>, Memory>
    ensures { IfOk result (λ code. code ≡ map unlined (wrapper_code f.now number annotation.now)) }
{
    let mut code = Items::new(alloc);
    match push_code(alloc, &mut code, f, number, annotation) {
        Ok(()) => Ok(code),
        Err(why) => {
            drop(code);
            Err(why)
        }
    }
}

/// The one block of a wrapper.
fn only_block(alloc: Global, name: Name, instrs: Items<Instr>) -> Result<Items<Block>, Memory>
    ensures { IfOk result (λ blocks. blocks ≡ record { name = name; instrs = instrs } ∷ []) }
{
    let mut blocks = Items::new(alloc);
    blocks.push(Block { name, instrs })?;
    Ok(blocks)
}

/// The body of a wrapper.
fn wrapper_blocks(
    alloc: Global,
    f: &Function,
    number: u32,
    annotation: &Annotation,
) -> Result<Items<Block>, Memory>
    ensures { IfOk result (λ blocks. blocks ≡ record { name = codes "0"; instrs = map unlined (wrapper_code f.now number annotation.now) } ∷ []) }
{
    let name = Name::from_bytes(alloc, b"0")?;
    let code = wrapper_code(alloc, f, number, annotation)?;
    only_block(alloc, name, code)
}

/// The wrapper of the function with this number in its module, for an annotation. Its lines are 0.
///
/// # Errors
/// Want of memory; more parameters or actions than numbers of 32 bits count are that too.
pub fn wrapper_of(
    alloc: Global,
    f: &Function,
    number: u32,
    annotation: &Annotation,
    side: Side,
) -> Result<Function, Memory>
    ensures { IfOk result (λ wrapper. wrapper ≡ wrapper_of f.now number annotation.now (meant side)) }
{
    let name = wrapper_name(alloc, side, f.name.as_slice())?;
    let params = wrapper_params(alloc, f.params.as_slice())?;
    let locals = result_names(alloc, f.ret)?;
    let blocks = wrapper_blocks(alloc, f, number, annotation)?;
    Ok(Function {
        name,
        params,
        locals,
        ret: f.ret,
        blocks: Some(blocks),
        line: 0,
    })
}

/// The wrapper of a function of a module, by its number there, for an annotation. Its lines are 0.
///
/// # Errors
/// Want of memory; more parameters or actions than numbers of 32 bits count are that too.
pub fn wrapper(
    alloc: Global,
    m: &Module,
    function: u32,
    annotation: &Annotation,
    side: Side,
) -> Result<Function, Memory>
    requires { function < length m.now.functions }
    ensures { IfOk result (λ wrapper. Some wrapper ≡ option_map (λ f. wrapper_of f function annotation.now (meant side)) (slice_get m.now.functions function)) }
{
    let f = &m.functions.as_slice()[function as usize];
    wrapper_of(alloc, f, function, annotation, side)
}

/// The annotation that says nothing.
fn empty_annotation(alloc: Global) -> Annotation
    ensures { result ≡ empty_annotation }
{
    Annotation {
        principal: None,
        pre: Actions::new(alloc),
        post: Actions::new(alloc),
    }
}

/// The wrapper of a function without an annotation: that of the empty one.
pub(crate) fn bare_wrapper(
    alloc: Global,
    f: &Function,
    number: u32,
    side: Side,
) -> Result<Function, Memory>
    ensures { IfOk result (λ wrapper. wrapper ≡ wrapper_of f.now number empty_annotation (meant side)) }
{
    let empty = empty_annotation(alloc);
    let made = wrapper_of(alloc, f, number, &empty, side);
    drop(empty);
    made
}
