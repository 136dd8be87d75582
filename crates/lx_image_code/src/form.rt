//! The form of wrappers: code in which a function is named as a wrapper and has not the form of one does not run.
ghost use Rattle.std.specs.Prelude.{◌≡◌, false, IfErr, IsTrue, MatchOption, List, OnOk, Some, not, slice_get, true, drop, length, map, option_and_then, option_copied, position};
ghost use Rattle.lx_ir.specs.declared.module.Module.{Module};
ghost use Rattle.lx_images.specs.Wrappers.{lines_of};
ghost use Rattle.lx_images.specs.WrapperForm.{calls_on, first_named, first_unformed, gives_back, hands_on, has_formed_wrappers, has_name, have_formed_wrappers, is_before, is_behind, is_formed, is_formed_as, is_formed_by, is_function, is_one_block, is_register, is_wrapper, unformed_in, wraps_named};
ghost use Rattle.lx_image_code.specs.Form.{Tells, is_ret, ops_of};

use crate::fault::CodeFault;
use crate::functions::function_in;
use lx_ir::instr::{Argument, Callee, Instr, Op};
use lx_ir::module::{Function, Module, Symbol, Value};
use lx_ir_verify::Verified;
use lx_words::number_of;

fn is_function(symbol: Symbol, number: u32) -> bool
    ensures { result ≡ is_function number symbol }
{
    match symbol {
        Symbol::Function(other) => other == number,
        Symbol::Global(_) => false,
    }
}

fn is_register(value: Value, number: usize) -> bool
    ensures { result ≡ is_register number value }
{
    match value {
        Value::Register(other) => other as usize == number,
        Value::Constant(_) => false,
    }
}

// Whether the arguments are the parameters, in order.
#[tactic(auto, using(crate::proofs::FormSteps::hands_more, crate::proofs::FormSteps::hands_stop, crate::proofs::FormSteps::hands_end))]
fn hands_on(args: &[Argument]) -> bool
    ensures { result ≡ hands_on 0 args.now }
{
    for (place, argument) in args.iter().enumerate() {
        if !is_register(argument.value, place) {
            return false;
        }
    }
    true
}

// Whether a call calls the function with all its parameters.
fn calls_on(callee: Callee, args: &[Argument], number: u32, parameters: usize) -> bool
    ensures { result ≡ calls_on number parameters callee args.now }
{
    match callee {
        Callee::Symbol(symbol) => {
            is_function(symbol, number) && args.len() == parameters && hands_on(args)
        }
        Callee::Register(_) => false,
    }
}

// Whether what is returned is what the call gave.
fn gives_back(value: Option<Argument>, to: Option<u32>) -> bool
    ensures { result ≡ gives_back to value }
{
    match (to, value) {
        (None, None) => true,
        (Some(register), Some(argument)) => is_register(argument.value, register as usize),
        _ => false,
    }
}

// Whether one line is left, a `ret` of what the call gave.
fn is_last(lines: &[Instr], to: Option<u32>) -> bool
    ensures { result ≡ is_ret to (ops_of lines.now) }
{
    if lines.len() != 1 {
        return false;
    }
    match &lines[0].op {
        Op::Ret { value } => gives_back(*value, to),
        _ => false,
    }
}

// Whether these lines may stand behind the call: actions, the leaving, the `ret`.
#[tactic(auto, using(crate::proofs::FormSteps::behind_more, crate::proofs::FormSteps::behind_stop, crate::proofs::FormSteps::behind_leave, crate::proofs::FormSteps::behind_other, crate::proofs::FormSteps::behind_end))]
fn is_behind(lines: &[Instr], number: u32, to: Option<u32>) -> bool
    ensures { result ≡ is_behind number to (ops_of lines.now) }
{
    for (place, line) in lines.iter().enumerate() {
        match &line.op {
            Op::Post { f, .. } => {
                if !is_function(*f, number) {
                    return false;
                }
            }
            Op::Leave { f } => {
                return is_function(*f, number) && is_last(&lines[place + 1..], to);
            }
            _ => return false,
        }
    }
    false
}

// Whether these lines may stand behind the enter: actions, the call of the function with all its parameters, and what may stand
// behind it.
#[tactic(auto, using(crate::proofs::FormSteps::before_more, crate::proofs::FormSteps::before_stop, crate::proofs::FormSteps::before_call, crate::proofs::FormSteps::before_other, crate::proofs::FormSteps::before_end))]
fn is_before(lines: &[Instr], number: u32, parameters: usize) -> bool
    ensures { result ≡ is_before number parameters (ops_of lines.now) }
{
    for (place, line) in lines.iter().enumerate() {
        match &line.op {
            Op::Pre { f, .. } => {
                if !is_function(*f, number) {
                    return false;
                }
            }
            Op::Call {
                to,
                callee,
                args,
                ..
            } => {
                return calls_on(*callee, args.as_slice(), number, parameters)
                    && is_behind(&lines[place + 1..], number, *to);
            }
            _ => return false,
        }
    }
    false
}

// Whether these are the lines of a wrapper of the function with this number, which has so many parameters.
#[tactic(auto, using(crate::proofs::FormSteps::wrapper_first))]
fn is_wrapper(lines: &[Instr], number: u32, parameters: usize) -> bool
    ensures { result ≡ is_wrapper number parameters (ops_of lines.now) }
{
    if lines.is_empty() {
        return false;
    }
    match &lines[0].op {
        Op::Enter { f } => { is_function(*f, number) && is_before(&lines[1..], number, parameters) }
        _ => false,
    }
}

// The function that the first line enters, by its number.
fn first_named(lines: &[Instr]) -> Option<u32>
    ensures { result ≡ first_named (ops_of lines.now) }
{
    match lines.first() {
        Some(line) => match &line.op {
            Op::Enter {
                f: Symbol::Function(number),
            } => Some(*number),
            _ => None,
        },
        None => None,
    }
}

fn has_name(image: &Module, number: u32, name: &[u8]) -> bool
    ensures { result ≡ has_name (slice_get image.now.functions number) name.now }
{
    match function_in(image, number) {
        Some(function) => function.name.is_same(name),
        None => false,
    }
}

// Whether the lines are those of a wrapper of the function of this name, with so many parameters.
fn is_formed_by(image: &Module, f: &Function, name: &[u8], lines: &[Instr]) -> bool
    requires { ops_of lines.now ≡ lines_of (Some f.now) }
    ensures { result ≡ is_formed_by image.now f.now name.now (first_named (lines_of (Some f.now))) }
{
    match first_named(lines) {
        Some(number) => {
            has_name(image, number, name) && is_wrapper(lines, number, f.params.len())
        }
        None => false,
    }
}

// The lines of a function that has one block.
fn only_lines(f: &Function) -> Option<&[Instr]>
    ensures { MatchOption result (is_one_block f.now.blocks ≡ false) (λ lines. (is_one_block f.now.blocks ≡ true) × (ops_of lines.now ≡ lines_of (Some f.now))) }
{
    match &f.blocks {
        Some(blocks) => match blocks.as_slice() {
            [block] => Some(block.instrs.as_slice()),
            _ => None,
        },
        None => None,
    }
}

// The name that a wrapper's name says: what stands behind the prefix of wrappers.
fn wraps_named(name: &[u8]) -> Option<&[u8]>
    ensures { option_copied result ≡ wraps_named name.now }
{
    if name.starts_with(b"lxfi.out.") {
        let (_, wrapped) = name.split_at(9);
        return Some(wrapped);
    }
    if name.starts_with(b"lxfi.in.") {
        let (_, wrapped) = name.split_at(8);
        return Some(wrapped);
    }
    None
}

// Whether a function that is named as the wrapper of this name has the form of one.
fn is_formed_as(image: &Module, f: &Function, name: &[u8]) -> bool
    ensures { result ≡ is_formed_as image.now f.now (Some name.now) }
{
    match only_lines(f) {
        Some(lines) => is_formed_by(image, f, name, lines),
        None => false,
    }
}

fn is_formed(image: &Module, f: &Function) -> bool
    ensures { result ≡ is_formed image.now f.now }
{
    match wraps_named(f.name.as_slice()) {
        Some(name) => is_formed_as(image, f, name),
        None => true,
    }
}

fn has_formed_wrappers(image: &Module) -> bool
    ensures { result ≡ has_formed_wrappers image.now }
{
    image
        .functions
        .as_slice()
        .iter()
        .all(|f| is_formed(image, f))
}

// The first function of an image that is named as a wrapper and has not the form of one.
fn unformed_in(image: &Module) -> Option<usize>
    ensures { result ≡ unformed_in image.now }
{
    image
        .functions
        .as_slice()
        .iter()
        .position(|f| !is_formed(image, f))
}

fn first_unformed_image(images: &[Verified]) -> Option<usize>
    ensures { result ≡ position (λ x. not (has_formed_wrappers x)) images.now }
{
    images
        .iter()
        .position(|image| !has_formed_wrappers(image.module()))
}

fn unformed_at(images: &[Verified], number: usize) -> Option<usize>
    ensures { result ≡ option_and_then unformed_in (slice_get images.now number) }
{
    match images.get(number) {
        Some(image) => unformed_in(image.module()),
        None => None,
    }
}

// The first function of these images that is named as a wrapper and has not the form of one: its image and its number there.
fn first_unformed(images: &[Verified]) -> Option<(usize, usize)>
    ensures { result ≡ first_unformed images.now }
{
    match first_unformed_image(images) {
        Some(image) => match unformed_at(images, image) {
            Some(function) => Some((image, function)),
            None => None,
        },
        None => None,
    }
}

// The fault of a function that is no wrapper.
fn wrapper_fault(image: usize, function: usize) -> CodeFault
    ensures { (images : List Module) → first_unformed images ≡ Some (image, function) → Tells images result }
{
    match (number_of(image), number_of(function)) {
        (Ok(module), Ok(function)) => CodeFault::Wrapper { module, function },
        _ => CodeFault::Memory,
    }
}

/// Looks at the form of each wrapper of these images.
///
/// # Errors
/// The first function that is named as a wrapper and has not the form of one; where its numbers have more than 32 bits, `Memory`.
#[tactic(auto, using(crate::proofs::FormSteps::all_formed))]
pub(crate) fn check_form(images: &[Verified]) -> Result<(), CodeFault>
    ensures formed { OnOk result (IsTrue (have_formed_wrappers images.now)) }
    ensures fault { IfErr result (Tells images.now) }
{
    match first_unformed(images) {
        Some((module, function)) => Err(wrapper_fault(module, function)),
        None => Ok(()),
    }
}
