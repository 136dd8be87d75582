//! The function at an address, where it may be entered.
ghost use Rattle.std.specs.Prelude.{◌≡◌, ◌≤◌, ◌||◌, Some, length};
ghost use Rattle.lx_model.specs.Enter.{clean_target, not_annotated, text_of_principal, written_target};
ghost use Rattle.lx_model.specs.Program.{function_at, is_annotated, is_in};
ghost use Rattle.lx_model.specs.declared.program.Program.{Program};
ghost use Rattle.lx_serve.specs.Sources.{Knows};
ghost use Rattle.lx_serve.specs.Texts.{HasTexts};
ghost use Rattle.lx_serve.specs.Targets.{Finds, unless_fitting, unless_known, unless_same, unless_target};
ghost use Rattle.lx_serve.specs.declared.halt.Halt.TheVariants.{Ended};

use crate::halt::Halt;
use crate::source::{Source, has_annotation, is_annotated};
use crate::texts::Texts;
use lx_call_targets::{fits_params, function_at, has_signature, is_in};
use lx_caps::Principal;
use lx_model::program::Program;
use lx_model::request::{Outcome, Refusal, Trap};
use lx_words::Word;

/// Whose text a principal runs.
pub(crate) fn text_of(who: Principal) -> Option<u32>
    ensures { result ≡ text_of_principal who }
{
    match who {
        Principal::Kernel => None,
        Principal::Shared(home) | Principal::Global(home) | Principal::Inst(home, _) => Some(home),
    }
}

fn not_annotated(who: Principal, at: u64) -> Halt
    ensures { result ≡ Ended (not_annotated who at) }
{
    Halt::Ended(Outcome::Refused(Refusal::NotAnnotated { who, at }))
}

/// Whether a function may be entered from a text: one of the text itself, or one that is annotated.
fn is_known(program: &Program, sources: &[Option<Source>], text: Option<u32>, function: u32) -> bool
    ensures { Knows program.now sources.now → result ≡ (is_in program.now text function || is_annotated program.now function) }
{
    is_in(program, text, function) || is_annotated(program, sources, function)
}

/// The function at an address that may be entered from a text.
#[tactic(auto, using(crate::proofs::Targeted::known_none, crate::proofs::Targeted::known_off, crate::proofs::Targeted::known_on))]
fn known_at(
    program: &Program,
    sources: &[Option<Source>],
    text: Option<u32>,
    who: Principal,
    at: u64,
) -> Result<u32, Halt>
    requires { length program.now.functions ≤ 0x100000000 }
    ensures { Knows program.now sources.now → Finds (function_at program.now at) (unless_known program.now text who at (function_at program.now at)) result }
{
    match function_at(program, at) {
        Some(function) => {
            if is_known(program, sources, text, function) {
                Ok(function)
            } else {
                Err(not_annotated(who, at))
            }
        }
        None => Err(not_annotated(who, at)),
    }
}

/// The function at an address, where arguments fit it.
pub(crate) fn target(
    program: &Program,
    sources: &[Option<Source>],
    who: Principal,
    at: u64,
    args: &[Word],
) -> Result<u32, Halt>
    requires { length program.now.functions ≤ 0x100000000 }
    ensures { Knows program.now sources.now → Finds (function_at program.now at) (unless_target program.now who at args.now (function_at program.now at)) result }
{
    let function = known_at(program, sources, text_of(who), who, at)?;
    if fits_params(program, args, function) {
        Ok(function)
    } else {
        Err(Halt::Ended(Outcome::Trapped(Trap::Signature { at })))
    }
}

/// The function at the address in a slot that nobody wrote in.
pub(crate) fn clean_target(
    program: &Program,
    sources: &[Option<Source>],
    who: Principal,
    at: u64,
) -> Result<u32, Halt>
    requires { length program.now.functions ≤ 0x100000000 }
    ensures { Knows program.now sources.now → Finds (function_at program.now at) (clean_target program.now who at (function_at program.now at)) result }
{
    match known_at(program, sources, None, who, at) {
        Ok(function) => Ok(function),
        Err(halt) => Err(halt),
    }
}

/// The function at an address, where it has the annotation of a slot type.
fn annotated_as(
    texts: &Texts,
    sources: &[Option<Source>],
    who: Principal,
    at: u64,
    ty: u32,
    function: u32,
) -> Result<u32, Halt>
    ensures { (p : Program) → HasTexts p.interface texts.now → Knows p sources.now → Finds (Some function) (unless_same p who at ty function) result }
{
    if has_annotation(texts, sources, ty, function) {
        Ok(function)
    } else {
        Err(Halt::Ended(Outcome::Refused(Refusal::OtherAnnotation {
            who,
            at,
            slot: ty,
            function,
        })))
    }
}

/// The function at the address in a slot that has writers.
pub(crate) fn written_target(
    program: &Program,
    texts: &Texts,
    sources: &[Option<Source>],
    who: Principal,
    at: u64,
    ty: u32,
) -> Result<u32, Halt>
    requires { length program.now.functions ≤ 0x100000000 }
    ensures { HasTexts program.now.interface texts.now → Knows program.now sources.now → Finds (function_at program.now at) (written_target program.now who at ty (function_at program.now at)) result }
{
    match function_at(program, at) {
        Some(function) => {
            if is_annotated(program, sources, function) {
                annotated_as(texts, sources, who, at, ty, function)
            } else {
                Err(not_annotated(who, at))
            }
        }
        None => Err(not_annotated(who, at)),
    }
}

/// A function, where it has the signature of a slot type.
pub(crate) fn fitting(program: &Program, ty: u32, at: u64, function: u32) -> Result<u32, Halt>
    ensures { Finds (Some function) (unless_fitting program.now ty at (Some function)) result }
{
    if has_signature(program, ty, function) {
        Ok(function)
    } else {
        Err(Halt::Ended(Outcome::Trapped(Trap::Signature { at })))
    }
}
