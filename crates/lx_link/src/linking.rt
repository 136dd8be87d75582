//! Linking.
ghost use Rattle.std.specs.Prelude.{◌≡◌, ◌<◌, ◌≤◌, ◌^◌, ◌⊎◌, All, IfOk, None, OnErr, Some, length};
ghost use Rattle.lx_ir.specs.Lawful.{IsPlain};
ghost use Rattle.lx_annot.specs.Lawful.{IsLawfulInterface};
ghost use Rattle.lx_link_texts.specs.Faults.{Gives, all_annotated, limit_fault, most_functions};
ghost use Rattle.lx_link_texts.specs.Placing.{HasLimits, program_of};
ghost use Rattle.lx_link.specs.Answers.{IsFaultOr, IsWanted, Stops, StopsOr, link_fault, linked_of, named_modules, source_fault, sources_of};
ghost use Rattle.lx_link.specs.Calls.{calls_of, script_fault};

use crate::calls::check_script;
use crate::fault::LinkFault;
use crate::link_laws;
use crate::linked::{Linked, LinkedParts};
use crate::means::Means;
use crate::texts::VerifiedTexts;
use lx_link_texts::fault::Found;
use lx_link_texts::sources::Sources;
use lx_link_texts::{check_limits, check_texts};
use lx_model::program::{Calls, Program};
use lx_name_tables::ProgramNames;
use lx_script::Case;
use lx_slot_types::Annotated;
use lx_words::{Items, Memory};
use std::alloc::Global;

/// The fault that is answered for one that was found, or want of memory for its names.
#[tactic(auto, using(crate::proofs::Passes::is_answer, crate::proofs::Passes::not_named))]
fn stopped<M: Means>(means: &M, case: &Case, found: &Found<'_>) -> LinkFault
    ensures { IsFaultOr (M.unnamed means.now) case.now (Some found.now) result }
{
    match means.answered(case, found) {
        Ok(fault) => fault,
        Err(_) => LinkFault::Memory,
    }
}

/// Finds the first fault of the texts and of the limits, without memory.
#[tactic(auto, using(lx_link_texts::proofs::Passes::first_answer, lx_link_texts::proofs::Passes::passed))]
fn check<'a>(sources: &'a Sources, annotated: &[Annotated]) -> Result<(), Found<'a>>
    requires limits { HasLimits sources.now }
    requires annotated { annotated.now ≡ all_annotated sources.now }
    ensures { Gives (source_fault sources.now) result }
{
    check_texts(sources, annotated)?;
    check_limits(sources)?;
    Ok(())
}

/// Answers the first fault of the texts and of the limits.
fn check_sources<M: Means>(
    means: &M,
    case: &Case,
    sources: &Sources,
    annotated: &[Annotated],
) -> Result<(), LinkFault>
    requires limits { HasLimits sources.now }
    requires annotated { annotated.now ≡ all_annotated sources.now }
    ensures { StopsOr (M.unnamed means.now) case.now (source_fault sources.now) result }
{
    match check(sources, annotated) {
        Ok(()) => Ok(()),
        Err(fault) => Err(stopped(means, case, &fault)),
    }
}

/// The program of texts without a fault.
#[tactic(auto, using(crate::proofs::Passes::globals_fit))]
fn place<M: Means>(means: &M, sources: Sources) -> Result<Program, Memory>
    requires limits { HasLimits sources }
    requires faultless { source_fault sources ≡ None }
    ensures ok { IfOk result (λ program. program ≡ program_of sources) }
    ensures err { OnErr result (M.lacks means.now) }
{
    let functions = means.functions(&sources)?;
    let globals = means.globals(&sources)?;
    Ok(Program {
        kernel: sources.kernel,
        modules: sources.modules,
        functions,
        globals,
        interface: sources.interface,
    })
}

/// Answers the first fault of the script.
fn check_calls<M: Means>(means: &M, case: &Case, names: &ProgramNames<'_>) -> Result<(), LinkFault>
    ensures { StopsOr (M.unnamed means.now) case.now (script_fault names.now case.now.threads) result }
{
    match check_script(names, case.threads.as_slice()) {
        Ok(()) => Ok(()),
        Err(found) => Err(stopped(means, case, &found)),
    }
}

/// The calls of the script, over the names of its program.
#[tactic(auto, using(crate::proofs::Passes::calls_stop, crate::proofs::Passes::lacked))]
fn named_calls<M: Means>(
    means: &M,
    case: &Case,
    names: &ProgramNames<'_>,
) -> Result<Items<Calls>, LinkFault>
    ensures fault { StopsOr (M.unnamed means.now ⊎ M.lacks means.now) case.now (script_fault names.now case.now.threads) result }
    ensures ok { IfOk result (λ calls. calls ≡ calls_of names.now case.now.threads) }
{
    check_calls(means, case, names)?;
    let calls = means.resolve(names, case.threads.as_slice())?;
    Ok(calls)
}

/// The calls of the script, or its first fault. The names of the program are put in tables once.
fn script_calls<M: Means>(
    means: &M,
    case: &Case,
    program: &Program,
) -> Result<Items<Calls>, LinkFault>
    requires { length program.now.functions ≤ most_functions }
    ensures fault { StopsOr (M.unnamed means.now ⊎ M.lacks means.now) case.now (script_fault program.now case.now.threads) result }
    ensures ok { IfOk result (λ calls. calls ≡ calls_of program.now case.now.threads) }
{
    let names = means.names(program);
    let calls = named_calls(means, case, &names);
    drop(names);
    calls
}

/// Links texts within the limits. What the texts and the limits have of faults is found before a table is made.
#[tactic(auto, using(crate::proofs::Passes::few_functions, crate::proofs::Passes::source_stops, crate::proofs::Passes::no_table, crate::proofs::Passes::script_stops, crate::proofs::Passes::all_passed))]
fn link_sources<M: Means>(
    means: &M,
    case: &Case,
    sources: Sources,
    annotated: &[Annotated],
) -> Result<LinkedParts, LinkFault>
    requires limits { HasLimits sources }
    requires annotated { annotated.now ≡ all_annotated sources }
    ensures fault { StopsOr (IsWanted (M.unnamed means.now) (M.lacks means.now) sources) case.now (link_fault sources case.now) result }
    ensures ok { IfOk result (λ parts. parts ≡ linked_of sources case.now) }
{
    check_sources(means, case, &sources, annotated)?;
    let program = place(means, sources)?;
    let calls = script_calls(means, case, &program)?;
    Ok(LinkedParts { program, calls })
}

/// Links over any means.
#[tactic(auto, using(crate::proofs::Passes::lacked, crate::proofs::Passes::either_wanted, crate::proofs::Modules::is_linked))]
fn link_by<M: Means>(
    means: &M,
    texts: VerifiedTexts,
    annotated: &[Annotated],
    case: &Case,
) -> Result<Linked, LinkFault>
    requires modules { length texts.modules.items ≡ length case.now.modules }
    requires kernel_plain { IsPlain texts.kernel }
    requires modules_plain { All IsPlain texts.modules.items }
    requires interface { IsLawfulInterface texts.interface }
    requires annotated { annotated.now ≡ all_annotated (sources_of texts.kernel texts.interface (named_modules case.now.modules texts.modules.items)) }
    ensures fault { StopsOr (M.unnamed means.now ⊎ M.lacks means.now) case.now (link_fault (sources_of texts.kernel texts.interface (named_modules case.now.modules texts.modules.items)) case.now) result }
    ensures ok { IfOk result (λ linked. linked ≡ linked_of (sources_of texts.kernel texts.interface (named_modules case.now.modules texts.modules.items)) case.now) }
{
    lx_link_texts::text_laws();
    link_laws();
    let sources = means.sources(texts, case.modules.as_slice())?;
    let parts = link_sources(means, case, sources, annotated)?;
    Ok(Linked::new(parts))
}

/// Links a kernel, an interface and the modules of a case, and gives the calls of the case by numbers and words. The texts are
/// taken, and stand in the program; where it comes to a fault, they are gone. There are as many modules as the case has, in its
/// order, and `annotated` has for each the functions that have a slot type.
///
/// # Errors
/// The first fault, in this order: an indirect call of the kernel (5); an export that the kernel lacks (1) or has with
/// another signature (3); an import of the kernel that is neither a native nor a call through a slot (1) or has
/// another signature (3); an import of a module that the kernel lacks (1), that is not exported (2) or that has another
/// signature (3); an annotated function with another signature than its slot type (3); too many functions or bytes of
/// globals (4); a call whose target or whose argument's name is missing (1), or whose arguments do not fit (3).
/// `Memory` where there was not enough: for the names of the modules, for the names in the fault, or, where neither the texts
/// nor the limits have a fault, for what is linked. Behind the names of the modules, all faults but those of calls are found
/// without memory.
#[tactic(auto, using(crate::proofs::Passes::any_want))]
pub fn link(
    alloc: Global,
    texts: VerifiedTexts,
    annotated: &[Annotated],
    case: &Case,
) -> Result<Linked, LinkFault>
    requires modules { length texts.modules.items ≡ length case.now.modules }
    requires kernel_plain { IsPlain texts.kernel }
    requires modules_plain { All IsPlain texts.modules.items }
    requires interface { IsLawfulInterface texts.interface }
    requires annotated { annotated.now ≡ all_annotated (sources_of texts.kernel texts.interface (named_modules case.now.modules texts.modules.items)) }
    ensures fault { Stops case.now (link_fault (sources_of texts.kernel texts.interface (named_modules case.now.modules texts.modules.items)) case.now) result }
    ensures ok { IfOk result (λ linked. linked ≡ linked_of (sources_of texts.kernel texts.interface (named_modules case.now.modules texts.modules.items)) case.now) }
{
    let linked = link_by(&alloc, texts, annotated, case)?;
    Ok(linked)
}
