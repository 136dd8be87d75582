//! Limits of a program: how many functions it has, and where its globals end. Both are reckoned without memory.
ghost use Rattle.std.specs.Prelude.{◌≡◌, ◌+◌, ◌<◌, ◌≤◌, ◌^◌, All, IfOk, None, OnErr, OnOk, codes, if◌then◌else◌, length, nat_le};
ghost use Rattle.lx_ir.specs.Lookup.{is_defined};
ghost use Rattle.lx_link_texts.specs.Faults.{Gives, fault, functions_fault, globals_fault, last_source, limit_fault};
ghost use Rattle.lx_link_texts.specs.Placing.{HasFewFunctions, HasGlobals, HasLawfulGlobals, HasLimits, end_behind, entries_from, functions_of, globals_end, last_end, module_entries, modules_end, start_behind};

use crate::fault::{FaultKind, Found, Source};
use crate::globals::{global_size, start_behind};
use crate::sources::Sources;
use lx_caps::{GLOBALS_START, REGION_SIZE};
use lx_ir::module::{Function, Module};
use lx_model::program::ProgramModule;

/// How many functions a program has at most.
const MOST_FUNCTIONS: u64 = 65_536;

/// How many natives there are.
const NATIVES: u64 = 6;

/// Where the region of globals ends.
const LAST_END: u64 = GLOBALS_START + REGION_SIZE;

/// Globals end past their region.
#[derive(Clone, Copy)]
struct PastRegion;

/// 1 for a function that its text defines.
fn one_if_defined(function: &Function) -> u64
    ensures count { result ≡ (if is_defined function.now then 1 else 0) }
    ensures few { result ≤ 1 }
{
    if function.blocks.is_some() { 1 } else { 0 }
}

/// How many functions a text defines.
#[tactic(auto, using(crate::proofs::Counts::counted_step, crate::proofs::Counts::counted_end))]
fn count_defined(functions: &[Function]) -> u64
    requires { length functions.now < 2 ^ 32 }
    ensures count { result ≡ length (entries_from None 0 functions.now) }
    ensures few { result < 2 ^ 32 }
{
    let mut count = 0;
    for function in functions {
        count += one_if_defined(function);
    }
    count
}

/// How many functions modules define, with those that were counted before.
#[tactic(auto, using(crate::proofs::Counts::module_counted_step, crate::proofs::Counts::module_counted_end))]
fn count_modules(modules: &[ProgramModule], before: u64) -> u64
    requires few { length modules.now < 2 ^ 32 }
    requires functions { All HasFewFunctions modules.now }
    requires before { before < 4294967302 }
    ensures { result ≡ before + length (module_entries 0 modules.now) }
{
    let mut count = before;
    for entry in modules {
        count += count_defined(entry.module.functions.as_slice());
    }
    count
}

/// How many functions the program has: the natives, those that the kernel defines, and those of each module.
#[tactic(auto, using(crate::proofs::Counts::all_counted))]
fn function_count(sources: &Sources) -> u64
    requires { HasLimits sources.now }
    ensures { result ≡ length (functions_of sources.now) }
{
    let kernel = count_defined(sources.kernel.functions.as_slice());
    count_modules(sources.modules.as_slice(), NATIVES + kernel)
}

/// Where a global ends that is placed behind an end.
fn next_end(end: u64, size: u64) -> Result<u64, PastRegion>
    requires end { end ≤ last_end }
    requires size { size ≤ 4294967296 }
    ensures ok { IfOk result (λ next. (next ≡ start_behind end + size) × (next ≤ last_end)) }
    ensures err { OnErr result (last_end < start_behind end + size) }
{
    let next = start_behind(end) + size;
    if next > LAST_END {
        return Err(PastRegion);
    }
    Ok(next)
}

/// Where the globals of a text end that are placed behind an end.
#[tactic(auto, using(crate::proofs::Places::end_step, crate::proofs::Places::end_all, crate::proofs::Places::past_step))]
fn end_behind(m: &Module, from: u64) -> Result<u64, PastRegion>
    requires lawful { HasLawfulGlobals m.now }
    requires end { from ≤ last_end }
    ensures ok { IfOk result (λ next. (next ≡ end_behind m.now.types from m.now.globals) × (next ≤ last_end)) }
    ensures err { OnErr result (last_end < end_behind m.now.types from m.now.globals) }
{
    let mut end = from;
    for global in m.globals.as_slice() {
        let size = global_size(m, global);
        end = next_end(end, size)?;
    }
    Ok(end)
}

/// Whether the globals of modules that are placed behind an end do not end past the region.
#[tactic(auto, using(crate::proofs::Places::modules_end_step, crate::proofs::Places::modules_end_all, crate::proofs::Places::past_modules))]
fn modules_end(modules: &[ProgramModule], from: u64) -> Result<u64, PastRegion>
    requires lawful { All HasGlobals modules.now }
    requires end { from ≤ last_end }
    ensures ok { IfOk result (λ next. (next ≡ modules_end from modules.now) × (next ≤ last_end)) }
    ensures err { OnErr result (last_end < modules_end from modules.now) }
{
    let mut end = from;
    for entry in modules {
        end = end_behind(&entry.module, end)?;
    }
    Ok(end)
}

/// Where the last global ends.
#[tactic(auto, using(crate::proofs::Places::past_kernel), unfolding(crate::specs::Placing::globals_end))]
fn globals_end(sources: &Sources) -> Result<u64, PastRegion>
    requires { HasLimits sources.now }
    ensures ok { OnOk result (globals_end sources.now ≤ last_end) }
    ensures err { OnErr result (last_end < globals_end sources.now) }
{
    let end = end_behind(&sources.kernel, GLOBALS_START)?;
    let last = modules_end(sources.modules.as_slice(), end)?;
    Ok(last)
}

/// Whether the globals end within their region.
#[tactic(auto, using(lx_words::proofs::Tests::le_true, lx_words::proofs::Tests::not_at_most))]
pub fn do_globals_fit(sources: &Sources) -> bool
    requires { HasLimits sources.now }
    ensures { result ≡ nat_le (globals_end sources.now) last_end }
{
    match globals_end(sources) {
        Ok(_) => true,
        Err(_) => false,
    }
}

/// The text that is past a limit: the last module, or the kernel where there is none.
fn last_source(sources: &Sources) -> Source
    requires { length sources.now.modules < 2 ^ 32 }
    ensures { result ≡ last_source sources.now.modules }
{
    if sources.modules.is_empty() {
        Source::Kernel
    } else {
        Source::Module((sources.modules.len() - 1) as u32)
    }
}

/// The fault of a limit, with the word for it.
fn past<'a>(sources: &Sources, name: &'a [u8]) -> Found<'a>
    requires { length sources.now.modules < 2 ^ 32 }
    ensures { result ≡ fault FaultKind.TooLarge (last_source sources.now.modules) 1 name.now }
{
    Found {
        kind: FaultKind::TooLarge,
        source: last_source(sources),
        line: 1,
        name,
    }
}

#[tactic(auto, using(crate::proofs::Passes::is_within, crate::proofs::Passes::is_past))]
fn check_functions(sources: &Sources) -> Result<(), Found<'_>>
    requires { HasLimits sources.now }
    ensures { Gives (functions_fault sources.now) result }
{
    if function_count(sources) > MOST_FUNCTIONS {
        return Err(past(sources, b"functions"));
    }
    Ok(())
}

fn check_globals(sources: &Sources) -> Result<(), Found<'_>>
    requires { HasLimits sources.now }
    ensures { Gives (globals_fault sources.now) result }
{
    if do_globals_fit(sources) {
        Ok(())
    } else {
        Err(past(sources, b"globals"))
    }
}

/// Finds the limit that the texts are past: they have more functions than a program has numbers for, or their globals
/// end past their region. It takes no memory, so want of it never stands in the place of such a fault.
#[tactic(auto, using(crate::proofs::Passes::first_answer, crate::proofs::Passes::passed))]
pub fn check_limits(sources: &Sources) -> Result<(), Found<'_>>
    requires { HasLimits sources.now }
    ensures { Gives (limit_fault sources.now) result }
{
    check_functions(sources)?;
    check_globals(sources)?;
    Ok(())
}
