//! What each module owns before the first call.
ghost use Rattle.std.specs.Prelude.{◌≡◌, ◌≤◌, true, OnOk, Some, length, nat_lt, if◌then◌else◌};
ghost use Rattle.lx_caps.specs.History.{History};
ghost use Rattle.lx_code.specs.Targets.{target_of};
ghost use Rattle.lx_ir.specs.Layout.{size_of};
ghost use Rattle.lx_link_texts.specs.WellFormed.{IsWellFormed};
ghost use Rattle.lx_model.specs.Program.{module_of, target};
ghost use Rattle.lx_model.specs.Opening.{call_granted, calls_granted, global_granted, global_of, globals_granted, is_global_of, module_opened, modules_opened};
ghost use Rattle.lx_opening.specs.Ordered.{AreOrdered, IsSplit, rank};
ghost use Rattle.lx_opening.specs.Placed.{IsGlobalPlaced};
ghost use Rattle.lx_slot_types.specs.Gets.{below};

use crate::inits::global_of;
use lx_caps::{Cap, CapStore, Principal, cells};
use lx_code::{Code, Target};
use lx_ir::module::GlobalVar;
use lx_ir::size_of;
use lx_model::program::ProgramGlobal;
use lx_words::{Memory, number_of};

/// How many bytes a global takes.
fn global_size(code: &Code, global: &ProgramGlobal, variable: &GlobalVar) -> u64
    requires placed { IsGlobalPlaced code.now global.now }
    requires there { Some variable.now ≡ global_of code.now global.now }
    ensures { result ≡ size_of (module_of code.now global.now.«module»).types variable.now.ty }
{
    size_of(code.text(global.module), &variable.ty)
}

/// Makes room for so many acts.
fn reserve<C: CapStore>(caps: &mut C, acts: u64) -> Result<(), Memory>
    ensures room { OnOk result (acts ≤ C.spare caps.new) }
    ensures stays { (h : History) → C.stands caps.old h → C.stands caps.new h }
{
    match caps.reserve(acts) {
        Ok(()) => Ok(()),
        Err(_) => Err(Memory),
    }
}

/// Gives a module its global, and takes it again where it is constant.
#[tactic(auto, using(crate::proofs::Globals::placed_range))]
fn grant_global<C: CapStore>(
    caps: &mut C,
    code: &Code,
    home: u32,
    global: &ProgramGlobal,
) -> Result<(), Memory>
    requires placed { IsGlobalPlaced code.now global.now }
    requires home { is_global_of home global.now ≡ true }
    ensures { OnOk result ((h : History) → C.stands caps.old h → C.stands caps.new (global_granted code.now home global.now (global_of code.now global.now) h)) }
{
    if let Some(variable) = global_of(code, global) {
        let cap = Cap::Write {
            at: global.at,
            size: global_size(code, global, variable),
        };
        reserve(caps, cells(cap) + 1)?;
        caps.grant(Principal::Shared(home), cap);
        if variable.constant {
            caps.strip(cap);
        }
    }
    Ok(())
}

fn is_global_of(home: u32, global: &ProgramGlobal) -> bool
    ensures { result ≡ is_global_of home global.now }
{
    match global.module {
        Some(number) => number == home,
        None => false,
    }
}

/// Gives a module the global, if it is the module's own.
fn grant_own<C: CapStore>(
    caps: &mut C,
    code: &Code,
    home: u32,
    global: &ProgramGlobal,
) -> Result<(), Memory>
    requires { IsGlobalPlaced code.now global.now }
    ensures { OnOk result ((h : History) → C.stands caps.old h
        → C.stands caps.new (if is_global_of home global.now then global_granted code.now home global.now (global_of code.now global.now) h else h)) }
{
    if is_global_of(home, global) {
        grant_global(caps, code, home, global)?;
    }
    Ok(())
}

/// The place of a text among the texts: the kernel's is the first.
fn rank(home: Option<u32>) -> u64
    ensures { result ≡ rank home }
{
    match home {
        None => 0,
        Some(number) => u64::from(number) + 1,
    }
}

/// How many globals stand in the texts before the one at this place. They stand in the order of their texts.
fn count_before(globals: &[ProgramGlobal], text: u64) -> usize
    requires { AreOrdered globals.now }
    ensures within { result ≤ length globals.now }
    ensures split { IsSplit text globals.now result }
{
    globals.partition_point(
        |global: &ProgramGlobal| -> bool
            ensures { result ≡ nat_lt (rank global.now.«module») text }
        { rank(global.module) < text },
    )
}

/// Gives a module its globals, which stand beside each other.
fn grant_globals<C: CapStore>(caps: &mut C, code: &Code, home: u32) -> Result<(), Memory>
    requires { IsWellFormed code.now }
    ensures { OnOk result ((h : History) → C.stands caps.old h → C.stands caps.new (globals_granted code.now home code.now.globals h)) }
{
    let globals = code.program().globals.as_slice();
    let start = count_before(globals, u64::from(home) + 1);
    let end = count_before(globals, u64::from(home) + 2);
    for place in start..end {
        grant_own(caps, code, home, &globals[place])?;
    }
    Ok(())
}

/// Gives a module the call of what its function names: of a function of the kernel, or of the module itself.
fn grant_target<C: CapStore>(caps: &mut C, home: u32, target: Target) -> Result<(), Memory>
    ensures { OnOk result ((h : History) → C.stands caps.old h → C.stands caps.new (call_granted home (target_of target) h)) }
{
    match target {
        Target::Import(number) | Target::Own(number) => {
            reserve(caps, 1)?;
            caps.grant(
                Principal::Shared(home),
                Cap::Call {
                    at: 0x10000 + 16 * u64::from(number),
                },
            );
        }
        Target::Native(_) | Target::Slot(_) | Target::Nowhere => {}
    }
    Ok(())
}

/// Gives a module the calls of the functions of the kernel that it declares, and of those that it defines.
fn grant_calls<C: CapStore>(caps: &mut C, code: &Code, home: u32) -> Result<(), Memory>
    ensures { OnOk result ((h : History) → C.stands caps.old h
        → C.stands caps.new (calls_granted code.now home (below (length (module_of code.now (Some home)).functions)) h)) }
{
    let count = number_of(code.text(Some(home)).functions.items.len())?;
    for function in 0..count {
        grant_target(caps, home, code.target(Some(home), function))?;
    }
    Ok(())
}

/// Gives a module what it owns before the first call.
fn open_module<C: CapStore>(caps: &mut C, code: &Code, home: u32) -> Result<(), Memory>
    requires { IsWellFormed code.now }
    ensures { OnOk result ((h : History) → C.stands caps.old h → C.stands caps.new (module_opened code.now home h)) }
{
    grant_globals(caps, code, home)?;
    grant_calls(caps, code, home)?;
    Ok(())
}

/// Gives each module what it owns before the first call.
pub(crate) fn open_modules<C: CapStore>(caps: &mut C, code: &Code) -> Result<(), Memory>
    requires { IsWellFormed code.now }
    ensures { OnOk result ((h : History) → C.stands caps.old h → C.stands caps.new (modules_opened code.now (below (length code.now.modules)) h)) }
{
    let count = number_of(code.program().modules.items.len())?;
    for home in 0..count {
        open_module(caps, code, home)?;
    }
    Ok(())
}
