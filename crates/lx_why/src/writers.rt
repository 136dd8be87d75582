//! The writers of a slot.
ghost use Rattle.std.specs.Prelude.{◌≡◌, ◌+◌, ◌<◌, ◌≤◌, ◌^◌, ◌++◌, ◌∷◌, [], map, filter, flat_map, IfOk, OnOk};
ghost use Rattle.lx_caps.specs.History.{History};
ghost use Rattle.lx_caps.specs.Writers.{is_slot_writer};
ghost use Rattle.lx_caps.specs.declared.Principal.TheVariants.{Inst};
ghost use Rattle.lx_model.specs.State.{module_principals};
ghost use Rattle.lx_slot_types.specs.Gets.{below};
ghost use Rattle.lx_writer_sets.specs.RecordedStands.{StandsRecorded};

use lx_caps::{CapStore, Principal};
use lx_principals::Principals;
use lx_words::{Items, Memory};
use lx_writer_sets::Recorded;
use std::alloc::Global;

/// The writers of a slot, in order.
pub(crate) type Writers = Items<Principal>;

/// Appends a principal, where it is a writer of the slot.
fn push_writer<C: CapStore + Drop>(
    writers: &mut Writers,
    caps: &Recorded<C>,
    slot: u64,
    who: Principal,
) -> Result<(), Memory>
    requires { slot + 8 ≤ 2 ^ 64 }
    ensures { OnOk result ((h : History) → StandsRecorded C.stands caps.now h → writers.new ≡ writers.old ++ filter (is_slot_writer h slot) (who ∷ [])) }
{
    if caps.is_slot_writer(slot, who) {
        writers.push(who)?;
    }
    Ok(())
}

/// Appends those of a module's first instances that are writers of the slot.
fn push_instances<C: CapStore + Drop>(
    writers: &mut Writers,
    caps: &Recorded<C>,
    slot: u64,
    home: u32,
    count: u32,
) -> Result<(), Memory>
    requires { slot + 8 ≤ 2 ^ 64 }
    ensures { OnOk result ((h : History) → StandsRecorded C.stands caps.now h → writers.new ≡ writers.old ++ filter (is_slot_writer h slot) (map (Inst home) (below count))) }
{
    for instance in 0..count {
        push_writer(writers, caps, slot, Principal::Inst(home, instance))?;
    }
    Ok(())
}

/// Appends those of a module's principals that are writers of the slot.
fn push_module<C: CapStore + Drop>(
    writers: &mut Writers,
    caps: &Recorded<C>,
    names: &Principals,
    slot: u64,
    home: u32,
) -> Result<(), Memory>
    requires there { home < names.now.modules }
    requires slot { slot + 8 ≤ 2 ^ 64 }
    ensures { OnOk result ((h : History) → StandsRecorded C.stands caps.now h → writers.new ≡ writers.old ++ filter (is_slot_writer h slot) (module_principals names.now.names home)) }
{
    push_writer(writers, caps, slot, Principal::Shared(home))?;
    push_writer(writers, caps, slot, Principal::Global(home))?;
    push_instances(writers, caps, slot, home, names.count(home))?;
    Ok(())
}

/// How many modules there are.
fn modules_of(names: &Principals) -> u32
    ensures { result ≡ names.now.modules }
{
    names.modules() as u32
}

/// The writers of a slot, in order, by a look at each principal.
fn all_writers<C: CapStore + Drop>(
    alloc: Global,
    caps: &Recorded<C>,
    names: &Principals,
    slot: u64,
) -> Result<Writers, Memory>
    requires { slot + 8 ≤ 2 ^ 64 }
    ensures { IfOk result (λ writers. (h : History) → StandsRecorded C.stands caps.now h
        → writers ≡ filter (is_slot_writer h slot) (flat_map (module_principals names.now.names) (below names.now.modules))) }
{
    let modules = modules_of(names);
    let mut writers = Items::new(alloc);
    for home in 0..modules {
        push_module(&mut writers, caps, names, slot, home)?;
    }
    Ok(writers)
}

/// The writers of a slot, in order: the principals that owned one of its eight bytes at some moment since that byte was
/// last zeroed.
///
/// # Errors
/// Want of memory.
pub(crate) fn writers_of<C: CapStore + Drop>(
    alloc: Global,
    caps: &Recorded<C>,
    names: &Principals,
    slot: u64,
) -> Result<Writers, Memory>
    requires { slot + 8 ≤ 2 ^ 64 }
    ensures { IfOk result (λ writers. (h : History) → StandsRecorded C.stands caps.now h
        → writers ≡ filter (is_slot_writer h slot) (flat_map (module_principals names.now.names) (below names.now.modules))) }
{
    if caps.is_clean(slot) {
        return Ok(Items::new(alloc));
    }
    let writers = all_writers(alloc, caps, names, slot)?;
    Ok(writers)
}
