//! The capabilities that a principal owns, in order.
ghost use Rattle.std.specs.Prelude.{◌≡◌, ◌++◌, IfOk, OnOk};
ghost use Rattle.std.specs.List.{flat_map};
ghost use Rattle.lx_caps.specs.History.{History};
ghost use Rattle.lx_caps.specs.Order.{AreCallsAndRefs};
ghost use Rattle.lx_model.specs.Owned.{owned_caps, owned_ranges};
ghost use Rattle.lx_world.specs.Atoms.{caps_of};

use lx_caps::{Atom, Cap, CapStore, Principal};
use lx_words::Memory;
use std::alloc::Global;

/// The greatest ranges of owned bytes, in order.
#[tactic(auto, using(crate::proofs::Ranges::ranges_are))]
fn owned_ranges<C: CapStore>(alloc: Global, caps: &C, who: Principal) -> Result<Vec<Cap>, Memory>
    ensures { IfOk result (λ cs. (h : History) → C.stands caps.now h → cs.items ≡ owned_ranges h who) }
{
    match caps.byte_ranges(alloc, who) {
        Ok(ranges) => Ok(ranges),
        Err(_) => Err(Memory),
    }
}

/// What is listed of an atom.
fn put_atom(out: &mut Vec<Cap>, types: u32, atom: Atom) -> Result<(), Memory>
    ensures { OnOk result (out.new.items ≡ out.old.items ++ caps_of types atom) }
{
    match atom {
        Atom::Call(at) => out.push(Cap::Call { at })?,
        Atom::Ref(ty, at) if ty < types => out.push(Cap::Ref { ty, at })?,
        _ => (),
    }
    Ok(())
}

fn put_atoms(out: &mut Vec<Cap>, types: u32, atoms: &[Atom]) -> Result<(), Memory>
    ensures { OnOk result (out.new.items ≡ out.old.items ++ flat_map (caps_of types) atoms.now) }
{
    for atom in atoms {
        put_atom(out, types, *atom)?;
    }
    Ok(())
}

/// The calls and references that a principal owns, in order.
fn calls_and_refs<C: CapStore>(alloc: Global, caps: &C, who: Principal) -> Result<Vec<Atom>, Memory>
    ensures { IfOk result (λ atoms. (h : History) → C.stands caps.now h → AreCallsAndRefs h who atoms.items) }
{
    match caps.calls_and_refs(alloc, who) {
        Ok(atoms) => Ok(atoms),
        Err(_) => Err(Memory),
    }
}

/// What a principal owns: the greatest ranges of bytes, then the calls, then the references of each of the first `types`
/// types, each in ascending order.
pub fn owned_caps<C: CapStore>(
    alloc: Global,
    caps: &C,
    who: Principal,
    types: u32,
) -> Result<Vec<Cap>, Memory>
    ensures { IfOk result (λ cs. (h : History) → C.stands caps.now h → cs.items ≡ owned_caps types h who) }
{
    let mut owned = owned_ranges(alloc, caps, who)?;
    let atoms = calls_and_refs(alloc, caps, who)?;
    put_atoms(&mut owned, types, &atoms)?;
    Ok(owned)
}
