//! Who owns what.
ghost use Rattle.std.specs.Prelude.{◌≡◌, ◌^◌, ◌-◌, ◌<◌, ◌≤◌, ◌++◌, false, map, IfOk, OnOk};
ghost use Rattle.std.specs.List.{flat_map};
ghost use Rattle.lx_caps.specs.declared.Principal.{Principal};
ghost use Rattle.lx_caps.specs.declared.Principal.TheVariants.{Inst};
ghost use Rattle.lx_caps.specs.History.{History};
ghost use Rattle.lx_model.specs.State.{module_principals};
ghost use Rattle.lx_slot_types.specs.Gets.{below};
ghost use Rattle.lx_world.specs.OwnerAccounts.{owned_as, owned_in};

use crate::owned::owned_caps;
use lx_caps::{Cap, CapStore, Principal};
use lx_model::account::Owned;
use lx_principals::Principals;
use lx_words::Memory;
use std::alloc::Global;

fn put_caps(out: &mut Vec<Owned>, who: Principal, caps: &[Cap]) -> Result<(), Memory>
    ensures { OnOk result (out.new.items ≡ out.old.items ++ map (owned_as who) caps.now) }
{
    for cap in caps {
        out.push(Owned { who, cap: *cap })?;
    }
    Ok(())
}

fn put_owner<C: CapStore>(
    alloc: Global,
    out: &mut Vec<Owned>,
    caps: &C,
    who: Principal,
    types: u32,
) -> Result<(), Memory>
    ensures { OnOk result ((h : History) → C.stands caps.now h → out.new.items ≡ out.old.items ++ owned_in types h who) }
{
    let owned = owned_caps(alloc, caps, who, types)?;
    put_caps(out, who, &owned)?;
    Ok(())
}

fn put_instances<C: CapStore>(
    alloc: Global,
    out: &mut Vec<Owned>,
    caps: &C,
    home: u32,
    count: u32,
    types: u32,
) -> Result<(), Memory>
    ensures { OnOk result ((h : History) → C.stands caps.now h → out.new.items ≡ out.old.items ++ flat_map (owned_in types h) (map (Inst home) (below count))) }
{
    for instance in 0..count {
        put_owner(alloc, out, caps, Principal::Inst(home, instance), types)?;
    }
    Ok(())
}

fn put_module<C: CapStore>(
    alloc: Global,
    out: &mut Vec<Owned>,
    caps: &C,
    names: &Principals,
    home: u32,
    types: u32,
) -> Result<(), Memory>
    requires { home < names.now.modules }
    ensures { OnOk result ((h : History) → C.stands caps.now h → out.new.items ≡ out.old.items ++ flat_map (owned_in types h) (module_principals names.now.names home)) }
{
    put_owner(alloc, out, caps, Principal::Shared(home), types)?;
    put_owner(alloc, out, caps, Principal::Global(home), types)?;
    let count = names.count(home);
    put_instances(alloc, out, caps, home, count, types)?;
    Ok(())
}

/// What the principals of the first `modules` modules own, module by module: bytes, calls, and references of the first `types`
/// types.
///
/// # Errors
/// Want of memory.
pub fn owners<C: CapStore>(
    alloc: Global,
    caps: &C,
    names: &Principals,
    modules: u32,
    types: u32,
) -> Result<Vec<Owned>, Memory>
    requires { modules ≤ names.now.modules }
    ensures { IfOk result (λ owners. (h : History) → C.stands caps.now h → owners.items ≡ flat_map (owned_in types h) (flat_map (module_principals names.now.names) (below modules))) }
{
    let mut out = Vec::new(alloc);
    for home in 0..modules {
        put_module(alloc, &mut out, caps, names, home, types)?;
    }
    Ok(out)
}
