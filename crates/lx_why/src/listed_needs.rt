//! Needs as they are listed: the kernel's are left out.
ghost use Rattle.std.specs.Prelude.{◌≡◌, ◌++◌, ◌∷◌, [], map, IfOk, OnOk};
ghost use Rattle.lx_model.specs.Authority.{is_module};
ghost use Rattle.lx_run_laws.specs.Needs.{to_hold};
ghost use Rattle.lx_why.specs.ListedNeeds.{AreOfModules, block_needs, of_modules};

use crate::Needs;
use lx_caps::{Cap, Principal};
use lx_certificates::Need;
use lx_words::{Items, Memory};
use std::alloc::Global;

fn is_module(who: Principal) -> bool
    ensures { result ≡ is_module who }
{
    !matches!(who, Principal::Kernel)
}

fn to_hold(who: Principal, cap: Cap) -> Need
    ensures { result ≡ to_hold who cap }
{
    Need {
        who,
        cap,
        kept: false,
    }
}

/// Appends a need, unless it is the kernel's.
pub(crate) fn push_need(needs: &mut Needs, need: Need) -> Result<(), Memory>
    ensures { OnOk result (needs.new ≡ needs.old ++ of_modules (need ∷ [])) }
{
    if is_module(need.who) {
        needs.push(need)?;
    }
    Ok(())
}

/// The need of one principal for one capability.
#[tactic(auto, using(crate::proofs::Listing::are_of_modules))]
pub(crate) fn one_need(alloc: Global, who: Principal, cap: Cap) -> Result<Needs, Memory>
    ensures needs { IfOk result (λ needs. needs ≡ of_modules (to_hold who cap ∷ [])) }
    ensures modules { IfOk result (λ needs. AreOfModules needs) }
{
    let mut needs = Items::new(alloc);
    push_need(&mut needs, to_hold(who, cap))?;
    Ok(needs)
}

/// The needs of several principals for one capability.
#[tactic(auto, using(crate::proofs::Listing::are_of_modules))]
pub(crate) fn needs_of_each(
    alloc: Global,
    principals: &[Principal],
    cap: Cap,
) -> Result<Needs, Memory>
    ensures needs { IfOk result (λ needs. needs ≡ of_modules (map (λ w. to_hold w cap) principals.now)) }
    ensures modules { IfOk result (λ needs. AreOfModules needs) }
{
    let mut needs = Items::new(alloc);
    for who in principals {
        push_need(&mut needs, to_hold(*who, cap))?;
    }
    Ok(needs)
}

/// What a block write needs: its bytes, and nothing where it has none.
#[tactic(auto, using(crate::proofs::Listing::are_of_modules))]
pub(crate) fn block_needs(
    alloc: Global,
    who: Principal,
    at: u64,
    size: u64,
) -> Result<Needs, Memory>
    ensures needs { IfOk result (λ needs. needs ≡ of_modules (block_needs who at size)) }
    ensures modules { IfOk result (λ needs. AreOfModules needs) }
{
    if size == 0 {
        return Ok(Items::new(alloc));
    }
    let needs = one_need(alloc, who, Cap::Write { at, size })?;
    Ok(needs)
}
