//! What a request needs.
ghost use Rattle.std.specs.Prelude.{◌≡◌, true, false, All, List, filter, IfOk};
ghost use Rattle.lx_words.specs.Word.{Word};
ghost use Rattle.lx_caps.specs.Memory.{Memory as Writes, number_at};
ghost use Rattle.lx_caps.specs.Regions.{mapped};
ghost use Rattle.lx_caps.specs.declared.Principal.{Principal};
ghost use Rattle.lx_actions.specs.Shown.{IsShownBy};
ghost use Rattle.lx_certificates.specs.Certificates.{is_kernel};
ghost use Rattle.lx_certificates.specs.declared.Need.{Need};
ghost use Rattle.lx_model.specs.Authority.{is_module};
ghost use Rattle.lx_model.specs.State.{State};
ghost use Rattle.lx_model.specs.declared.program.Program.{Program};
ghost use Rattle.lx_model.specs.declared.request.Way.TheVariants as way;
ghost use Rattle.lx_model.specs.declared.request.What.TheVariants as what;
ghost use Rattle.lx_serve.specs.Stands.{StandsForState};
ghost use Rattle.lx_run_laws.specs.Needs.{all_needs};
ghost use Rattle.lx_why.specs.ListedNeeds.{AreOfModules, of_modules, slot_needs, writer_needs};

use crate::Needs;
use crate::action_needs::action_needs;
use crate::listed_needs::{block_needs, needs_of_each, one_need};
use crate::writers::writers_of;
use lx_annot::expr::Env;
use lx_caps::{Cap, CapStore, Principal, mapped};
use lx_memory::Space;
use lx_model::request::{Request, Way, What};
use lx_serve::SharedPart;
use lx_words::{Items, Memory};
use std::alloc::Global;

/// The number in the eight bytes of a slot.
#[tactic(auto, unfolding(lx_actions::specs::Shown::IsShownBy))]
fn address_in(space: &Space, slot: u64) -> u64
    requires { mapped slot 8 ≡ true }
    ensures { (m : Writes) → IsShownBy space.now m → result ≡ number_at m slot 8 }
{
    match space.read(slot, 8) {
        Ok(at) => at,
        Err(_) => unreachable!(),
    }
}

/// What a call through a slot that lies in memory needs: the call of the address in the slot, by each of its writers.
#[tactic(auto, using(lx_caps::proofs::Covering::slot_end, crate::proofs::Asking::writers_asked, crate::proofs::Listing::are_of_modules))]
fn mapped_slot_needs<C: CapStore + Drop>(
    alloc: Global,
    part: &SharedPart<C>,
    slot: u64,
) -> Result<Needs, Memory>
    requires { mapped slot 8 ≡ true }
    ensures needs { IfOk result (λ needs. (p : Program) (s : State) → StandsForState C.stands p part.now s
        → needs ≡ of_modules (writer_needs p s slot)) }
    ensures modules { IfOk result (λ needs. AreOfModules needs) }
{
    let at = address_in(part.space(), slot);
    let writers = writers_of(alloc, part.caps(), part.names(), slot)?;
    let needs = needs_of_each(alloc, writers.as_slice(), Cap::Call { at })?;
    Ok(needs)
}

/// What a call through a slot needs, and nothing where the slot does not lie in memory.
#[tactic(auto, using(crate::proofs::Asking::in_memory, crate::proofs::Asking::outside, crate::proofs::Listing::are_of_modules))]
fn slot_needs<C: CapStore + Drop>(
    alloc: Global,
    part: &SharedPart<C>,
    slot: u64,
) -> Result<Needs, Memory>
    ensures needs { IfOk result (λ needs. (p : Program) (s : State) → StandsForState C.stands p part.now s
        → needs ≡ of_modules (slot_needs p s slot)) }
    ensures modules { IfOk result (λ needs. AreOfModules needs) }
{
    if !mapped(slot, 8) {
        return Ok(Items::new(alloc));
    }
    let needs = mapped_slot_needs(alloc, part, slot)?;
    Ok(needs)
}

/// What a call needs.
#[tactic(auto, using(crate::proofs::Listing::are_of_modules))]
fn way_needs<C: CapStore + Drop>(
    alloc: Global,
    part: &SharedPart<C>,
    who: Principal,
    way: &Way,
) -> Result<Needs, Memory>
    ensures needs { IfOk result (λ needs. (p : Program) (s : State) (args : List Word) → StandsForState C.stands p part.now s
        → needs ≡ of_modules (all_needs p s who (what.Enter way.now args))) }
    ensures modules { IfOk result (λ needs. AreOfModules needs) }
{
    match way {
        Way::Indirect(at) => one_need(alloc, who, Cap::Call { at: *at }),
        Way::Slot { slot, .. } => slot_needs(alloc, part, *slot),
        Way::Script(_) | Way::Direct(_) => Ok(Items::new(alloc)),
    }
}

/// Which action of a function's annotation is performed.
#[derive(Clone, Copy)]
struct Place {
    function: u32,
    post: bool,
    index: u32,
}

/// What an action of a crossing needs, and nothing where the annotation has none with this number.
#[tactic(auto, using(crate::proofs::Asking::performed, crate::proofs::Asking::not_performed, crate::proofs::Listing::are_of_modules))]
fn perform_needs<C: CapStore + Drop>(
    alloc: Global,
    part: &SharedPart<C>,
    place: Place,
    env: &Env,
    source: Principal,
) -> Result<Needs, Memory>
    ensures needs { IfOk result (λ needs. (p : Program) (s : State) (who dest : Principal) → StandsForState C.stands p part.now s
        → needs ≡ of_modules (all_needs p s who (what.Perform place.function place.post place.index env.now source dest))) }
    ensures modules { IfOk result (λ needs. AreOfModules needs) }
{
    match part.action(place.function, place.post, place.index) {
        Some(action) => action_needs(alloc, part, action, env, source),
        None => Ok(Items::new(alloc)),
    }
}

/// What modules need for a request, in the order in which it is asked for: the bytes of a store or a block write, the call
/// of the address that an indirect call leads to, the same by each writer of the slot that a call goes through, and an
/// action's items before the first that may not lie where it does, which its source has to keep where they are given or
/// lent on. What the kernel needs is left out.
///
/// # Errors
/// Want of memory.
#[tactic(auto, using(crate::proofs::Asking::filled, crate::proofs::Asking::copied, crate::proofs::Listing::are_of_modules))]
pub fn needs_of<C: CapStore + Drop>(
    alloc: Global,
    part: &SharedPart<C>,
    request: &Request,
) -> Result<Needs, Memory>
    ensures needs { IfOk result (λ needs. (p : Program) (s : State) → StandsForState C.stands p part.now s
        → needs ≡ filter (λ n. is_module n.who) (all_needs p s request.now.who request.now.what)) }
    ensures modules { IfOk result (λ needs. All (λ (n : Need). is_kernel n.who ≡ false) needs) }
{
    let who = request.who;
    match &request.what {
        What::Store { at, value } => {
            let size = u64::from(value.width.byte_count());
            one_need(alloc, who, Cap::Write { at: *at, size })
        }
        What::Copy { to, len, .. } | What::Fill { to, len, .. } => {
            block_needs(alloc, who, *to, *len)
        }
        What::Enter { way, .. } => way_needs(alloc, part, who, way),
        What::Perform {
            function,
            post,
            index,
            env,
            source,
            ..
        } => {
            let place = Place {
                function: *function,
                post: *post,
                index: *index,
            };
            perform_needs(alloc, part, place, env, *source)
        }
        What::Load { .. }
        | What::Alloca { .. }
        | What::Return { .. }
        | What::Native { .. }
        | What::Finish { .. } => Ok(Items::new(alloc)),
    }
}
