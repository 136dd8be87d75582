//! What an action of an annotation needs.
ghost use Rattle.std.specs.Prelude.{◌≡◌, ◌≤◌, ◌++◌, [], Some, length, map, IfOk, OnOk};
ghost use Rattle.std.specs.List.{prefix_len};
ghost use Rattle.std.specs.Result.{result_ok};
ghost use Rattle.lx_caps.specs.Memory.{Memory as Writes, load64};
ghost use Rattle.lx_caps.specs.Regions.{overlaps, region_size, stacks_start};
ghost use Rattle.lx_annot.specs.Items.{action_caps, list_items, list_of_action};
ghost use Rattle.lx_actions.specs.Deeds.{deed_of, gives, is_transfer};
ghost use Rattle.lx_actions.specs.Shown.{IsShownBy};
ghost use Rattle.lx_run_laws.specs.Needs.{item_needs};
ghost use Rattle.lx_run_laws.specs.Errands.{errand_of_action, is_placed, need_of_item};
ghost use Rattle.lx_model.specs.State.{State};
ghost use Rattle.lx_model.specs.declared.program.Program.{Program};
ghost use Rattle.lx_serve.specs.Stands.{StandsForState};
ghost use Rattle.lx_why.specs.AskedNeeds.{errand_by, needs_found, terms_of};
ghost use Rattle.lx_why.specs.ListedNeeds.{AreOfModules, of_modules};

use crate::Needs;
use crate::listed_needs::push_need;
use lx_actions::SpaceLook;
use lx_annot::action::{Action, ActionNode};
use lx_annot::caps::{CapList, caps_of};
use lx_annot::expr::Env;
use lx_annot::interface::Interface;
use lx_caps::{Cap, CapStore, Principal, REGION_SIZE, STACKS_START, mapped};
use lx_certificates::Need;
use lx_memory::Space;
use lx_serve::SharedPart;
use lx_words::{Items, Memory};
use std::alloc::Global;

const STACKS_END: u64 = STACKS_START + REGION_SIZE;

/// What an action asks for its items: of whom, whether they are taken from everyone, and whether they are given or lent on.
#[derive(Clone, Copy)]
struct Terms {
    source: Principal,
    transfers: bool,
    gives: bool,
}

/// Whether the action is a transfer, also behind conditions.
fn is_transfer(a: &Action) -> bool
    ensures { result ≡ is_transfer (deed_of a.now) }
{
    match &a.node {
        ActionNode::Transfer(_) => true,
        ActionNode::If(_, a) => is_transfer(a),
        ActionNode::Copy(_) | ActionNode::Check(_) | ActionNode::Lend(_) | ActionNode::End(_) =>
            false,
    }
}

/// Whether the action gives or lends its items, also behind conditions.
fn gives(a: &Action) -> bool
    ensures { result ≡ gives (deed_of a.now) }
{
    match &a.node {
        ActionNode::Copy(_) | ActionNode::Transfer(_) | ActionNode::Lend(_) => true,
        ActionNode::If(_, a) => gives(a),
        ActionNode::Check(_) | ActionNode::End(_) => false,
    }
}

fn terms_of(a: &Action, source: Principal) -> Terms
    ensures { result ≡ terms_of source a.now }
{
    Terms {
        source,
        transfers: is_transfer(a),
        gives: gives(a),
    }
}

/// Whether the range has a byte of a stack.
fn overlaps_stacks(at: u64, size: u64) -> bool
    ensures { result ≡ overlaps at size stacks_start region_size }
{
    at < STACKS_END && STACKS_START.saturating_sub(at) < size
}

/// Whether an item may lie where it does: in memory, and where it is transferred on no stack.
fn is_placed(terms: Terms, cap: Cap) -> bool
    ensures { result ≡ is_placed (errand_by terms []) cap }
{
    match cap {
        Cap::Write { at, size } => {
            mapped(at, size) && !(terms.transfers && overlaps_stacks(at, size))
        }
        Cap::Call { .. } | Cap::Ref { .. } => true,
    }
}

fn need_of_item(terms: Terms, cap: Cap) -> Need
    ensures { result ≡ need_of_item (errand_by terms []) cap }
{
    Need {
        who: terms.source,
        cap,
        kept: terms.gives,
    }
}

/// How many items stand before the first that may not lie where it does.
fn placed_count(terms: Terms, items: &[Cap]) -> usize
    ensures { result ≡ prefix_len (is_placed (errand_by terms [])) items.now }
{
    items
        .iter()
        .take_while(|cap| is_placed(terms, **cap))
        .count()
}

fn push_item_needs(needs: &mut Needs, terms: Terms, items: &[Cap]) -> Result<(), Memory>
    ensures { OnOk result (needs.new ≡ needs.old ++ of_modules (map (need_of_item (errand_by terms [])) items.now)) }
{
    for item in items {
        push_need(needs, need_of_item(terms, *item))?;
    }
    Ok(())
}

/// The needs for the items before the first that may not lie where it does.
#[tactic(auto, using(crate::proofs::Listing::are_of_modules))]
fn item_needs(alloc: Global, terms: Terms, items: &[Cap]) -> Result<Needs, Memory>
    ensures needs { IfOk result (λ needs. needs ≡ of_modules (item_needs (Some (errand_by terms items.now)))) }
    ensures modules { IfOk result (λ needs. AreOfModules needs) }
{
    let mut needs = Items::new(alloc);
    let count = placed_count(terms, items);
    push_item_needs(&mut needs, terms, &items[..count])?;
    Ok(needs)
}

/// The capabilities that an action names in memory, where all that it looks at is found.
fn named_caps(i: &Interface, a: &Action, env: &Env, space: &Space) -> Option<CapList>
    requires { length (list_items i.now (list_of_action a.now)) ≤ 16 }
    ensures { (m : Writes) → IsShownBy space.now m → result ≡ result_ok (action_caps i.now (load64 m) env.now a.now) }
{
    match caps_of(i, a, env, &SpaceLook { space }) {
        Ok(caps) => Some(caps),
        Err(_) => None,
    }
}

/// What is asked for items that were found, and nothing where they were not.
#[tactic(auto, using(crate::proofs::Listing::are_of_modules))]
fn needs_found(alloc: Global, terms: Terms, found: Option<CapList>) -> Result<Needs, Memory>
    ensures needs { IfOk result (λ needs. needs ≡ of_modules (needs_found terms found)) }
    ensures modules { IfOk result (λ needs. AreOfModules needs) }
{
    match found {
        Some(items) => item_needs(alloc, terms, items.as_slice()),
        None => Ok(Items::new(alloc)),
    }
}

/// What an action needs of a source.
#[tactic(auto, using(crate::proofs::Asking::asked, crate::proofs::Listing::are_of_modules))]
pub(crate) fn action_needs<C: CapStore + Drop>(
    alloc: Global,
    part: &SharedPart<C>,
    a: &Action,
    env: &Env,
    source: Principal,
) -> Result<Needs, Memory>
    ensures needs { IfOk result (λ needs. (p : Program) (s : State) → StandsForState C.stands p part.now s
        → needs ≡ of_modules (item_needs (errand_of_action p.interface a.now env.now source s.memory))) }
    ensures modules { IfOk result (λ needs. AreOfModules needs) }
{
    let found = named_caps(&part.program().interface, a, env, part.space());
    let needs = needs_found(alloc, terms_of(a, source), found)?;
    Ok(needs)
}
