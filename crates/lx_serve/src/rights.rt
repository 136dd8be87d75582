//! What may be written, and who is given what.
ghost use Rattle.std.specs.Prelude.{◌≡◌, ◌+◌, ◌≤◌, true, IfNone};
ghost use Rattle.lx_actions.specs.Rooms.{recorded_cells};
ghost use Rattle.lx_caps.specs.Cells.{cells};
ghost use Rattle.lx_caps.specs.History.{History, holds, with_grant};
ghost use Rattle.lx_caps.specs.Placed.{is_placed};
ghost use Rattle.lx_caps.specs.Regions.{mapped};
ghost use Rattle.lx_caps.specs.declared.Cap.TheVariants.{Write};
ghost use Rattle.lx_model.specs.Decide.{decide_write};
ghost use Rattle.lx_model.specs.State.{State};
ghost use Rattle.lx_serve.specs.Decisions.{copy_outcome, unwritable};

use crate::terms::{unless_mapped, unmapped};
use lx_caps::{Cap, CapStore, Principal, cells, mapped};
use lx_model::request::{Outcome, Refusal};

/// Whether the range lies in memory and is held. Nobody holds bytes outside memory.
fn is_held<C: CapStore>(caps: &C, who: Principal, at: u64, size: u64) -> bool
    ensures held { (h : History) → C.stands caps.now h → result ≡ holds h who (Write at size) }
    ensures mapped { result ≡ true → mapped at size ≡ true }
{
    mapped(at, size) && caps.holds(who, Cap::Write { at, size })
}

fn unwritable(who: Principal, at: u64, size: u64) -> Outcome
    ensures { result ≡ unwritable who at size }
{
    match who {
        Principal::Kernel => unmapped(at),
        _ => Outcome::Refused(Refusal::Write { who, at, size }),
    }
}

/// The outcome of a write that may not be: a module has to hold what it writes, and what the kernel writes has to lie in
/// memory.
#[tactic(auto, using(crate::proofs::Places::write_decided))]
pub(crate) fn unless_writable<C: CapStore>(
    caps: &C,
    who: Principal,
    at: u64,
    size: u64,
) -> Option<Outcome>
    ensures decided { (s : State) → C.stands caps.now s.history → result ≡ decide_write s who at size }
    ensures ready { IfNone result (mapped at size ≡ true) }
{
    if is_held(caps, who, at, size) {
        None
    } else {
        Some(unwritable(who, at, size))
    }
}

/// The outcome of a copy that may not be: what is written is looked at first. A copy of nothing is always allowed.
pub(crate) fn unless_copied<C: CapStore>(
    caps: &C,
    who: Principal,
    to: u64,
    from: u64,
    len: u64,
) -> Option<Outcome>
    ensures decided { (s : State) → C.stands caps.now s.history → result ≡ copy_outcome s who to from len }
    ensures to { IfNone result (mapped to len ≡ true) }
    ensures from { IfNone result (mapped from len ≡ true) }
{
    if len == 0 {
        return None;
    }
    match unless_writable(caps, who, to, len) {
        Some(outcome) => Some(outcome),
        None => unless_mapped(from, len),
    }
}

/// How much of the room is taken where a capability is given. The kernel's part takes none.
pub(crate) fn cells_given(to: Principal, cap: Cap) -> u64
    ensures { result ≡ recorded_cells to (cells cap) }
{
    match to {
        Principal::Kernel => 0,
        Principal::Shared(_) | Principal::Global(_) | Principal::Inst(_, _) => cells(cap),
    }
}

/// Gives a capability. The kernel holds it without a record.
pub(crate) fn give<C: CapStore>(caps: &mut C, to: Principal, cap: Cap)
    requires room { recorded_cells to (cells cap) ≤ C.spare caps.old }
    requires placed { is_placed cap ≡ true }
    ensures grants { (h : History) → C.stands caps.old h → C.stands caps.new (with_grant to cap h) }
    ensures takes { C.spare caps.old ≤ C.spare caps.new + recorded_cells to (cells cap) }
{
    match to {
        Principal::Kernel => {}
        Principal::Shared(_) | Principal::Global(_) | Principal::Inst(_, _) => {
            caps.grant(to, cap);
        }
    }
}
