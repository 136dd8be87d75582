//! What the writers of a slot hold.
ghost use Rattle.std.specs.Prelude.{◌≡◌, ◌+◌, ◌≤◌, ◌^◌, ℕ, IsTrue, filter, true};
ghost use Rattle.std.specs.List.{flat_map};
ghost use Rattle.lx_caps.specs.declared.Cap.TheVariants.{Call};
ghost use Rattle.lx_caps.specs.declared.Principal.TheVariants.{Shared};
ghost use Rattle.lx_caps.specs.History.{History, holds};
ghost use Rattle.lx_caps.specs.Writers.{is_slot_writer};
ghost use Rattle.lx_model.specs.State.{State, module_principals};
ghost use Rattle.lx_slot_types.specs.Gets.{below};
ghost use Rattle.lx_call_targets.specs.Writers.{AreTold, IsShared, is_known, lacks};
ghost use Rattle.lx_writer_sets.specs.Sets.{IsFirstWriter, IsSomeWriter};
ghost use Rattle.lx_writer_sets.specs.RecordedStands.{StandsRecorded};

use lx_caps::{Cap, CapStore, Principal};
use lx_principals::Principals;
use lx_writer_sets::{PrincipalTest, Recorded};

/// What the writers of a slot hold.
#[derive(Clone, Copy)]
pub enum SlotWriters {
    /// Nobody wrote there.
    Nobody,
    /// Each holds the call.
    AllHold,
    /// The first, in the order of principals, that does not hold the call.
    Lacks(Principal),
}

/// Whether the principal is one of those that there are: a module's shared one, its global one, or one of its instances.
fn is_known(names: &Principals, who: Principal) -> bool
    ensures { result ≡ is_known names.now.modules names.now.names who }
{
    match who {
        Principal::Kernel => false,
        Principal::Shared(home) | Principal::Global(home) => (home as usize) < names.modules(),
        Principal::Inst(home, instance) => {
            (home as usize) < names.modules() && instance < names.count(home)
        }
    }
}

/// The principals that there are.
#[derive(Clone, Copy)]
struct Known<'a> {
    names: &'a Principals,
}

impl PrincipalTest for Known<'_> {
    ghost use Rattle.lx_call_targets.specs.Writers.{is_known};

    ghost stands = { λ known p. p ≡ is_known known.names.now.modules known.names.now.names };

    fn passes(&self, who: Principal) -> bool {
        is_known(self.names, who)
    }
}

/// Whether the principal is the shared one of a module or one of its instances: it holds what the shared one holds.
#[tactic(auto, using(crate::proofs::Sharing::shared_itself, crate::proofs::Sharing::instance_holds))]
fn is_under(home: u32, who: Principal) -> bool
    ensures { IsTrue result → (h : History) → (a : ℕ) → holds h (Shared home) (Call a) ≡ true → holds h who (Call a) ≡ true }
{
    match who {
        Principal::Shared(of) => of == home,
        Principal::Inst(of, _) => of == home,
        Principal::Kernel | Principal::Global(_) => false,
    }
}

/// The principals that there are and that do not hold the call of the function at an address.
#[derive(Drop)]
struct Lacking<'a, C: CapStore + Drop> {
    caps: &'a Recorded<C>,
    names: &'a Principals,
    at: u64,
    // A module whose shared principal holds the call, and with it each of its instances: so these need not be looked up.
    sharing: Option<u32>,
    ghost shared: { IsShared (StandsRecorded C.stands caps.now) sharing at },
}

impl<C: CapStore + Drop> Lacking<'_, C> {
    /// Whether the principal holds the call since the shared one of its module is known to hold it.
    fn shares(&self, who: Principal) -> bool
        ensures { IsTrue result → (h : History) → StandsRecorded C.stands self.now.caps.now h → holds h who (Call self.now.at) ≡ true }
    {
        match self.sharing {
            Some(home) => is_under(home, who),
            None => false,
        }
    }
}

impl<C: CapStore + Drop> PrincipalTest for Lacking<'_, C> {
    ghost use Rattle.lx_call_targets.specs.Writers.{lacks};
    ghost use Rattle.lx_caps.specs.History.{History};
    ghost use Rattle.lx_writer_sets.specs.RecordedStands.{StandsRecorded};

    ghost stands = { λ lacking p. (h : History) × StandsRecorded C.stands lacking.caps.now h × (p ≡ lacks lacking.names.now.modules lacking.names.now.names h lacking.at) };

    fn passes(&self, who: Principal) -> bool {
        is_known(self.names, who)
            && !self.shares(who)
            && !self.caps.holds(who, Cap::Call { at: self.at })
    }
}

/// The module of a principal, where its shared principal holds the call of the function at an address.
fn sharing_of<C: CapStore + Drop>(caps: &Recorded<C>, who: Principal, at: u64) -> Option<u32>
    ensures { IsShared (StandsRecorded C.stands caps.now) result at }
{
    match who {
        Principal::Shared(home) | Principal::Global(home) | Principal::Inst(home, _) => {
            if caps.holds(Principal::Shared(home), Cap::Call { at }) {
                Some(home)
            } else {
                None
            }
        }
        Principal::Kernel => None,
    }
}

/// Some writer of a slot that there is.
fn some_known<C: CapStore + Drop>(
    caps: &Recorded<C>,
    names: &Principals,
    slot: u64,
) -> Option<Principal>
    requires { slot + 8 ≤ 2 ^ 64 }
    ensures { (h : History) → StandsRecorded C.stands caps.now h → IsSomeWriter h slot (is_known names.now.modules names.now.names) result }
{
    caps.some_writer(slot, &Known { names })
}

/// The first writer of a slot that there is and that does not hold the call. What the shared principal of one writer's module holds is asked
/// once.
fn first_lacking<C: CapStore + Drop>(
    caps: &Recorded<C>,
    names: &Principals,
    slot: u64,
    at: u64,
    writer: Principal,
) -> Option<Principal>
    requires { slot + 8 ≤ 2 ^ 64 }
    ensures { (h : History) → StandsRecorded C.stands caps.now h → IsFirstWriter h slot (lacks names.now.modules names.now.names h at) result }
{
    let sharing = sharing_of(caps, writer, at);
    caps.first_writer(
        slot,
        &Lacking {
            caps,
            names,
            at,
            sharing,
        },
    )
}

/// Whether the writers of a slot hold the call of the function at an address: the principals that owned one of the slot's
/// eight bytes at some moment since it was last zeroed. It takes no memory. Each writer is asked at most once for each of
/// the parts of 64 bytes that the slot lies in; before that they are asked, until one is met, whether they are among the
/// principals that there are.
pub fn slot_writers<C: CapStore + Drop>(
    caps: &Recorded<C>,
    names: &Principals,
    slot: u64,
    at: u64,
) -> SlotWriters
    requires { slot + 8 ≤ 2 ^ 64 }
    ensures { (s : State) → StandsRecorded C.stands caps.now s.history
        → AreTold s slot at (filter (is_slot_writer s.history slot) (flat_map (module_principals names.now.names) (below names.now.modules))) result }
{
    match some_known(caps, names, slot) {
        None => SlotWriters::Nobody,
        Some(one) => match first_lacking(caps, names, slot, at, one) {
            Some(writer) => SlotWriters::Lacks(writer),
            None => SlotWriters::AllHold,
        },
    }
}
