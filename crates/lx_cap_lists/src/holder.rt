//! Who has something, and on what ground.
ghost use Rattle.std.specs.Prelude.{◌≡◌, true};
ghost use Rattle.lx_cap_lists.specs.declared.holder.Holder.TheVariants.{Keeper};
ghost use Rattle.lx_cap_lists.specs.Holders.{counts, principal_of};

use lx_caps::{Principal, is_same, reaches};

/// Who has something: a principal that keeps it, or one that has it on a loan. A loan is named by its thread, and by how
/// many loans of the thread that have not ended are older.
#[derive(Clone, Copy)]
pub enum Holder {
    Keeper(Principal),
    Borrower(u32, u64, Principal),
}

/// What counts: all that is owned in a principal's reach, only what is kept there, or what the principal itself owns.
#[derive(Clone, Copy)]
pub enum InReach {
    Owned(Principal),
    Kept(Principal),
    Own(Principal),
}

/// The principal that keeps something, or has it on a loan.
pub fn principal_of(holder: Holder) -> Principal
    ensures { result ≡ principal_of holder }
{
    match holder {
        Holder::Keeper(who) => who,
        Holder::Borrower(_, _, who) => who,
    }
}

/// The principal that is asked for. What it keeps itself counts.
pub(crate) fn asked_for(in_reach: InReach) -> Principal
    ensures { counts in_reach (Keeper result) ≡ true }
{
    match in_reach {
        InReach::Owned(who) => who,
        InReach::Own(who) => who,
        InReach::Kept(who) => who,
    }
}

/// Says whether what the holder has counts.
pub(crate) fn counts(in_reach: InReach, holder: Holder) -> bool
    ensures { result ≡ counts in_reach holder }
{
    match (in_reach, holder) {
        (InReach::Owned(who), _) => reaches(who, principal_of(holder)),
        (InReach::Own(who), _) => is_same(who, principal_of(holder)),
        (InReach::Kept(who), Holder::Keeper(keeper)) => reaches(who, keeper),
        (InReach::Kept(_), Holder::Borrower(..)) => false,
    }
}
