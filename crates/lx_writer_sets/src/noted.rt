//! What a grant and a lend change of the writers.
ghost use Rattle.std.specs.Prelude.{◌≡◌, ◌≢◌, ◌+◌, ◌≤◌, ◌∷◌, ℕ, true};
ghost use Rattle.lx_caps.specs.declared.Act.TheVariants.{Grant, Lend};
ghost use Rattle.lx_caps.specs.declared.Principal.TheVariants.{Kernel};
ghost use Rattle.lx_caps.specs.Cells.{cells};
ghost use Rattle.lx_caps.specs.History.{History};
ghost use Rattle.lx_caps.specs.Loans.{lends};
ghost use Rattle.lx_caps.specs.Placed.{is_placed};
ghost use Rattle.lx_writer_sets.specs.Stands.{StandsForWriters, spare_of};

use crate::{WriterSets, writer_set_laws};
use lx_caps::{Cap, Principal};

/// Notes the bytes of a grant, or of a lend on a loan that has not ended. It takes at most `cells` of the room.
pub(crate) fn note_cap(sets: &mut WriterSets, to: Principal, cap: Cap)
    requires room { cells cap ≤ spare_of sets.old }
    requires recorded { to ≢ Kernel }
    requires placed { is_placed cap ≡ true }
    ensures appends { (h : History) → StandsForWriters sets.old h → StandsForWriters sets.new (Grant to cap ∷ h) }
    ensures lends { (h : History) (thread : ℕ) → StandsForWriters sets.old h → lends h thread ≡ true → StandsForWriters sets.new (Lend thread to cap ∷ h) }
    ensures takes { spare_of sets.old ≤ spare_of sets.new + cells cap }
{
    writer_set_laws();
    match cap {
        Cap::Write { at, size } => sets.note(to, at, size),
        Cap::Call { .. } | Cap::Ref { .. } => {}
    }
}
