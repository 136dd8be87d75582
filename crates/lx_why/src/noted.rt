//! What an index has seen of a list of acts.
ghost use Rattle.std.specs.Prelude.{◌≡◌, ◌≤◌, ◌∷◌, All, OnErr, OnOk, length, true};
ghost use Rattle.lx_act_index.specs.Standing.{StandsForActs};
ghost use Rattle.lx_caps.specs.History.{History};
ghost use Rattle.lx_caps.specs.Placed.{is_placed_act};
ghost use Rattle.lx_certificates.specs.Told.{told};
ghost use Rattle.lx_why.specs.Noted.{HasNoted};

use lx_act_index::ActIndex;
use lx_caps::Act;
use lx_certificates::is_told;
use lx_words::Memory;

/// An index of acts, and how many acts of a list it has seen.
#[derive(Drop)]
pub(crate) struct Noted {
    pub(crate) index: ActIndex,
    pub(crate) seen: usize,
}

/// Notes an act that is told; one that is not gives and takes nothing.
fn note_told(index: &mut ActIndex, act: Act) -> Result<(), Memory>
    requires { is_placed_act act ≡ true }
    ensures noted { OnOk result ((h : History) → StandsForActs index.old (told h) → StandsForActs index.new (told (act ∷ h))) }
    ensures stays { OnErr result ((h : History) → StandsForActs index.old h → StandsForActs index.new h) }
{
    if is_told(act) {
        index.note(act)?;
    }
    Ok(())
}

impl Noted {
    /// Notes the acts of a list that were not seen yet. After want of memory some may have been.
    pub(crate) fn catch_up(&mut self, acts: &[Act]) -> Result<(), Memory>
        requires { All (λ act. is_placed_act act ≡ true) acts.now }
        ensures all { OnOk result (length acts.now ≤ self.new.seen) }
        ensures within { self.old.seen ≤ length acts.now → self.new.seen ≤ length acts.now }
        ensures noted { HasNoted self.old acts.now → HasNoted self.new acts.now }
    {
        for place in self.seen..acts.len() {
            note_told(&mut self.index, acts[place])?;
            self.seen = place + 1;
        }
        Ok(())
    }
}
