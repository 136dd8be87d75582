//! Runs of bits in masks of 64.
ghost use Rattle.std.specs.Prelude.{◌≡◌, ℕ, ◌<◌, ◌≤◌, true};
ghost use Rattle.lx_cap_lists.specs.Mask.{IsNextSet};
ghost use Rattle.lx_cap_nodes.specs.Bits.{is_set};

/// The place of the first bit from a place on that is set.
pub(crate) fn next_set(mask: u64, place: u64) -> Option<u64>
    requires { place ≤ 64 }
    ensures { IsNextSet mask place result }
{
    if place == 64 {
        return None;
    }
    let left = mask >> place;
    if left == 0 {
        None
    } else {
        Some(place + left.trailing_zeros() as u64)
    }
}

/// The end of the run of bits that begins at a place.
pub(crate) fn run_end(mask: u64, from: u64) -> u64
    requires within { from < 64 }
    requires begins { is_set mask from ≡ true }
    ensures some { from < result }
    ensures within { result ≤ 64 }
    ensures run { (k : ℕ) → from ≤ k → k < result → is_set mask k ≡ true }
{
    next_set(!mask, from).unwrap_or(64)
}
