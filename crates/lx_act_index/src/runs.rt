//! Runs of bits that are alike.
ghost use Rattle.std.specs.Prelude.{◌≡◌, ◌<◌, ◌≤◌, ℕ, not, false, if◌then◌else◌, None};
ghost use Rattle.lx_cap_nodes.specs.Bits.{is_set};
ghost use Rattle.lx_act_index.specs.Runs.{byte_or_end, said_at};

use lx_cap_lists::{PART, Piece, bits_from, first_byte, is_set, piece_bits};
use lx_caps::Atom;

/// All bytes of a part.
const WHOLE: Piece = Piece {
    part: 0,
    from: 0,
    to: PART,
};

fn byte_or_end(found: Option<Atom>) -> u64
    ensures { result ≡ byte_or_end found }
{
    match found {
        Some(Atom::Byte(at)) => at,
        _ => PART,
    }
}

/// The place of the first bit from one on that is set, or behind the last one.
fn next_set(mask: u64, from: u64) -> u64
    requires { from ≤ 64 }
    ensures low { from ≤ result }
    ensures bound { result ≤ 64 }
    ensures none { (k : ℕ) → from ≤ k → k < result → is_set mask k ≡ false }
{
    byte_or_end(first_byte(0, bits_from(mask, from)))
}

/// The bits that are not set.
fn others(mask: u64) -> u64
    ensures { (k : ℕ) → k < 64 → is_set result k ≡ not (is_set mask k) }
{
    piece_bits(WHOLE) & !mask
}

/// Where the bits end that are as the one at a place.
fn run_end(mask: u64, bit: u64) -> u64
    requires { bit < 64 }
    ensures more { bit < result }
    ensures bound { result ≤ 64 }
    ensures alike { (k : ℕ) → bit ≤ k → k < result → is_set mask k ≡ is_set mask bit }
{
    if is_set(mask, bit) {
        next_set(others(mask), bit + 1)
    } else {
        next_set(mask, bit + 1)
    }
}

/// What is said of a bit, where something is said of those of a mask.
pub fn said_at(said: Option<bool>, mask: u64, bit: u64) -> Option<bool>
    requires { bit < 64 }
    ensures { result ≡ said_at said mask bit }
{
    if is_set(mask, bit) { said } else { None }
}

/// Where the bits end of which the same is said as of the one at a place, but no farther than `end`.
pub fn said_until(said: Option<bool>, mask: u64, bit: u64, end: u64) -> u64
    requires some { bit < end }
    requires within { end ≤ 64 }
    ensures more { bit < result }
    ensures bound { result ≤ end }
    ensures alike { (k : ℕ) → bit ≤ k → k < result → said_at said mask k ≡ said_at said mask bit }
{
    match said {
        Some(_) => end.min(run_end(mask, bit)),
        None => end,
    }
}
