//! Masks of 64 bits.
ghost use Rattle.std.specs.Prelude.{◌≡◌, ◌<◌, ◌≤◌, ℕ, ◌&&◌, ◌||◌, not, bit_or, nat_eq, nat_le, nat_lt};
ghost use Rattle.lx_cap_nodes.specs.Bits.{is_set};

/// Says whether the bit at a place of a mask is set.
pub fn is_set(mask: u64, place: u64) -> bool
    requires { place < 64 }
    ensures { result ≡ is_set mask place }
{
    (mask >> place) & 1 == 1
}

/// The mask without one of its bits.
pub fn without(mask: u64, place: u64) -> u64
    requires { place < 64 }
    ensures { (k : ℕ) → k < 64 → is_set result k ≡ (is_set mask k && not (nat_eq k place)) }
{
    mask & !(1 << place)
}

/// The bits of either mask.
pub fn with(mask: u64, more: u64) -> u64
    ensures is { result ≡ bit_or mask more }
    ensures bits { (k : ℕ) → is_set result k ≡ (is_set mask k || is_set more k) }
{
    mask | more
}

/// The bits from one place up to another.
pub fn between(from: u64, to: u64) -> u64
    requires some { from < to }
    requires within { to ≤ 64 }
    ensures { (k : ℕ) → k < 64 → is_set result k ≡ (nat_le from k && nat_lt k to) }
{
    (u64::MAX << from) & (u64::MAX >> (64 - to))
}
