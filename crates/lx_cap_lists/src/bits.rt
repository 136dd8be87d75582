//! Masks of 64 bits.
ghost use Rattle.std.specs.Prelude.{◌≡◌, bit_and, nat_eq};

/// Says whether each of the wanted bits is in a mask.
pub(crate) fn has_all(mask: u64, wanted: u64) -> bool
    ensures { result ≡ nat_eq (bit_and mask wanted) wanted }
{
    mask & wanted == wanted
}
