//! Entries: what a holder has at one place.
ghost use Rattle.std.specs.Prelude.{◌≡◌, ◌+◌, ◌*◌, ◌/◌, ◌%◌, ◌^◌, ◌<◌, ℕ, Bool, ◌&&◌, ◌||◌, nat_le, Some, true};
ghost use Rattle.lx_caps.specs.declared.Atom.{Atom};
ghost use Rattle.lx_caps.specs.declared.Atom.TheVariants.{Byte};
ghost use Rattle.lx_caps.specs.Order.{is_behind, IsFirst};
ghost use Rattle.lx_cap_nodes.specs.Bits.{is_set};
ghost use Rattle.lx_cap_lists.specs.Atoms.{entry_atom, part_atom, same_atom, spot_fits};
ghost use Rattle.lx_cap_lists.specs.Owned.{alone};

use crate::holder::Holder;
use lx_cap_nodes::bits::{between, is_set};
use lx_caps::{Atom, is_before, is_behind};

/// Where something is had: in a part of memory, by its number, at a call, or at a reference.
#[derive(Clone, Copy)]
pub enum Spot {
    Part(u64),
    Call(u64),
    Ref(u32, u64),
}

/// What a holder has at a spot: bytes of a part, by a bit for each. A call or a reference has the lowest bit.
#[derive(Clone, Copy)]
pub struct Entry {
    pub holder: Holder,
    pub spot: Spot,
    pub mask: u64,
}

/// The bits of a mask from a place on.
pub fn bits_from(mask: u64, from: u64) -> u64
    ensures { (k : ℕ) → k < 64 → is_set result k ≡ (is_set mask k && nat_le from k) }
{
    if from < 64 {
        mask & between(from, 64)
    } else {
        0
    }
}

/// The first byte of these bits of a part.
pub fn first_byte(part: u64, bits: u64) -> Option<Atom>
    requires { part * 64 + 64 < 2 ^ 64 }
    ensures { IsFirst (part_atom part bits) result }
{
    if bits == 0 {
        None
    } else {
        Some(Atom::Byte(part * 64 + bits.trailing_zeros() as u64))
    }
}

/// The first byte of a part's mask behind a byte.
fn byte_behind(part: u64, mask: u64, byte: u64) -> Option<Atom>
    requires { part * 64 + 64 < 2 ^ 64 }
    ensures { IsFirst (λ x. is_behind (Some (Byte byte)) x && part_atom part mask x) result }
{
    if part < byte / 64 {
        None
    } else if part == byte / 64 {
        first_byte(part, bits_from(mask, byte % 64 + 1))
    } else {
        first_byte(part, mask)
    }
}

/// The atom of an entry that has one alone, if it comes behind `after`.
fn atom_if(mask: u64, atom: Atom, after: Option<Atom>) -> Option<Atom>
    ensures { IsFirst (λ x. is_behind after x && (is_set mask 0 && same_atom atom x)) result }
{
    if is_set(mask, 0) && is_behind(after, atom) {
        Some(atom)
    } else {
        None
    }
}

/// The first atom of an entry behind `after`.
pub(crate) fn atom_behind(entry: Entry, after: Option<Atom>) -> Option<Atom>
    requires { spot_fits entry.spot ≡ true }
    ensures { IsFirst (λ x. is_behind after x && entry_atom entry x) result }
{
    match entry.spot {
        Spot::Part(part) => match after {
            None => first_byte(part, entry.mask),
            Some(Atom::Byte(byte)) => byte_behind(part, entry.mask, byte),
            _ => None,
        },
        Spot::Call(at) => atom_if(entry.mask, Atom::Call(at), after),
        Spot::Ref(ty, at) => atom_if(entry.mask, Atom::Ref(ty, at), after),
    }
}

/// The call or the reference of an entry.
pub fn atom_alone(entry: Entry) -> Option<Atom>
    ensures { result ≡ alone entry.spot (is_set entry.mask 0) }
{
    match entry.spot {
        Spot::Call(at) if is_set(entry.mask, 0) => Some(Atom::Call(at)),
        Spot::Ref(ty, at) if is_set(entry.mask, 0) => Some(Atom::Ref(ty, at)),
        _ => None,
    }
}

/// The first of two atoms in order, where there are two.
pub fn sooner(first: Option<Atom>, found: Option<Atom>) -> Option<Atom>
    ensures { (p q : Atom → Bool) → IsFirst p first → IsFirst q found → IsFirst (λ x. p x || q x) result }
{
    match (first, found) {
        (None, _) => found,
        (_, None) => first,
        (Some(x), Some(y)) => if is_before(y, x) { found } else { first },
    }
}
