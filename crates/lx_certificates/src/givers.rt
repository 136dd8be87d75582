// Who gave the atoms of a capability, piece by piece, by a list of acts, the oldest first.
ghost use Rattle.std.specs.Prelude.{◌≡◌, ◌+◌, ◌-◌, ◌<◌, ◌≤◌, ◌∷◌, if◌then◌else◌, ℕ, List, Some, drop, length, reverse, take};
ghost use Rattle.lx_caps.specs.declared.Act.{Act};
ghost use Rattle.lx_caps.specs.History.{each_byte};
ghost use Rattle.lx_caps.specs.Owners.{endings};
ghost use Rattle.lx_certificates.specs.Certificates.{is_wanted, is_act};
ghost use Rattle.lx_certificates.specs.Givers.{by_grant, by_lend, count_of, first_of, given, giver, newest_strip, nth_atom, said};

use crate::spans::{alike_until, is_in, touched};
use lx_caps::{Act, Atom, Cap, Principal, has, is_left, is_lending};

/// Which acts are looked for.
#[derive(Clone, Copy)]
pub enum Gifts {
    /// Those that give to keep.
    Grants,
    /// Those that give on loan.
    Lends,
    Both,
}

/// Who gave a principal the atoms of a capability.
#[derive(Clone, Copy)]
pub struct Sought {
    pub gifts: Gifts,
    pub who: Principal,
    pub cap: Cap,
}

fn by_grant(gifts: Gifts) -> bool
    ensures { result ≡ by_grant gifts }
{
    matches!(gifts, Gifts::Grants | Gifts::Both)
}

fn by_lend(gifts: Gifts) -> bool
    ensures { result ≡ by_lend gifts }
{
    matches!(gifts, Gifts::Lends | Gifts::Both)
}

/// The first address of a capability.
pub fn first_of(cap: Cap) -> u64
    ensures { result ≡ first_of cap }
{
    match cap {
        Cap::Write { at, .. } | Cap::Call { at } | Cap::Ref { at, .. } => at,
    }
}

/// How many atoms a capability has.
pub fn count_of(cap: Cap) -> u64
    ensures { result ≡ count_of cap }
{
    match cap {
        Cap::Write { size, .. } => size,
        Cap::Call { .. } | Cap::Ref { .. } => 1,
    }
}

/// What the act with this number says of who gave an atom that it touches, or does not.
fn said(acts: &[Act], number: usize, act: Act, gifts: Gifts, touched: bool) -> Option<bool>
    requires { number < length acts.now }
    ensures { result ≡ said gifts act touched (endings (drop (number + 1) acts.now)) (reverse (take number acts.now)) }
{
    match act {
        Act::Grant(..) => if by_grant(gifts) && touched {
            Some(true)
        } else {
            None
        },
        Act::Strip(_) => if touched { Some(false) } else { None },
        Act::Lend(thread, ..) => {
            if by_lend(gifts)
                && touched
                && is_lending(acts, number, thread)
                && is_left(acts, number + 1, thread)
            {
                Some(true)
            } else {
                None
            }
        }
        _ => None,
    }
}

/// Atoms one behind the other that the same act gave, or nobody.
#[derive(Clone, Copy)]
pub struct Piece {
    pub giver: Option<usize>,
    pub end: u64,
}

/// The atoms from a place on that were given as that one was, but none from `end` on.
pub fn next_piece(acts: &[Act], sought: Sought, from: u64, end: u64) -> Piece
    requires some { from < end }
    requires within { end ≤ count_of sought.cap }
    ensures more { from < result.end }
    ensures bound { result.end ≤ end }
    ensures alike { (k : ℕ) → from ≤ k → k < result.end → given (reverse acts.now) sought k ≡ result.giver }
{
    let mut until = end;
    for i in (0..acts.len()).rev() {
        let act = acts[i];
        let span = touched(sought.cap, act, sought.who);
        until = alike_until(span, from, until);
        match said(acts, i, act, sought.gifts, is_in(span, from)) {
            Some(true) => return Piece {
                giver: Some(i),
                end: until,
            },
            Some(false) => return Piece {
                giver: None,
                end: until,
            },
            None => {}
        }
    }
    Piece {
        giver: None,
        end: until,
    }
}

/// A capability with this atom alone.
fn alone(atom: Atom) -> Cap
    ensures one { count_of result ≡ 1 }
    ensures atom { nth_atom result 0 ≡ atom }
{
    match atom {
        Atom::Byte(at) => Cap::Write { at, size: 1 },
        Atom::Call(at) => Cap::Call { at },
        Atom::Ref(ty, at) => Cap::Ref { ty, at },
    }
}

/// The newest act that gives the atom to someone in reach of the principal, and still stands.
pub fn giver(acts: &[Act], gifts: Gifts, who: Principal, atom: Atom) -> Option<usize>
    ensures { result ≡ giver gifts (reverse acts.now) who atom }
{
    let sought = Sought {
        gifts,
        who,
        cap: alone(atom),
    };
    next_piece(acts, sought, 0, 1).giver
}

pub fn is_act(found: Option<usize>, act: u32) -> bool
    ensures { result ≡ is_act found act }
{
    match found {
        Some(number) => number == act as usize,
        None => false,
    }
}

fn is_wanted(wanted: Option<u32>, found: Option<usize>) -> bool
    ensures { result ≡ is_wanted wanted found }
{
    match wanted {
        Some(act) => is_act(found, act),
        None => found.is_some(),
    }
}

/// Says whether the act gave each atom from one place to before another, or any act where none is named.
pub fn all_given(acts: &[Act], sought: Sought, wanted: Option<u32>, from: u64, end: u64) -> bool
    requires order { from ≤ end }
    requires within { end ≤ count_of sought.cap }
    ensures { result ≡ each_byte (λ k. is_wanted wanted (given (reverse acts.now) sought k)) from (end - from) }
{
    let mut at = from;
    while at < end {
        let next = next_piece(acts, sought, at, end);
        if !is_wanted(wanted, next.giver) {
            return false;
        }
        at = next.end;
    }
    true
}

/// The newest strip that has the atom.
pub fn newest_strip(acts: &[Act], atom: Atom) -> Option<usize>
    ensures { result ≡ newest_strip (reverse acts.now) atom }
{
    for i in (0..acts.len()).rev() {
        if is_strip(acts[i], atom) {
            return Some(i);
        }
    }
    None
}

/// Says whether the act is a strip that has the atom.
fn is_strip(act: Act, atom: Atom) -> bool
    ensures { (h : List Act) → newest_strip (act ∷ h) atom ≡ (if result then Some (length h) else newest_strip h atom) }
{
    match act {
        Act::Strip(cap) => has(cap, atom),
        _ => false,
    }
}
