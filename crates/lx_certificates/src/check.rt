// Whether a certificate is true of the first acts.
ghost use Rattle.std.specs.Prelude.{◌≡◌, ◌+◌, ◌-◌, ◌<◌, ◌≤◌, ◌&&◌, None, not, drop, length, reverse, take};
ghost use Rattle.lx_caps.specs.History.{each_byte, holds_by_reach, kept_in_reach, reached};
ghost use Rattle.lx_certificates.specs.declared.Cert.TheVariants.{Allow, Borrowed, Deny};
ghost use Rattle.lx_certificates.specs.Certificates.{address_of, are_parts, gifts_for, is_cert, is_cut, is_first_lacking, is_kernel, is_wanted, same_number, seek};
ghost use Rattle.lx_certificates.specs.Givers.{count_of, first_of, given, giver};

use crate::givers::{Gifts, Sought, all_given, count_of, first_of, giver, is_act, newest_strip};
use crate::{Cert, Part};
use lx_caps::{Act, Acts, Atom, Cap, Principal, has};

fn is_kernel(who: Principal) -> bool
    ensures { result ≡ is_kernel who }
{
    matches!(who, Principal::Kernel)
}

fn gifts_for(kept: bool) -> Gifts
    ensures { result ≡ gifts_for kept }
{
    if kept { Gifts::Grants } else { Gifts::Both }
}

fn address_of(atom: Atom) -> u64
    ensures { result ≡ address_of atom }
{
    match atom {
        Atom::Byte(at) | Atom::Call(at) | Atom::Ref(_, at) => at,
    }
}

/// Says whether the part begins at a place, is one of the atoms behind it, and its act, which is not that of the part
/// before it, gave each of its atoms.
fn is_cut(acts: &[Act], sought: Sought, last: Option<u32>, place: u64, part: Part) -> bool
    requires { place ≤ count_of sought.cap }
    ensures { result ≡ is_cut (given (reverse acts.now) sought) (first_of sought.cap) last place (count_of sought.cap - place) part }
{
    let first = first_of(sought.cap);
    first <= part.low
        && part.low - first == place
        && 0 < part.size
        && part.size <= count_of(sought.cap) - place
        && last != Some(part.act)
        && all_given(acts, sought, Some(part.act), place, place + part.size)
}

/// Says whether the parts cut the atoms of the capability.
fn are_parts(acts: &[Act], sought: Sought, parts: &[Part]) -> bool
    ensures { result ≡ are_parts (reverse acts.now) sought parts.now }
{
    let mut place = 0;
    let mut last = None;
    for part in parts {
        if !is_cut(acts, sought, last, place, *part) {
            return false;
        }
        place += part.size;
        last = Some(part.act);
    }
    place == count_of(sought.cap)
}

/// Says whether the atom is the first of the capability's that nobody gave.
fn is_first_lacking(acts: &[Act], sought: Sought, atom: Atom) -> bool
    ensures { result ≡ is_first_lacking (λ x. is_wanted None (giver sought.gifts (reverse acts.now) sought.who x)) sought.cap atom }
{
    if has(sought.cap, atom) {
        let place = address_of(atom) - first_of(sought.cap);
        all_given(acts, sought, None, 0, place)
            && giver(acts, sought.gifts, sought.who, atom).is_none()
    } else {
        false
    }
}

fn same_number(told: Option<u32>, found: Option<usize>) -> bool
    ensures { result ≡ same_number told found }
{
    match (told, found) {
        (None, None) => true,
        (Some(told), Some(number)) => told as usize == number,
        _ => false,
    }
}

/// Says whether each atom of the capability is owned by someone in reach.
fn is_held(acts: &[Act], who: Principal, cap: Cap) -> bool
    ensures { result ≡ holds_by_reach (reverse acts.now) who cap }
{
    let sought = Sought {
        gifts: Gifts::Both,
        who,
        cap,
    };
    all_given(acts, sought, None, 0, count_of(cap))
}

/// Says whether the atom is the first of the capability's that nobody in reach owns.
fn is_first_unowned(acts: &[Act], who: Principal, cap: Cap, atom: Atom) -> bool
    ensures { result ≡ is_first_lacking (reached (reverse acts.now) who) cap atom }
{
    let sought = Sought {
        gifts: Gifts::Both,
        who,
        cap,
    };
    is_first_lacking(acts, sought, atom)
}

/// Says whether the atom is the first of the capability's that nobody in reach keeps.
fn is_first_unkept(acts: &[Act], who: Principal, cap: Cap, atom: Atom) -> bool
    ensures { result ≡ is_first_lacking (kept_in_reach (reverse acts.now) who) cap atom }
{
    let sought = Sought {
        gifts: Gifts::Grants,
        who,
        cap,
    };
    is_first_lacking(acts, sought, atom)
}

fn is_allowed(acts: &[Act], who: Principal, cap: Cap, kept: bool, parts: &[Part]) -> bool
    ensures { result ≡ is_cert (reverse acts.now) (Allow who cap kept parts.now) }
{
    let sought = Sought {
        gifts: gifts_for(kept),
        who,
        cap,
    };
    !is_kernel(who) && are_parts(acts, sought, parts)
}

fn is_denied(acts: &[Act], who: Principal, cap: Cap, atom: Atom, strip: Option<u32>) -> bool
    ensures { result ≡ is_cert (reverse acts.now) (Deny who cap atom strip) }
{
    !is_kernel(who)
        && is_first_unowned(acts, who, cap, atom)
        && same_number(strip, newest_strip(acts, atom))
}

fn is_borrowed(acts: &[Act], who: Principal, cap: Cap, atom: Atom, act: u32) -> bool
    ensures { result ≡ is_cert (reverse acts.now) (Borrowed who cap atom act) }
{
    !is_kernel(who)
        && is_held(acts, who, cap)
        && is_first_unkept(acts, who, cap, atom)
        && is_act(giver(acts, Gifts::Lends, who, atom), act)
}

/// Says whether a certificate is true of the first `before` acts.
///
/// It takes no memory. Atoms that all acts dealt with alike are a piece, and it walks back over the acts once for each piece of
/// the capability; a lend of the piece on the way costs a look at the acts that tell whether its loan has ended.
pub fn check_cert(acts: &Acts, before: u32, cert: &Cert) -> bool
    requires { before ≤ length acts.now.list }
    ensures { result ≡ is_cert (reverse (take before acts.now.list)) cert.now }
{
    let acts = acts.as_slice().split_at(before as usize).0;
    match cert {
        Cert::Allow {
            who,
            cap,
            kept,
            parts,
        } => is_allowed(acts, *who, *cap, *kept, parts.as_slice()),
        Cert::Deny {
            who,
            cap,
            atom,
            strip,
        } => is_denied(acts, *who, *cap, *atom, *strip),
        Cert::Borrowed {
            who,
            cap,
            atom,
            act,
        } => is_borrowed(acts, *who, *cap, *atom, *act),
    }
}
