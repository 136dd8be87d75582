// The certificate of a need.
ghost use Rattle.std.specs.Prelude.{◌≡◌, ◌+◌, ◌-◌, ◌<◌, ◌≤◌, ℕ, Bool, IfOk, Some, false, reverse, true};
ghost use Rattle.lx_caps.specs.History.{holds_by_reach};
ghost use Rattle.lx_certificates.specs.declared.givers.Gifts.TheVariants.{Both, Grants};
ghost use Rattle.lx_certificates.specs.declared.make.Cutting.TheVariants.{Lack};
ghost use Rattle.lx_certificates.specs.Certificates.{is_act, is_kernel, same_number, seek};
ghost use Rattle.lx_certificates.specs.Givers.{count_of, first_of, given, nth_atom};
ghost use Rattle.lx_certificates.specs.Laws.{IsCertFor};
ghost use Rattle.lx_certificates.specs.Making.{IsCutting, IsNextPart};

use crate::givers::{Gifts, Sought, count_of, first_of, giver, newest_strip, next_piece};
use crate::{Cert, Part, Parts};
use lx_caps::{Act, Atom, Cap, Principal};
use lx_words::{Items, Memory, number_of};
use std::alloc::Global;

/// Where the atoms end that the act gave, from a place on to where they are known so.
fn run_end(acts: &[Act], sought: Sought, act: usize, from: u64, known: u64) -> u64
    requires order { from < known }
    requires within { known ≤ count_of sought.cap }
    requires given { (k : ℕ) → from ≤ k → k < known → given (reverse acts.now) sought k ≡ Some act }
    ensures more { from < result }
    ensures bound { result ≤ count_of sought.cap }
    ensures given { (k : ℕ) → from ≤ k → k < result → given (reverse acts.now) sought k ≡ Some act }
    ensures other { result < count_of sought.cap → is_act (given (reverse acts.now) sought result) act ≡ false }
{
    let count = count_of(sought.cap);
    let mut at = known;
    while at < count {
        let next = next_piece(acts, sought, at, count);
        if !is_giver(next.giver, act) {
            return at;
        }
        at = next.end;
    }
    at
}

fn is_giver(found: Option<usize>, act: usize) -> bool
    ensures { result ≡ is_act found act }
{
    match found {
        Some(number) => number == act,
        None => false,
    }
}

/// The address of an atom of the capability.
fn address_at(cap: Cap, place: u64) -> Result<u64, Memory>
    ensures { IfOk result (λ a. a ≡ first_of cap + place) }
{
    match first_of(cap).checked_add(place) {
        Some(address) => Ok(address),
        None => Err(Memory),
    }
}

/// Atoms of a capability from one place to before another, and the act that gave them.
pub fn part_of(cap: Cap, from: u64, end: u64, act: usize) -> Result<Part, Memory>
    requires { from ≤ end }
    ensures { IfOk result (λ p. p ≡ record { low = first_of cap + from; size = end - from; act = act }) }
{
    let low = address_at(cap, from)?;
    let act = number_of(act)?;
    Ok(Part {
        low,
        size: end - from,
        act,
    })
}

/// Appends the part that begins at a place, and gives the place where it ends; none where nobody gave the atom.
fn push_part(
    acts: &[Act],
    sought: Sought,
    parts: &mut Parts,
    from: u64,
) -> Result<Option<u64>, Memory>
    requires { from < count_of sought.cap }
    ensures { IfOk result (IsNextPart (reverse acts.now) sought from parts.old parts.new) }
{
    let next = next_piece(acts, sought, from, count_of(sought.cap));
    match next.giver {
        Some(act) => {
            let end = run_end(acts, sought, act, from, next.end);
            let part = part_of(sought.cap, from, end, act)?;
            parts.push(part)?;
            Ok(Some(end))
        }
        None => Ok(None),
    }
}

/// The parts of a capability whose atoms were all given, or the place of the first one that was not.
#[derive(Drop)]
pub enum Cutting {
    Parts(Parts),
    Lack(u64),
}

fn cut(alloc: Global, acts: &[Act], sought: Sought) -> Result<Cutting, Memory>
    ensures { IfOk result (IsCutting (reverse acts.now) sought) }
{
    let count = count_of(sought.cap);
    let mut parts = Items::new(alloc);
    let mut at = 0;
    while at < count {
        match push_part(acts, sought, &mut parts, at)? {
            Some(end) => at = end,
            None => return Ok(Cutting::Lack(at)),
        }
    }
    Ok(Cutting::Parts(parts))
}

/// An atom of the capability by its place.
pub fn atom_at(cap: Cap, place: u64) -> Result<Atom, Memory>
    ensures { IfOk result (λ x. x ≡ nth_atom cap place) }
{
    match cap {
        Cap::Write { at, .. } => match at.checked_add(place) {
            Some(byte) => Ok(Atom::Byte(byte)),
            None => Err(Memory),
        },
        Cap::Call { at } => Ok(Atom::Call(at)),
        Cap::Ref { ty, at } => Ok(Atom::Ref(ty, at)),
    }
}

/// The number of an act that was found, where one was.
pub fn number_if(found: Option<usize>) -> Result<Option<u32>, Memory>
    ensures { IfOk result (λ n. same_number n found ≡ true) }
{
    match found {
        None => Ok(None),
        Some(number) => {
            let number = number_of(number)?;
            Ok(Some(number))
        }
    }
}

/// The certificate that an atom of the capability, the first one so, is not owned.
fn denied(acts: &[Act], who: Principal, cap: Cap, kept: bool, place: u64) -> Result<Cert, Memory>
    requires of_module { is_kernel who ≡ false }
    requires lack { IsCutting (reverse acts.now) (seek Both who cap) (Lack place) }
    ensures { IfOk result (IsCertFor (reverse acts.now) who cap kept) }
{
    let atom = atom_at(cap, place)?;
    let strip = number_if(newest_strip(acts, atom))?;
    Ok(Cert::Deny {
        who,
        cap,
        atom,
        strip,
    })
}

/// The certificate that an atom of what is held, the first one so, is on loan alone.
fn borrowed(acts: &[Act], who: Principal, cap: Cap, place: u64) -> Result<Cert, Memory>
    requires of_module { is_kernel who ≡ false }
    requires held { holds_by_reach (reverse acts.now) who cap ≡ true }
    requires lack { IsCutting (reverse acts.now) (seek Grants who cap) (Lack place) }
    ensures { IfOk result (IsCertFor (reverse acts.now) who cap true) }
{
    let atom = atom_at(cap, place)?;
    match giver(acts, Gifts::Lends, who, atom) {
        Some(number) => {
            let act = number_of(number)?;
            Ok(Cert::Borrowed {
                who,
                cap,
                atom,
                act,
            })
        }
        // What is held and not granted was lent.
        None => unreachable!(),
    }
}

/// The certificate of what is only to be held.
fn held_cert(alloc: Global, acts: &[Act], who: Principal, cap: Cap) -> Result<Cert, Memory>
    requires { is_kernel who ≡ false }
    ensures { IfOk result (IsCertFor (reverse acts.now) who cap false) }
{
    let sought = Sought {
        gifts: Gifts::Both,
        who,
        cap,
    };
    match cut(alloc, acts, sought)? {
        Cutting::Parts(parts) => Ok(Cert::Allow {
            who,
            cap,
            kept: false,
            parts,
        }),
        Cutting::Lack(place) => {
            let cert = denied(acts, who, cap, false, place)?;
            Ok(cert)
        }
    }
}

/// The certificate of what is to be kept, and is not.
fn unkept_cert(
    alloc: Global,
    acts: &[Act],
    who: Principal,
    cap: Cap,
    place: u64,
) -> Result<Cert, Memory>
    requires of_module { is_kernel who ≡ false }
    requires lack { IsCutting (reverse acts.now) (seek Grants who cap) (Lack place) }
    ensures { IfOk result (IsCertFor (reverse acts.now) who cap true) }
{
    let sought = Sought {
        gifts: Gifts::Both,
        who,
        cap,
    };
    match cut(alloc, acts, sought)? {
        Cutting::Parts(_) => {
            let cert = borrowed(acts, who, cap, place)?;
            Ok(cert)
        }
        Cutting::Lack(first) => {
            let cert = denied(acts, who, cap, true, first)?;
            Ok(cert)
        }
    }
}

fn kept_cert(alloc: Global, acts: &[Act], who: Principal, cap: Cap) -> Result<Cert, Memory>
    requires { is_kernel who ≡ false }
    ensures { IfOk result (IsCertFor (reverse acts.now) who cap true) }
{
    let sought = Sought {
        gifts: Gifts::Grants,
        who,
        cap,
    };
    match cut(alloc, acts, sought)? {
        Cutting::Parts(parts) => Ok(Cert::Allow {
            who,
            cap,
            kept: true,
            parts,
        }),
        Cutting::Lack(place) => {
            let cert = unkept_cert(alloc, acts, who, cap, place)?;
            Ok(cert)
        }
    }
}

/// The certificate of a module's need of a capability, which must be kept or only held, by the acts so far.
///
/// # Errors
/// An act with a number of more than 32 bits, and an atom outside the address space, are want of memory too.
pub fn cert_for(
    alloc: Global,
    acts: &[Act],
    who: Principal,
    cap: Cap,
    kept: bool,
) -> Result<Cert, Memory>
    requires { is_kernel who ≡ false }
    ensures { IfOk result (IsCertFor (reverse acts.now) who cap kept) }
{
    if kept {
        let cert = kept_cert(alloc, acts, who, cap)?;
        Ok(cert)
    } else {
        let cert = held_cert(alloc, acts, who, cap)?;
        Ok(cert)
    }
}
