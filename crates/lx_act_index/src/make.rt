//! Certificates from an index.
ghost use Rattle.std.specs.Prelude.{◌≡◌, ◌++◌, ◌∷◌, [], ◌+◌, ◌<◌, ◌≤◌, ℕ, true, false, All, Some, IfOk};
ghost use Rattle.lx_caps.specs.History.{History, holds_by_reach};
ghost use Rattle.lx_caps.specs.declared.Atom.{Atom};
ghost use Rattle.lx_certificates.specs.declared.Cert.{Cert};
ghost use Rattle.lx_certificates.specs.declared.Need.{Need};
ghost use Rattle.lx_certificates.specs.declared.givers.Gifts.TheVariants.{Both, Grants};
ghost use Rattle.lx_certificates.specs.declared.make.Cutting.TheVariants.{Lack};
ghost use Rattle.lx_certificates.specs.Certificates.{is_act, is_kernel, seek};
ghost use Rattle.lx_certificates.specs.Givers.{count_of, given, giver, newest_strip};
ghost use Rattle.lx_certificates.specs.Laws.{IsCertFor};
ghost use Rattle.lx_certificates.specs.Making.{IsCutting, IsNextPart};
ghost use Rattle.lx_certificates.specs.Needs.{AreCertsOf, IsCertOf, is_allow, is_met, up_to_unmet};
ghost use Rattle.lx_cap_lists.specs.Tables.{bit_of};
ghost use Rattle.lx_act_index.specs.Standing.{IsAtom, IsFrom, MovesOn, StandsForActs};

use crate::index::ActIndex;
use crate::lines::{Asked, Run};
use crate::table::{run_in, strip_in};
use lx_caps::{Atom, Cap, Principal};
use lx_certificates::{
    Cert, Certs, Cutting, Gifts, Need, Parts, Piece, Sought, atom_at, count_of, number_if, part_of,
};
use lx_words::{Items, Memory, number_of};
use std::alloc::Global;

fn number_in(found: Option<u32>) -> Option<usize>
    ensures { result ≡ found }
{
    match found {
        Some(act) => Some(act as usize),
        None => None,
    }
}

/// Who gave an atom, and how many atoms of its part from it on were given so.
fn run_of(index: &ActIndex, gifts: Gifts, who: Principal, atom: Atom) -> Run
    ensures some { 0 < result.end }
    ensures within { bit_of atom + result.end ≤ 64 }
    ensures alike { (h : History) → StandsForActs index.now h → (k : ℕ) → k < result.end → (x : Atom) → IsFrom atom k x → giver gifts h who x ≡ result.giver }
{
    let asked = Asked { gifts, who };
    run_in(&index.table, index.threads.as_slice(), asked, atom)
}

/// The newest act that gives the atom to someone in reach of the principal, and still stands.
fn giver(index: &ActIndex, gifts: Gifts, who: Principal, atom: Atom) -> Option<usize>
    ensures { (h : History) → StandsForActs index.now h → result ≡ giver gifts h who atom }
{
    number_in(run_of(index, gifts, who, atom).giver)
}

/// The newest strip that has the atom.
fn newest_strip(index: &ActIndex, atom: Atom) -> Option<usize>
    ensures { (h : History) → StandsForActs index.now h → result ≡ newest_strip h atom }
{
    number_in(strip_in(&index.table, atom))
}

/// The atom at a place, if it lies in the address space.
fn atom_of(cap: Cap, place: u64) -> Option<Atom>
    ensures { IsAtom cap place result }
{
    match cap {
        Cap::Write { at, .. } => match at.checked_add(place) {
            Some(byte) => Some(Atom::Byte(byte)),
            None => None,
        },
        Cap::Call { at } => Some(Atom::Call(at)),
        Cap::Ref { ty, at } => Some(Atom::Ref(ty, at)),
    }
}

/// The atoms from a place on that were given as that one was, but none from `end` on. Nobody gives a byte outside of the
/// address space.
fn next_piece(index: &ActIndex, sought: Sought, from: u64, end: u64) -> Piece
    requires some { from < end }
    requires within { end ≤ count_of sought.cap }
    ensures more { from < result.end }
    ensures bound { result.end ≤ end }
    ensures alike { (h : History) → StandsForActs index.now h → (k : ℕ) → from ≤ k → k < result.end → given h sought k ≡ result.giver }
{
    match atom_of(sought.cap, from) {
        Some(atom) => {
            let run = run_of(index, sought.gifts, sought.who, atom);
            Piece {
                giver: number_in(run.giver),
                end: from + run.end.min(end - from),
            }
        }
        None => Piece { giver: None, end },
    }
}

fn is_giver(found: Option<usize>, act: usize) -> bool
    ensures { result ≡ is_act found act }
{
    match found {
        Some(number) => number == act,
        None => false,
    }
}

/// Where the atoms end that the act gave, from a place on to where they are known so.
fn run_end(index: &ActIndex, sought: Sought, act: usize, from: u64, known: u64) -> u64
    requires order { from < known }
    requires within { known ≤ count_of sought.cap }
    requires given { (h : History) → StandsForActs index.now h → (k : ℕ) → from ≤ k → k < known → given h sought k ≡ Some act }
    ensures more { from < result }
    ensures bound { result ≤ count_of sought.cap }
    ensures given { (h : History) → StandsForActs index.now h → (k : ℕ) → from ≤ k → k < result → given h sought k ≡ Some act }
    ensures other { (h : History) → StandsForActs index.now h → result < count_of sought.cap → is_act (given h sought result) act ≡ false }
{
    let count = count_of(sought.cap);
    let mut at = known;
    while at < count {
        let next = next_piece(index, sought, at, count);
        if !is_giver(next.giver, act) {
            return at;
        }
        at = next.end;
    }
    at
}

/// Appends the part that begins at a place, and gives the place where it ends; none where nobody gave the atom.
fn push_part(
    index: &ActIndex,
    sought: Sought,
    parts: &mut Parts,
    from: u64,
) -> Result<Option<u64>, Memory>
    requires { from < count_of sought.cap }
    ensures next { IfOk result (λ end. (h : History) → StandsForActs index.now h → IsNextPart h sought from parts.old parts.new end) }
    ensures moves { IfOk result (MovesOn from (count_of sought.cap)) }
{
    let next = next_piece(index, sought, from, count_of(sought.cap));
    match next.giver {
        Some(act) => {
            let end = run_end(index, sought, act, from, next.end);
            let part = part_of(sought.cap, from, end, act)?;
            parts.push(part)?;
            Ok(Some(end))
        }
        None => Ok(None),
    }
}

fn cut(alloc: Global, index: &ActIndex, sought: Sought) -> Result<Cutting, Memory>
    ensures { IfOk result (λ cutting. (h : History) → StandsForActs index.now h → IsCutting h sought cutting) }
{
    let count = count_of(sought.cap);
    let mut parts = Items::new(alloc);
    let mut at = 0;
    while at < count {
        match push_part(index, sought, &mut parts, at)? {
            Some(end) => at = end,
            None => return Ok(Cutting::Lack(at)),
        }
    }
    Ok(Cutting::Parts(parts))
}

/// The certificate that an atom of the capability, the first one so, is not owned.
fn denied(index: &ActIndex, need: Need, place: u64) -> Result<Cert, Memory>
    requires of_module { is_kernel need.who ≡ false }
    requires lack { (h : History) → StandsForActs index.now h → IsCutting h (seek Both need.who need.cap) (Lack place) }
    ensures { IfOk result (λ c. (h : History) → StandsForActs index.now h → IsCertFor h need.who need.cap need.kept c) }
{
    let atom = atom_at(need.cap, place)?;
    let strip = number_if(newest_strip(index, atom))?;
    Ok(Cert::Deny {
        who: need.who,
        cap: need.cap,
        atom,
        strip,
    })
}

/// The certificate that an atom of what is held, the first one so, is on loan alone.
fn borrowed(index: &ActIndex, who: Principal, cap: Cap, place: u64) -> Result<Cert, Memory>
    requires of_module { is_kernel who ≡ false }
    requires held { (h : History) → StandsForActs index.now h → holds_by_reach h who cap ≡ true }
    requires lack { (h : History) → StandsForActs index.now h → IsCutting h (seek Grants who cap) (Lack place) }
    ensures { IfOk result (λ c. (h : History) → StandsForActs index.now h → IsCertFor h who cap true c) }
{
    let atom = atom_at(cap, place)?;
    match giver(index, Gifts::Lends, who, atom) {
        Some(number) => {
            let act = number_of(number)?;
            Ok(Cert::Borrowed {
                who,
                cap,
                atom,
                act,
            })
        }
        // What is held and not granted was lent, so this does not come where the index stands for a history.
        None => Err(Memory),
    }
}

/// The certificate of what is only to be held.
fn held_cert(alloc: Global, index: &ActIndex, need: Need) -> Result<Cert, Memory>
    requires module { is_kernel need.who ≡ false }
    requires held { need.kept ≡ false }
    ensures { IfOk result (λ c. (h : History) → StandsForActs index.now h → IsCertFor h need.who need.cap need.kept c) }
{
    let sought = Sought {
        gifts: Gifts::Both,
        who: need.who,
        cap: need.cap,
    };
    match cut(alloc, index, sought)? {
        Cutting::Parts(parts) => Ok(Cert::Allow {
            who: need.who,
            cap: need.cap,
            kept: false,
            parts,
        }),
        Cutting::Lack(place) => {
            let cert = denied(index, need, place)?;
            Ok(cert)
        }
    }
}

/// The certificate of what is to be kept, and is not.
fn unkept_cert(alloc: Global, index: &ActIndex, need: Need, place: u64) -> Result<Cert, Memory>
    requires of_module { is_kernel need.who ≡ false }
    requires kept { need.kept ≡ true }
    requires lack { (h : History) → StandsForActs index.now h → IsCutting h (seek Grants need.who need.cap) (Lack place) }
    ensures { IfOk result (λ c. (h : History) → StandsForActs index.now h → IsCertFor h need.who need.cap need.kept c) }
{
    let sought = Sought {
        gifts: Gifts::Both,
        who: need.who,
        cap: need.cap,
    };
    match cut(alloc, index, sought)? {
        Cutting::Parts(_) => {
            let cert = borrowed(index, need.who, need.cap, place)?;
            Ok(cert)
        }
        Cutting::Lack(first) => {
            let cert = denied(index, need, first)?;
            Ok(cert)
        }
    }
}

fn kept_cert(alloc: Global, index: &ActIndex, need: Need) -> Result<Cert, Memory>
    requires module { is_kernel need.who ≡ false }
    requires kept { need.kept ≡ true }
    ensures { IfOk result (λ c. (h : History) → StandsForActs index.now h → IsCertFor h need.who need.cap need.kept c) }
{
    let sought = Sought {
        gifts: Gifts::Grants,
        who: need.who,
        cap: need.cap,
    };
    match cut(alloc, index, sought)? {
        Cutting::Parts(parts) => Ok(Cert::Allow {
            who: need.who,
            cap: need.cap,
            kept: true,
            parts,
        }),
        Cutting::Lack(place) => {
            let cert = unkept_cert(alloc, index, need, place)?;
            Ok(cert)
        }
    }
}

/// The certificate of a need by the acts that the index stands for.
pub(crate) fn cert_by(alloc: Global, index: &ActIndex, need: Need) -> Result<Cert, Memory>
    requires { is_kernel need.who ≡ false }
    ensures { IfOk result (λ c. (h : History) → StandsForActs index.now h → IsCertFor h need.who need.cap need.kept c) }
{
    if need.kept {
        let cert = kept_cert(alloc, index, need)?;
        Ok(cert)
    } else {
        let cert = held_cert(alloc, index, need)?;
        Ok(cert)
    }
}

fn is_allow(cert: &Cert) -> bool
    ensures { result ≡ is_allow cert.now }
{
    matches!(cert, Cert::Allow { .. })
}

/// Appends the certificate of a need, and says whether the need is met.
fn push_cert(alloc: Global, index: &ActIndex, certs: &mut Certs, need: Need) -> Result<bool, Memory>
    requires { is_kernel need.who ≡ false }
    ensures { IfOk result (λ goes_on. (h : History) → StandsForActs index.now h → (c : Cert) × (certs.new ≡ certs.old ++ c ∷ []) × IsCertOf h need c × (goes_on ≡ is_met h need)) }
{
    let cert = cert_by(alloc, index, need)?;
    let met = is_allow(&cert);
    certs.push(cert)?;
    Ok(met)
}

/// The certificates of needs, up to and with that of the first that is not met.
pub(crate) fn certs_by(alloc: Global, index: &ActIndex, needs: &[Need]) -> Result<Certs, Memory>
    requires { All (λ (n : Need). is_kernel n.who ≡ false) needs.now }
    ensures { IfOk result (λ certs. (h : History) → StandsForActs index.now h → AreCertsOf h (up_to_unmet h needs.now) certs) }
{
    let mut certs = Items::new(alloc);
    for need in needs {
        if !push_cert(alloc, index, &mut certs, *need)? {
            return Ok(certs);
        }
    }
    Ok(certs)
}
