// Atoms in order.
ghost use Rattle.std.specs.Prelude.{◌≡◌, ◌||◌, ◌++◌, ◌∷◌, None, List, IfOk, OnOk};
ghost use Rattle.std.specs.Ordering.{is_lt};
ghost use Rattle.std.specs.List.Sorted.{IsSortedBy};
ghost use Rattle.lx_caps.specs.declared.Atom.{Atom};
ghost use Rattle.lx_caps.specs.Order.{is_before, is_call_or_ref, stands_in, AreAllBehind};
ghost use Rattle.lx_caps.specs.Once.{is_atom, rising};

use crate::Atom;
use crate::terms::{is_before, is_behind};
use lx_words::Memory;
use std::alloc::Global;
use std::cmp::Ordering;

pub(crate) fn is_call_or_ref(atom: Atom) -> bool
    ensures { result ≡ is_call_or_ref atom }
{
    match atom {
        Atom::Byte(_) => false,
        Atom::Call(_) | Atom::Ref(..) => true,
    }
}

/// Adds an atom to a list, if one is found.
pub fn put_found(atoms: &mut Vec<Atom>, found: Option<Atom>) -> Result<(), Memory>
    ensures { OnOk result ((x : Atom) → stands_in x atoms.new.items ≡ (stands_in x atoms.old.items || is_atom found x)) }
{
    if let Some(atom) = found {
        atoms.push(atom)?;
    }
    Ok(())
}

fn compare(x: Atom, y: Atom) -> Ordering
    ensures { is_lt result ≡ is_before x y }
{
    if is_before(x, y) {
        Ordering::Less
    } else if is_before(y, x) {
        Ordering::Greater
    } else {
        Ordering::Equal
    }
}

fn sort(atoms: &mut Vec<Atom>)
    ensures sorted { IsSortedBy is_before atoms.new.items }
    ensures same { (x : Atom) → stands_in x atoms.new.items ≡ stands_in x atoms.old.items }
{
    atoms.sort_unstable_by(|x, y| compare(*x, *y));
}

/// Adds an atom if it comes behind the last one, and gives the last one then.
fn put_behind(atoms: &mut Vec<Atom>, last: Option<Atom>, atom: Atom) -> Result<Option<Atom>, Memory>
    ensures { IfOk result (λ now. (rest : List Atom) → atoms.new.items ++ rising now rest ≡ atoms.old.items ++ rising last (atom ∷ rest)) }
{
    if is_behind(last, atom) {
        atoms.push(atom)?;
        Ok(Some(atom))
    } else {
        Ok(last)
    }
}

/// Sorted atoms without repeats.
fn once(alloc: Global, sorted: &[Atom]) -> Result<Vec<Atom>, Memory>
    ensures { IfOk result (λ atoms. atoms.items ≡ rising None sorted.now) }
{
    let mut atoms = Vec::new(alloc);
    let mut last = None;
    for atom in sorted {
        last = put_behind(&mut atoms, last, *atom)?;
    }
    Ok(atoms)
}

/// The atoms in order, each once.
pub fn in_order(alloc: Global, mut atoms: Vec<Atom>) -> Result<Vec<Atom>, Memory>
    ensures { IfOk result (λ listed. AreAllBehind (λ x. stands_in x atoms.items) None listed.items) }
{
    sort(&mut atoms);
    let listed = once(alloc, &atoms)?;
    Ok(listed)
}
