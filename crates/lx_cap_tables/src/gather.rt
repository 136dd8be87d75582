//! What the lists of owners give a principal, gathered into a list.
ghost use Rattle.std.specs.Prelude.{◌≡◌, ◌+◌, ◌*◌, ◌/◌, ◌%◌, ◌^◌, ◌<◌, ◌≤◌, ℕ, Bool, ◌&&◌, ◌||◌, true, length, List, IfOk, OnOk};
ghost use Rattle.std.specs.List.{All};
ghost use Rattle.lx_cap_lists.specs.Parts.{is_among};
ghost use Rattle.lx_caps.specs.declared.Atom.{Atom};
ghost use Rattle.lx_caps.specs.declared.Atom.TheVariants.{Byte};
ghost use Rattle.lx_caps.specs.Order.{is_call_or_ref, stands_in};
ghost use Rattle.lx_cap_nodes.specs.Words.{nodes_at};
ghost use Rattle.lx_cap_lists.specs.Atoms.{atom_among, gives_atom, spot_fits};
ghost use Rattle.lx_cap_lists.specs.Kept.{all_nodes};
ghost use Rattle.lx_cap_lists.specs.Lists.{some_below};
ghost use Rattle.lx_cap_lists.specs.Loans.{loans_of};
ghost use Rattle.lx_cap_lists.specs.Owned.{AllFit, alone_by, lent_atom, listed_atom};
ghost use Rattle.lx_cap_tables.specs.Gathered.{has_part, is_byte, PartFits};
ghost use Rattle.lx_cap_lists.specs.Tables.{loan_key, owner_key};

use crate::loans::THREADS;
use indexmap::IndexSet;
use lx_cap_lists::{
    Entry, Key, PartBytes, Pool, Spot, atom_alone, loan_key, owner_key, place_in, principal_of,
    visit,
};
use lx_cap_nodes::ListName;
use lx_caps::{Atom, Principal, is_same, put_found};
use lx_words::Memory;
use std::alloc::Global;
use std::marker::Model;

/// What atoms of one kind are gathered into.
pub(crate) trait Gather {
    ghost use Rattle.std.specs.Prelude.{◌≡◌, Bool, ◌&&◌, ◌||◌, true, OnOk};
    ghost use Rattle.lx_caps.specs.declared.Atom.{Atom};
    ghost use Rattle.lx_cap_lists.specs.Atoms.{gives_atom, spot_fits};

    /// The atom is of the kind.
    ghost of_kind: { Atom → Bool };

    /// The atom is among what was gathered.
    ghost has: { Self → Atom → Bool };

    /// Adds what an entry gives a principal.
    fn add(&mut self, who: Principal, entry: Entry) -> Result<(), Memory>
        requires { spot_fits entry.spot ≡ true }
        ensures { OnOk result ((x : Atom) → has self.new x ≡ (has self.old x || (of_kind x && gives_atom who x entry))) };
}

/// The call or the reference that an entry gives a principal.
fn alone_by(entry: Entry, who: Principal) -> Option<Atom>
    ensures { result ≡ alone_by who entry }
{
    if is_same(who, principal_of(entry.holder)) {
        atom_alone(entry)
    } else {
        None
    }
}

/// Calls and references. One that is given by two entries is there twice.
impl Gather for Vec<Atom> {
    ghost of_kind = { is_call_or_ref };

    ghost has = { λ atoms x. stands_in x atoms.items };

    fn add(&mut self, who: Principal, entry: Entry) -> Result<(), Memory> {
        put_found(self, alone_by(entry, who))?;
        Ok(())
    }
}

/// Bytes by the parts where they lie, each part with an address.
#[derive(Drop)]
pub(crate) struct Parts {
    list: Vec<PartBytes>,
}

impl Model for Parts {
    ghost use Rattle.std.specs.Prelude.{List};
    ghost use Rattle.std.specs.List.{All};
    ghost use Rattle.lx_cap_lists.specs.declared.PartBytes.{PartBytes};
    ghost use Rattle.lx_cap_tables.specs.Gathered.{PartFits};

    ghost Value = { List PartBytes };

    ghost view = { λ p. p.list.items };

    ghost invariant = { λ p. All PartFits p.list.items };
}

/// Adds the bytes that an entry gives a principal.
fn put_bytes(parts: &mut Vec<PartBytes>, who: Principal, entry: Entry) -> Result<(), Memory>
    requires { spot_fits entry.spot ≡ true }
    ensures added { OnOk result ((x : Atom) → has_part parts.new.items x ≡ (has_part parts.old.items x || (is_byte x && gives_atom who x entry))) }
    ensures fit { All PartFits parts.old.items → All PartFits parts.new.items }
{
    match entry.spot {
        Spot::Part(part) if is_same(who, principal_of(entry.holder)) => {
            parts.push(PartBytes {
                part,
                mask: entry.mask,
            })?;
            Ok(())
        }
        _ => Ok(()),
    }
}

impl Gather for Parts {
    ghost of_kind = { is_byte };

    ghost has = { has_part };

    fn add(&mut self, who: Principal, entry: Entry) -> Result<(), Memory> {
        put_bytes(&mut self.list, who, entry)?;
        Ok(())
    }
}

/// Adds what a list of owners gives a principal.
fn add_list<G: Gather>(out: &mut G, pool: &Pool, list: u64, who: Principal) -> Result<(), Memory>
    requires list { list < length pool.now.owners }
    requires fit { all_nodes (λ e. spot_fits e.spot) (nodes_at pool.now.owners list) ≡ true }
    ensures { OnOk result ((x : Atom) → G.has out.new x ≡ (G.has out.old x || (G.of_kind x && atom_among who (nodes_at pool.now.owners list) x))) }
{
    pool.laws();
    let mut node = pool.first(ListName::Owner(list));
    while let Some(n) = node {
        let seen = visit(pool, ListName::Owner(list), n);
        out.add(who, seen.entry)?;
        node = seen.next;
    }
    Ok(())
}

/// Adds what the list of owners with this key gives a principal.
fn add_listed<G: Gather>(
    out: &mut G,
    pool: &Pool,
    owners: &IndexSet<Key>,
    key: Key,
    who: Principal,
) -> Result<(), Memory>
    requires lists { length owners.now.keys ≤ length pool.now.owners }
    requires fit { AllFit pool.now.owners }
    ensures { OnOk result ((x : Atom) → G.has out.new x ≡ (G.has out.old x || (G.of_kind x && listed_atom pool.now.owners owners.now.keys who x key))) }
{
    if let Some(list) = place_in(owners, key) {
        add_list(out, pool, list, who)?;
    }
    Ok(())
}

/// Whose it is, and so many loans of a thread.
#[derive(Clone, Copy)]
struct Lent {
    who: Principal,
    thread: u32,
    count: u64,
}

/// Adds what a principal has on these loans.
fn add_lent<G: Gather>(
    out: &mut G,
    pool: &Pool,
    owners: &IndexSet<Key>,
    lent: Lent,
) -> Result<(), Memory>
    requires lists { length owners.now.keys ≤ length pool.now.owners }
    requires fit { AllFit pool.now.owners }
    ensures { OnOk result ((x : Atom) → G.has out.new x ≡ (G.has out.old x || (G.of_kind x && lent_atom pool.now.owners owners.now.keys lent.who x lent.thread lent.count))) }
{
    for older in 0..lent.count {
        add_listed(out, pool, owners, loan_key(lent.thread, older), lent.who)?;
    }
    Ok(())
}

/// Adds what a principal has on all loans.
fn add_all_lent<G: Gather>(
    out: &mut G,
    pool: &Pool,
    owners: &IndexSet<Key>,
    loans: &[u64],
    who: Principal,
) -> Result<(), Memory>
    requires lists { length owners.now.keys ≤ length pool.now.owners }
    requires threads { length loans.now ≡ 16 }
    requires fit { AllFit pool.now.owners }
    ensures { OnOk result ((x : Atom) → G.has out.new x ≡ (G.has out.old x || (G.of_kind x && some_below 16 (λ t. lent_atom pool.now.owners owners.now.keys who x t (loans_of loans.now t))))) }
{
    for thread in 0..THREADS {
        let lent = Lent {
            who,
            thread,
            count: loans[thread as usize],
        };
        add_lent(out, pool, owners, lent)?;
    }
    Ok(())
}

/// Adds what a principal owns, by its list and those of all loans.
fn add_owned<G: Gather>(
    out: &mut G,
    pool: &Pool,
    owners: &IndexSet<Key>,
    loans: &[u64],
    who: Principal,
) -> Result<(), Memory>
    requires lists { length owners.now.keys ≤ length pool.now.owners }
    requires threads { length loans.now ≡ 16 }
    requires fit { AllFit pool.now.owners }
    ensures { OnOk result ((x : Atom) → G.has out.new x
        ≡ (G.has out.old x || (G.of_kind x && (listed_atom pool.now.owners owners.now.keys who x (owner_key who) || some_below 16 (λ t. lent_atom pool.now.owners owners.now.keys who x t (loans_of loans.now t)))))) }
{
    add_listed(out, pool, owners, owner_key(who), who)?;
    add_all_lent(out, pool, owners, loans, who)?;
    Ok(())
}

/// The calls and references that a principal owns. One that it both keeps and has on loan is there more than once.
pub(crate) fn calls_and_refs(
    alloc: Global,
    pool: &Pool,
    owners: &IndexSet<Key>,
    loans: &[u64],
    who: Principal,
) -> Result<Vec<Atom>, Memory>
    requires lists { length owners.now.keys ≤ length pool.now.owners }
    requires threads { length loans.now ≡ 16 }
    requires fit { AllFit pool.now.owners }
    ensures { IfOk result (λ found. (x : Atom) → stands_in x found.items
        ≡ (is_call_or_ref x && (listed_atom pool.now.owners owners.now.keys who x (owner_key who) || some_below 16 (λ t. lent_atom pool.now.owners owners.now.keys who x t (loans_of loans.now t))))) }
{
    let mut found = Vec::new(alloc);
    add_owned(&mut found, pool, owners, loans, who)?;
    Ok(found)
}

/// The bytes that a principal owns, by parts in no order. A part in which it both keeps bytes and has some on loan is there more
/// than once.
pub(crate) fn owned_parts(
    alloc: Global,
    pool: &Pool,
    owners: &IndexSet<Key>,
    loans: &[u64],
    who: Principal,
) -> Result<Vec<PartBytes>, Memory>
    requires lists { length owners.now.keys ≤ length pool.now.owners }
    requires threads { length loans.now ≡ 16 }
    requires fit { AllFit pool.now.owners }
    ensures bytes { IfOk result (λ parts. (b : ℕ) → is_among b parts.items
        ≡ (listed_atom pool.now.owners owners.now.keys who (Byte b) (owner_key who) || some_below 16 (λ t. lent_atom pool.now.owners owners.now.keys who (Byte b) t (loans_of loans.now t)))) }
    ensures fit { IfOk result (λ parts. All PartFits parts.items) }
{
    let mut parts = Parts {
        list: Vec::new(alloc),
    };
    add_owned(&mut parts, pool, owners, loans, who)?;
    Ok(parts.list)
}
