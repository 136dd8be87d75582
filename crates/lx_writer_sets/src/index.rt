//! The table that finds the node of a writer in the list of a part.
ghost use Rattle.std.specs.Prelude.{◌≡◌, ◌+◌, ◌<◌, ◌≤◌, None, Some, OnOk};
ghost use Rattle.indexmap.specs.IndexMap.{spare};
ghost use Rattle.lx_writer_sets.specs.Index.{Key, key_of, node_at, node_once};

use indexmap::IndexMap;
use lx_caps::Principal;
use lx_words::Memory;

/// The number of a part's list, and the two numbers that a principal is ordered by.
pub(crate) type Key = (u64, (u64, u64));

/// The nodes of the writers, by the list and the writer.
pub(crate) type Table = IndexMap<Key, u64>;

/// The key of a writer in a list.
pub(crate) fn key_of(list: u64, writer: Principal) -> Key
    ensures { result ≡ key_of list writer }
{
    match writer {
        Principal::Kernel => (list, (0, 0)),
        Principal::Shared(m) => (list, (m as u64 + 1, 0)),
        Principal::Global(m) => (list, (m as u64 + 1, 1)),
        Principal::Inst(m, k) => (list, (m as u64 + 1, k as u64 + 2)),
    }
}

/// The node at a key.
pub(crate) fn node_at(table: &Table, key: Key) -> Option<u64>
    ensures { result ≡ node_at table.now.entries key }
{
    table.get(&key).copied()
}

/// Puts a node at a key that has none. It takes at most one of the room.
pub(crate) fn put(table: &mut Table, key: Key, node: u64)
    requires room { 0 < spare table.old }
    requires new { node_at table.old.entries key ≡ None }
    ensures nodes { (other : Key) → node_at table.new.entries other ≡ node_once key (Some node) table.old.entries other }
    ensures spare { spare table.old ≤ spare table.new + 1 }
{
    match table.insert(key, node) {
        Ok(_) => (),
        Err(_) => unreachable!(),
    }
}

/// Takes out what stands at a key.
pub(crate) fn remove(table: &mut Table, key: Key)
    ensures nodes { (other : Key) → node_at table.new.entries other ≡ node_once key None table.old.entries other }
    ensures spare { spare table.old ≤ spare table.new }
{
    let _ = table.swap_remove(&key);
}

/// Makes room for at least `n` keys more.
pub(crate) fn make_keys(table: &mut Table, n: u64) -> Result<(), Memory>
    ensures room { OnOk result (n ≤ spare table.new) }
    ensures grows { spare table.old ≤ spare table.new }
    ensures stays { table.new.entries ≡ table.old.entries }
{
    match table.reserve(n as usize) {
        Ok(()) => Ok(()),
        Err(_) => Err(Memory),
    }
}
