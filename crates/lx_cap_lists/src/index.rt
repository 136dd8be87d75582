//! The table of nodes, by the place and the holder of what stands in them.
ghost use Rattle.std.specs.Prelude.{◌≡◌, ◌+◌, ◌<◌, ◌≤◌, None, Some};
ghost use Rattle.indexmap.specs.IndexMap.{spare};
ghost use Rattle.lx_cap_lists.specs.Index.{HolderKey, key_at, node_at, node_once};

use crate::holder::{Holder, principal_of};
use crate::keys::{Key, owner_key};
use indexmap::IndexMap;

/// The number of a place's list, and two pairs of numbers that tell the holders there apart.
pub(crate) type HolderKey = (u64, (Key, Key));

/// The number of the node of each holder at each place.
pub(crate) type Index = IndexMap<HolderKey, u64>;

/// The key of a holder at a place.
pub(crate) fn key_at(place: u64, holder: Holder) -> HolderKey
    ensures { result ≡ key_at place holder }
{
    let who = owner_key(principal_of(holder));
    match holder {
        Holder::Keeper(_) => (place, ((0, 0), who)),
        Holder::Borrower(thread, loan, _) => (place, ((thread as u64 + 1, loan), who)),
    }
}

/// The node at a key.
pub(crate) fn node_at(index: &Index, key: HolderKey) -> Option<u64>
    ensures { result ≡ node_at index.now.entries key }
{
    index.get(&key).copied()
}

/// Puts a node at a key that has none. It takes one of the room.
pub(crate) fn put_node(index: &mut Index, key: HolderKey, node: u64)
    requires { 0 < spare index.old }
    ensures nodes { (other : HolderKey) → node_at index.new.entries other ≡ node_once key (Some node) index.old.entries other }
    ensures spare { spare index.old ≤ spare index.new + 1 }
{
    match index.insert(key, node) {
        Ok(_) => (),
        Err(_) => unreachable!(),
    }
}

/// Takes a key out.
pub(crate) fn remove_key(index: &mut Index, key: HolderKey)
    ensures nodes { (other : HolderKey) → node_at index.new.entries other ≡ node_once key None index.old.entries other }
    ensures spare { spare index.old ≤ spare index.new }
{
    let _ = index.swap_remove(&key);
}
