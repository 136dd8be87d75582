//! The numbers of the lists of owners, loans, calls and references.
ghost use Rattle.std.specs.Prelude.{◌≡◌, ◌+◌, ◌<◌, ◌≤◌, None, Some, ◌∷◌, [], ◌++◌, length};
ghost use Rattle.indexmap.specs.IndexSet.{spare};
ghost use Rattle.lx_cap_lists.specs.Tables.{call_key, loan_key, owner_key, place_in, ref_key, with_key};

use indexmap::IndexSet;
use lx_caps::Principal;

/// Keys of principals and of loans, and keys of calls and of references.
pub type Key = (u64, u64);

/// The keys of loans begin with the number of a thread, which is below this one, and those of principals with a number that is
/// not.
const LOANS: u64 = 16;

/// The key of the list of a principal.
pub fn owner_key(who: Principal) -> Key
    ensures { result ≡ owner_key who }
{
    match who {
        Principal::Kernel => (LOANS, 0),
        Principal::Shared(m) => (LOANS + 1 + m as u64, 0),
        Principal::Global(m) => (LOANS + 1 + m as u64, 1),
        Principal::Inst(m, k) => (LOANS + 1 + m as u64, k as u64 + 2),
    }
}

/// The key of the list of a loan: its thread, and how many older ones of the thread have not ended.
pub fn loan_key(thread: u32, older: u64) -> Key
    ensures { result ≡ loan_key thread older }
{
    (thread as u64, older)
}

/// The key of the list of a call, by its address.
pub fn call_key(at: u64) -> Key
    ensures { result ≡ call_key at }
{
    (0, at)
}

/// The key of the list of a reference, by its type and its address.
pub fn ref_key(ty: u32, at: u64) -> Key
    ensures { result ≡ ref_key ty at }
{
    (ty as u64 + 1, at)
}

/// The place of a key.
pub fn place_in(keys: &IndexSet<Key>, key: Key) -> Option<u64>
    ensures { result ≡ place_in keys.now.keys key }
{
    match keys.get_index_of(&key) {
        Some(i) => Some(i as u64),
        None => None,
    }
}

/// Adds a key that is new.
fn add(keys: &mut IndexSet<Key>, key: Key)
    requires new { place_in keys.old.keys key ≡ None }
    requires room { 0 < spare keys.old }
    ensures keys { keys.new.keys ≡ keys.old.keys ++ key ∷ [] }
    ensures spare { spare keys.old ≤ spare keys.new + 1 }
{
    match keys.insert(key) {
        Ok(_) => (),
        Err(_) => unreachable!(),
    }
}

/// The place of a key, which is added where it is new.
pub fn place_for(keys: &mut IndexSet<Key>, key: Key) -> u64
    requires { 0 < spare keys.old }
    ensures place { place_in keys.new.keys key ≡ Some result }
    ensures keys { keys.new.keys ≡ with_key keys.old.keys key }
    ensures spare { spare keys.old + length keys.old.keys ≤ spare keys.new + length keys.new.keys }
{
    match place_in(keys, key) {
        Some(i) => i,
        None => {
            let i = keys.len() as u64;
            add(keys, key);
            i
        }
    }
}
