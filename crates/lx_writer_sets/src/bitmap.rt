//! One bit for each list: whether it has a node.
ghost use Rattle.std.specs.Prelude.{◌≡◌, ◌/◌, ◌<◌, ◌≤◌, ℕ, ◌&&◌, ◌||◌, not, nat_eq, length, OnOk};
ghost use Rattle.lx_cap_nodes.specs.Words.{nodes_at};
ghost use Rattle.lx_writer_sets.specs.Bits.{is_marked};
ghost use Rattle.lx_writer_sets.specs.Nodes.{has_nodes};

use crate::chain::Pool;
use lx_cap_nodes::ListName;
use lx_cap_nodes::bits::{between, is_set, with, without};
use lx_words::Memory;

/// How many words of 64 bits there are for the parts of memory.
const WORDS: usize = 768;

/// Adds words without bits until there is a bit for each part of memory.
pub(crate) fn add_words(words: &mut Vec<u64>) -> Result<(), Memory>
    ensures stays { (n : ℕ) → is_marked words.new.items n ≡ is_marked words.old.items n }
    ensures grows { length words.old.items ≤ length words.new.items }
    ensures few { length words.old.items ≤ 768 → length words.new.items ≤ 768 }
    ensures enough { OnOk result (768 ≤ length words.new.items) }
{
    while words.len() < WORDS {
        match words.push(0) {
            Ok(()) => {}
            Err(_) => return Err(Memory),
        }
    }
    Ok(())
}

/// Whether the bit of a list is set.
pub(crate) fn is_marked(words: &Vec<u64>, list: u64) -> bool
    ensures { result ≡ is_marked words.now.items list }
{
    match words.get((list / 64) as usize) {
        Some(word) => is_set(*word, list % 64),
        None => false,
    }
}

/// Sets the bit of a list.
pub(crate) fn mark(words: &mut Vec<u64>, list: u64)
    requires { list / 64 < length words.old.items }
    ensures bits { (n : ℕ) → is_marked words.new.items n ≡ (nat_eq n list || is_marked words.old.items n) }
    ensures count { length words.new.items ≡ length words.old.items }
{
    let i = (list / 64) as usize;
    words[i] = with(words[i], between(list % 64, list % 64 + 1));
}

/// Clears the bit of a list that has no node.
pub(crate) fn mark_anew(words: &mut Vec<u64>, pool: &Pool, list: u64)
    requires words { list / 64 < length words.old.items }
    requires list { list < length pool.now.places }
    ensures bits { (n : ℕ) → is_marked words.new.items n ≡ (is_marked words.old.items n && (not (nat_eq n list) || has_nodes (nodes_at pool.now.places list))) }
    ensures count { length words.new.items ≡ length words.old.items }
{
    if pool.first(ListName::Place(list)).is_none() {
        let i = (list / 64) as usize;
        words[i] = without(words[i], list % 64);
    }
}
