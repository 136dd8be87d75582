//! The parts of interface texts that name capabilities: lists, actions, clauses, items and signatures; which tokens they
//! are, and how they are read.
//!
//! ```text
//! // At `transfer(write, p, n)`: the action, over the parameters of the scope.
//! let taken = action(alloc, &mut reader, &scope, &known)?;
//! // At `pre(check(call, f)) post(copy(ref(device), return))`: an annotation with one action before the body and one behind it.
//! let annotation = read_clauses(alloc, &mut reader, &signature, &known)?;
//! ```
#![tactic(auto)]

ghost use Rattle.lx_annot_terms.specs.Laws.{ActionsAreFound, ActionsAreRead, ItemListsAreRead, ItemsAreFound, ListsAreFound, ListsAreRead};

mod actions;
mod clauses;
mod items;
mod lists;
mod signatures;

pub use clauses::read_clauses;
pub use items::read_items;
pub use lists::Known;
pub use signatures::{Signature, read_param_name, read_signature};

/// Reading and the grammar of lists, actions and items agree.
pub fn action_text_laws()
    ensures lists_read { ListsAreRead }
    ensures item_lists_read { ItemListsAreRead }
    ensures actions_read { ActionsAreRead }
    ensures lists { ListsAreFound }
    ensures actions { ActionsAreFound }
    ensures items { ItemsAreFound }
{}
