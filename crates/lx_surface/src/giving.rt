//! What actions give to a module.
ghost use Rattle.std.specs.Prelude.{◌≡◌, ◌≤◌, OnOk, None, Some, length, option_copied, slice_get, option_and_then};
ghost use Rattle.lx_annot.specs.Expr.{Number};
ghost use Rattle.lx_model.specs.Program.{annotation_of};
ghost use Rattle.lx_serve.specs.Sources.{Knows, source_of};
ghost use Rattle.lx_surface.specs.Names.{any_gives, gives, gives_before, gives_behind, item_names, list_names};
ghost use Rattle.lx_surface.specs.Given.{Gave};
ghost use Rattle.lx_surface.specs.Naming.{any_names, call_names, given_list, is_any_function, is_function_at, is_thing, iterator_in, number_in, one_item_names, whole_names};

use crate::Thing;
use crate::work::Work;
use lx_annot::action::{Action, ActionNode, Annotation, CapSpec};
use lx_annot::expr::{Expr, ExprNode};
use lx_annot::interface::{CapIterator, Item};
use lx_call_targets::{function_at, home_of};
use lx_model::program::Program;
use lx_serve::{Source, annotation_at};
use lx_words::{Memory, number_of};

/// To whom is given, and from whom it comes.
#[derive(Clone, Copy)]
pub(crate) struct Gift {
    pub(crate) to: u32,
    pub(crate) from: Option<u32>,
}

/// Gives one thing.
fn give(program: &Program, work: &mut Work, gift: Gift, what: Thing) -> Result<(), Memory>
    ensures { OnOk result (Gave program.now work.old work.new gift.to gift.from (is_thing what)) }
{
    work.give(gift.to, gift.from, what)?;
    Ok(())
}

/// Gives the function with this number, if a text defines it.
#[tactic(auto, using(crate::proofs::Gifts::no_function))]
fn give_number(program: &Program, work: &mut Work, gift: Gift, number: u32) -> Result<(), Memory>
    ensures { OnOk result (Gave program.now work.old work.new gift.to gift.from (is_function_at program.now number)) }
{
    match home_of(program, number) {
        Some(_) => {
            give(program, work, gift, Thing::Function(number))?;
            Ok(())
        }
        None => Ok(()),
    }
}

/// Gives each defined function.
fn give_each_function(program: &Program, work: &mut Work, gift: Gift) -> Result<(), Memory>
    ensures { OnOk result (Gave program.now work.old work.new gift.to gift.from (is_any_function program.now)) }
{
    let count = number_of(program.functions.len())?;
    let mut number = 0u32;
    while number < count {
        give_number(program, work, gift, number)?;
        number += 1;
    }
    Ok(())
}

/// Gives every defined function, once to a module from the same place: else each action that names them all would go over them again.
fn give_functions(program: &Program, work: &mut Work, gift: Gift) -> Result<(), Memory>
    ensures { OnOk result (Gave program.now work.old work.new gift.to gift.from (is_any_function program.now)) }
{
    if work.marks.has(gift.to, gift.from, None) {
        return Ok(());
    }
    give_each_function(program, work, gift)?;
    work.marks.put(gift.to, gift.from, None)?;
    Ok(())
}

/// The number that an expression is, if it is one.
fn number_in(at: &Expr) -> Option<u64>
    ensures { result ≡ number_in at.now }
{
    match &at.node {
        ExprNode::Number(address) => Some(*address),
        _ => None,
    }
}

/// Gives the function at an address, if there is one.
#[tactic(auto, using(crate::proofs::Gifts::no_call))]
fn give_address(program: &Program, work: &mut Work, gift: Gift, address: u64) -> Result<(), Memory>
    requires { length program.now.functions ≤ 0x100000000 }
    ensures { OnOk result (Gave program.now work.old work.new gift.to gift.from (call_names program.now (Number address))) }
{
    match function_at(program, address) {
        Some(number) => {
            give(program, work, gift, Thing::Function(number))?;
            Ok(())
        }
        None => Ok(()),
    }
}

/// Gives what the expression of a call names.
fn give_call(program: &Program, work: &mut Work, gift: Gift, at: &Expr) -> Result<(), Memory>
    requires { length program.now.functions ≤ 0x100000000 }
    ensures { OnOk result (Gave program.now work.old work.new gift.to gift.from (call_names program.now at.now)) }
{
    match number_in(at) {
        Some(address) => {
            give_address(program, work, gift, address)?;
            Ok(())
        }
        None => {
            give_functions(program, work, gift)?;
            Ok(())
        }
    }
}

/// Gives what an item without an iterator names.
#[tactic(auto, using(crate::proofs::Gifts::no_item))]
fn give_item(program: &Program, work: &mut Work, gift: Gift, item: &CapSpec) -> Result<(), Memory>
    requires { length program.now.functions ≤ 0x100000000 }
    ensures { OnOk result (Gave program.now work.old work.new gift.to gift.from (item_names program.now item.now)) }
{
    match item {
        CapSpec::Call(at) => {
            give_call(program, work, gift, at)?;
            Ok(())
        }
        CapSpec::Ref(ty, _) => {
            give(program, work, gift, Thing::RefType(*ty))?;
            Ok(())
        }
        CapSpec::Write(_, _) | CapSpec::Each(_, _) => Ok(()),
    }
}

/// Gives what items name.
fn give_items(program: &Program, work: &mut Work, gift: Gift, items: &[Item]) -> Result<(), Memory>
    requires { length program.now.functions ≤ 0x100000000 }
    ensures { OnOk result (Gave program.now work.old work.new gift.to gift.from (any_names (one_item_names program.now) items.now)) }
{
    for item in items {
        give_item(program, work, gift, &item.cap)?;
    }
    Ok(())
}

fn iterator_of(program: &Program, number: u32) -> Option<&CapIterator>
    ensures { option_copied result ≡ slice_get program.now.interface.iterators number }
{
    program.interface.iterators.items.get(number as usize)
}

/// Gives what the items of an iterator name.
#[tactic(auto, using(crate::proofs::Gifts::no_iterator))]
fn give_iterator(program: &Program, work: &mut Work, gift: Gift, number: u32) -> Result<(), Memory>
    requires { length program.now.functions ≤ 0x100000000 }
    ensures { OnOk result (Gave program.now work.old work.new gift.to gift.from (whole_names program.now (Some number))) }
{
    match iterator_of(program, number) {
        Some(iterator) => {
            give_items(program, work, gift, iterator.items.as_slice())?;
            Ok(())
        }
        None => Ok(()),
    }
}

/// Gives what an iterator names, once to a module from the same place, as with every function.
fn give_each(program: &Program, work: &mut Work, gift: Gift, number: u32) -> Result<(), Memory>
    requires { length program.now.functions ≤ 0x100000000 }
    ensures { OnOk result (Gave program.now work.old work.new gift.to gift.from (whole_names program.now (Some number))) }
{
    if work.marks.has(gift.to, gift.from, Some(number)) {
        return Ok(());
    }
    give_iterator(program, work, gift, number)?;
    work.marks.put(gift.to, gift.from, Some(number))?;
    Ok(())
}

/// The iterator of a list, if it is one.
fn iterator_in(list: &CapSpec) -> Option<u32>
    ensures { result ≡ iterator_in list.now }
{
    match list {
        CapSpec::Each(number, _) => Some(*number),
        _ => None,
    }
}

/// Gives what a list names.
fn give_list(program: &Program, work: &mut Work, gift: Gift, list: &CapSpec) -> Result<(), Memory>
    requires { length program.now.functions ≤ 0x100000000 }
    ensures { OnOk result (Gave program.now work.old work.new gift.to gift.from (list_names program.now list.now)) }
{
    match iterator_in(list) {
        Some(number) => {
            give_each(program, work, gift, number)?;
            Ok(())
        }
        None => {
            give_item(program, work, gift, list)?;
            Ok(())
        }
    }
}

/// The list that an action gives, behind any `if`.
fn given_list(action: &Action) -> Option<&CapSpec>
    ensures { option_copied result ≡ given_list action.now }
{
    match &action.node {
        ActionNode::Copy(list) | ActionNode::Transfer(list) | ActionNode::Lend(list) => Some(list),
        ActionNode::Check(_) | ActionNode::End(_) => None,
        ActionNode::If(_, inner) => given_list(inner),
    }
}

/// Gives what an action gives.
fn give_action(
    program: &Program,
    work: &mut Work,
    gift: Gift,
    action: &Action,
) -> Result<(), Memory>
    requires { length program.now.functions ≤ 0x100000000 }
    ensures { OnOk result (Gave program.now work.old work.new gift.to gift.from (gives program.now action.now)) }
{
    match given_list(action) {
        Some(list) => {
            give_list(program, work, gift, list)?;
            Ok(())
        }
        None => Ok(()),
    }
}

/// Gives what actions give.
fn give_actions(
    program: &Program,
    work: &mut Work,
    gift: Gift,
    actions: &[Action],
) -> Result<(), Memory>
    requires { length program.now.functions ≤ 0x100000000 }
    ensures { OnOk result (Gave program.now work.old work.new gift.to gift.from (any_gives program.now actions.now)) }
{
    for action in actions {
        give_action(program, work, gift, action)?;
    }
    Ok(())
}

fn source_of(sources: &[Option<Source>], function: u32) -> Option<Source>
    ensures { result ≡ source_of (slice_get sources.now function) }
{
    match sources.get(function as usize) {
        Some(source) => *source,
        None => None,
    }
}

/// What a function is annotated with.
fn annotation_of<'a>(
    program: &'a Program,
    sources: &[Option<Source>],
    function: u32,
) -> Option<&'a Annotation>
    requires { Knows program.now sources.now }
    ensures { option_copied result ≡ annotation_of program.now function }
{
    annotation_at(&program.interface, source_of(sources, function))
}

/// Gives what a function gives before its body.
#[tactic(auto, using(crate::proofs::Gifts::nothing_before))]
pub(crate) fn give_before(
    program: &Program,
    sources: &[Option<Source>],
    work: &mut Work,
    gift: Gift,
    function: u32,
) -> Result<(), Memory>
    requires few { length program.now.functions ≤ 0x100000000 }
    requires sources { Knows program.now sources.now }
    ensures { OnOk result (Gave program.now work.old work.new gift.to gift.from (gives_before program.now function)) }
{
    match annotation_of(program, sources, function) {
        Some(annotation) => {
            give_actions(program, work, gift, annotation.pre.as_slice())?;
            Ok(())
        }
        None => Ok(()),
    }
}

/// Gives what a function gives behind its body.
#[tactic(auto, using(crate::proofs::Gifts::nothing_behind))]
pub(crate) fn give_behind(
    program: &Program,
    sources: &[Option<Source>],
    work: &mut Work,
    gift: Gift,
    function: u32,
) -> Result<(), Memory>
    requires few { length program.now.functions ≤ 0x100000000 }
    requires sources { Knows program.now sources.now }
    ensures { OnOk result (Gave program.now work.old work.new gift.to gift.from (gives_behind program.now function)) }
{
    match annotation_of(program, sources, function) {
        Some(annotation) => {
            give_actions(program, work, gift, annotation.post.as_slice())?;
            Ok(())
        }
        None => Ok(()),
    }
}
