//! The text of clauses.

ghost use Rattle.std.specs.Prelude.{◌≡◌, ◌++◌, OnOk, codes, flat_map};
ghost use Rattle.lx_annot.specs.Canonical.{call_text, iterator_name};
ghost use Rattle.lx_cproto_print.specs.Printed.{action_text, clause_text, clauses_text, is_end, list_text, principal_text, reftype_name, who_text};

use crate::expressions::put_expr;
use crate::pieces::put;
use lx_annot::action::{Action, ActionNode, Annotation, CapSpec, Who};
use lx_annot::interface::{Interface, Parameter};
use lx_words::Memory;

/// The name of a reference type by its number.
pub fn reftype_name(i: &Interface, k: u32) -> &[u8]
    ensures { result.now ≡ reftype_name i.now k }
{
    match i.reftypes.as_slice().get(k as usize) {
        Some(name) => name.as_slice(),
        None => &[],
    }
}

/// The name of an iterator by its number.
fn name_of_iterator(i: &Interface, k: u32) -> &[u8]
    ensures { result.now ≡ iterator_name i.now k }
{
    match i.iterators.as_slice().get(k as usize) {
        Some(iterator) => iterator.name.as_slice(),
        None => &[],
    }
}

fn put_list(
    out: &mut Vec<u8>,
    i: &Interface,
    params: &[Parameter],
    list: &CapSpec,
) -> Result<(), Memory>
    ensures { OnOk result (out.new.items ≡ out.old.items ++ list_text i.now params.now list.now) }
{
    match list {
        CapSpec::Write(at, size) => {
            put(out, b"write, ")?;
            put_expr(out, params, at)?;
            put(out, b", ")?;
            put_expr(out, params, size)
        }
        CapSpec::Call(at) => {
            put(out, b"call, ")?;
            put_expr(out, params, at)
        }
        CapSpec::Ref(ty, at) => {
            put(out, b"ref(")?;
            put(out, reftype_name(i, *ty))?;
            put(out, b"), ")?;
            put_expr(out, params, at)
        }
        CapSpec::Each(k, at) => {
            put(out, name_of_iterator(i, *k))?;
            put(out, b"(")?;
            put_expr(out, params, at)?;
            put(out, b")")
        }
    }
}

/// Appends a word, and a list in brackets.
fn put_deed(
    out: &mut Vec<u8>,
    word: &[u8],
    i: &Interface,
    params: &[Parameter],
    list: &CapSpec,
) -> Result<(), Memory>
    ensures { OnOk result (out.new.items ≡ out.old.items ++ call_text word.now (list_text i.now params.now list.now)) }
{
    put(out, word)?;
    put(out, b"(")?;
    put_list(out, i, params, list)?;
    put(out, b")")
}

fn put_action(
    out: &mut Vec<u8>,
    i: &Interface,
    params: &[Parameter],
    action: &Action,
) -> Result<(), Memory>
    ensures { OnOk result (out.new.items ≡ out.old.items ++ action_text i.now params.now action.now) }
{
    match &action.node {
        ActionNode::Copy(list) => put_deed(out, b"copy", i, params, list),
        ActionNode::Transfer(list) => put_deed(out, b"transfer", i, params, list),
        ActionNode::Check(list) => put_deed(out, b"check", i, params, list),
        ActionNode::Lend(list) => put_deed(out, b"lend", i, params, list),
        ActionNode::End(_) => put(out, b""),
        ActionNode::If(e, inner) => {
            put(out, b"if (")?;
            put_expr(out, params, e)?;
            put(out, b") ")?;
            put_action(out, i, params, inner)
        }
    }
}

/// Whether an action is the end of loans.
fn is_end(action: &Action) -> bool
    ensures { result ≡ is_end action.now }
{
    match &action.node {
        ActionNode::End(_) => true,
        _ => false,
    }
}

/// Appends an action in brackets behind the word of a clause, where it is written.
fn put_clause(
    out: &mut Vec<u8>,
    word: &[u8],
    i: &Interface,
    params: &[Parameter],
    action: &Action,
) -> Result<(), Memory>
    ensures { OnOk result (out.new.items ≡ out.old.items ++ clause_text word.now i.now params.now action.now) }
{
    if is_end(action) {
        return put(out, b"");
    }
    put(out, b" ")?;
    put(out, word)?;
    put(out, b"(")?;
    put_action(out, i, params, action)?;
    put(out, b")")
}

fn put_actions(
    out: &mut Vec<u8>,
    word: &[u8],
    i: &Interface,
    params: &[Parameter],
    actions: &[Action],
) -> Result<(), Memory>
    ensures { OnOk result (out.new.items ≡ out.old.items ++ flat_map (clause_text word.now i.now params.now) actions.now) }
{
    for action in actions {
        put_clause(out, word, i, params, action)?;
    }
    Ok(())
}

fn put_who(out: &mut Vec<u8>, params: &[Parameter], who: &Who) -> Result<(), Memory>
    ensures { OnOk result (out.new.items ≡ out.old.items ++ who_text params.now who.now) }
{
    match who {
        Who::Value(e) => put_expr(out, params, e),
        Who::Shared => put(out, b"shared"),
        Who::Global => put(out, b"global"),
    }
}

/// Appends a principal in brackets behind its word.
fn put_named_principal(out: &mut Vec<u8>, params: &[Parameter], who: &Who) -> Result<(), Memory>
    ensures { OnOk result (out.new.items ≡ out.old.items ++ (codes " " ++ call_text (codes "principal") (who_text params.now who.now))) }
{
    put(out, b" ")?;
    put(out, b"principal")?;
    put(out, b"(")?;
    put_who(out, params, who)?;
    put(out, b")")
}

fn put_principal(
    out: &mut Vec<u8>,
    params: &[Parameter],
    principal: &Option<Who>,
) -> Result<(), Memory>
    ensures { OnOk result (out.new.items ≡ out.old.items ++ principal_text params.now principal.now) }
{
    match principal {
        Some(who) => put_named_principal(out, params, who),
        None => put(out, b""),
    }
}

/// Appends the clauses of an annotation over these parameters, each behind a space.
pub fn put_clauses(
    out: &mut Vec<u8>,
    i: &Interface,
    params: &[Parameter],
    a: &Annotation,
) -> Result<(), Memory>
    ensures { OnOk result (out.new.items ≡ out.old.items ++ clauses_text i.now params.now a.now) }
{
    put_principal(out, params, &a.principal)?;
    put_actions(out, b"pre", i, params, a.pre.as_slice())?;
    put_actions(out, b"post", i, params, a.post.as_slice())
}
