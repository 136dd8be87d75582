//! Reading actions.

ghost use Rattle.std.specs.Prelude.{◌≡◌, ◌≤◌, length, IfOk};
ghost use Rattle.lx_annot.specs.Action.{If};
ghost use Rattle.lx_annot_expressions.specs.Reading.{Gives, pick_at, always_refused};
ghost use Rattle.lx_annot_terms.specs.Actions.{action_at, action_of, action_within, condition_at, deed_at, deed_of};
ghost use Rattle.lx_annot_terms.specs.Clauses.{closed_at};

use crate::lists::{Known, list};
use lx_annot::action::{Action, ActionNode, CapSpec};
use lx_annot::expr::Expr;
use lx_annot_expressions::{FaultKind, ReadError, Reader, Scope, found};
use lx_words::Memory;
use std::alloc::Global;

/// What an action does with the capabilities of its list.
#[derive(Clone, Copy)]
pub enum Deed {
    Copy,
    Transfer,
    Check,
    Lend,
}

/// The words of actions, wherever they stand.
const DEEDS: [(&[u8], Deed); 3] = [
    (b"copy", Deed::Copy),
    (b"transfer", Deed::Transfer),
    (b"check", Deed::Check),
];

/// The action that a word stands for; `lend` is one where it may stand.
#[tactic(auto, unfolding(crate::specs::Actions::deed_of))]
fn deed_of(lends: bool, bytes: &[u8]) -> Option<Deed>
    ensures { result ≡ deed_of lends bytes.now }
{
    if bytes == b"lend".as_slice() && lends {
        return Some(Deed::Lend);
    }
    found(&DEEDS, bytes)
}

fn action_of(deed: Deed, list: CapSpec) -> Action
    ensures { result ≡ action_of deed list }
{
    let node = match deed {
        Deed::Copy => ActionNode::Copy(list),
        Deed::Transfer => ActionNode::Transfer(list),
        Deed::Check => ActionNode::Check(list),
        Deed::Lend => ActionNode::Lend(list),
    };
    Action { node }
}

fn guarded(alloc: Global, condition: Expr, action: Action) -> Result<Action, Memory>
    ensures { IfOk result (λ a. a ≡ If condition action) }
{
    let node = ActionNode::If(condition, Box::new(alloc, action)?);
    Ok(Action { node })
}

/// The word of an action, which may be `lend` where `lends` says so.
fn deed_word(reader: &mut Reader<'_>, lends: bool) -> Result<Deed, ReadError>
    ensures reads { Gives result reader.new (pick_at (λ t. deed_of lends t.bytes) always_refused reader.old) }
    ensures shrinks { length reader.new ≤ length reader.old }
{
    let Some((_, bytes)) = reader.token() else {
        return Err(reader.fault(FaultKind::Statement));
    };
    let deed = reader.picked(deed_of(lends, bytes), FaultKind::Statement)?;
    Ok(deed)
}

/// The list of an action, where a bracket closes it.
fn closed_list(reader: &mut Reader<'_>, list: CapSpec) -> Result<CapSpec, ReadError>
    ensures reads { Gives result reader.new (closed_at list reader.old) }
    ensures shrinks { length reader.new ≤ length reader.old }
{
    match reader.expect(b")") {
        Ok(()) => Ok(list),
        Err(error) => {
            drop(list);
            Err(error)
        }
    }
}

/// An action without condition.
#[tactic(auto, unfolding(crate::specs::Actions::deed_at))]
fn plain_action(
    alloc: Global,
    reader: &mut Reader<'_>,
    scope: &Scope<'_>,
    known: &Known<'_>,
) -> Result<Action, ReadError>
    ensures reads { Gives result reader.new (deed_at scope.now known.now reader.old) }
    ensures shrinks { length reader.new ≤ length reader.old }
{
    let deed = deed_word(reader, known.lends)?;
    reader.expect(b"(")?;
    let list = list(alloc, reader, scope, known)?;
    let list = closed_list(reader, list)?;
    Ok(action_of(deed, list))
}

/// An action behind a condition, with so many nestings left.
#[cycle(actions)]
fn condition(
    alloc: Global,
    reader: &mut Reader<'_>,
    scope: &Scope<'_>,
    known: &Known<'_>,
    depth: usize,
) -> Result<Action, ReadError>
    ensures reads { Gives result reader.new (condition_at scope.now (action_within scope.now known.now depth) reader.old) }
    ensures shrinks { length reader.new ≤ length reader.old }
{
    reader.skip();
    let condition = reader.bracketed(alloc, scope)?;
    let action = action_within(alloc, reader, scope, known, depth)?;
    let guarded = guarded(alloc, condition, action)?;
    Ok(guarded)
}

/// An action, with so many nestings left. Each takes a token, so that no statement comes to the last.
#[cycle(actions)]
#[tactic(auto, unfolding(crate::specs::Actions::action_within))]
fn action_within(
    alloc: Global,
    reader: &mut Reader<'_>,
    scope: &Scope<'_>,
    known: &Known<'_>,
    depth: usize,
) -> Result<Action, ReadError>
    ensures reads { Gives result reader.new (action_within scope.now known.now depth reader.old) }
    ensures shrinks { length reader.new ≤ length reader.old }
{
    if depth == 0 {
        return Err(reader.fault(FaultKind::Statement));
    }
    if reader.has(b"if") {
        let action = condition(alloc, reader, scope, known, depth - 1)?;
        return Ok(action);
    }
    let action = plain_action(alloc, reader, scope, known)?;
    Ok(action)
}

/// An action.
#[tactic(auto, unfolding(crate::specs::Actions::action_at))]
pub fn action(
    alloc: Global,
    reader: &mut Reader<'_>,
    scope: &Scope<'_>,
    known: &Known<'_>,
) -> Result<Action, ReadError>
    ensures reads { Gives result reader.new (action_at scope.now known.now reader.old) }
    ensures shrinks { length reader.new ≤ length reader.old }
{
    let depth = reader.left();
    let action = action_within(alloc, reader, scope, known, depth)?;
    Ok(action)
}
