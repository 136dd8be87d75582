//! Reading the clauses of a slot or an export.

ghost use Rattle.std.specs.Prelude.{◌≡◌, ◌++◌, ◌≤◌, filter, length, IfOk, OnOk};
ghost use Rattle.lx_annot.specs.Action.{end_of, is_lend};
ghost use Rattle.lx_annot_expressions.specs.Reading.{Gives, Leaves, behind};
ghost use Rattle.lx_annot_terms.specs.Clauses.{begins_clause, clause_at, clauses_at, closed_at, empty_annotation, enclosed_action_at, post_clause_at, pre_clause_at, principal_at, principal_clause_at, result_of, scope_before, scope_behind, who_at, with_loans_ended, without_lends, written_at};

use crate::actions::action;
use crate::lists::Known;
use crate::signatures::Signature;
use lx_annot::action::{Action, ActionNode, Actions, Annotation, Who};
use lx_annot::expr::Ty;
use lx_annot_expressions::{FaultKind, ReadError, Reader, Scope};
use lx_words::Memory;
use std::alloc::Global;

/// How many loans the end of loans may count.
const MOST_LOANS: usize = u32::MAX as usize;

/// The type of `return` behind the body of a function with this result.
fn result_of(ty: Ty) -> Option<Ty>
    ensures { result ≡ result_of ty }
{
    match ty {
        Ty::Void => None,
        _ => Some(ty),
    }
}

impl Signature {
    /// What names mean before the body.
    fn scope_before(&self) -> Scope<'_>
        ensures { result ≡ scope_before self.now }
    {
        Scope::new(self.params.as_slice(), None)
    }

    /// What names mean behind the body.
    fn scope_behind(&self) -> Scope<'_>
        ensures { result ≡ scope_behind self.now }
    {
        Scope::new(self.params.as_slice(), result_of(self.ret))
    }
}

impl<'a> Known<'a> {
    /// What an action behind the body may use.
    fn without_lends(&self) -> Known<'a>
        ensures { result ≡ without_lends self.now }
    {
        Known {
            reftypes: self.reftypes,
            iterators: self.iterators,
            lends: false,
        }
    }
}

/// No clauses.
fn empty_annotation(alloc: Global) -> Annotation
    ensures { result ≡ empty_annotation }
{
    Annotation {
        principal: None,
        pre: Actions::new(alloc),
        post: Actions::new(alloc),
    }
}

/// `shared`, `global` or an expression.
fn who(alloc: Global, reader: &mut Reader<'_>, scope: &Scope<'_>) -> Result<Who, ReadError>
    ensures reads { Gives result reader.new (who_at scope.now reader.old) }
    ensures shrinks { length reader.new ≤ length reader.old }
{
    if reader.takes(b"shared") {
        return Ok(Who::Shared);
    }
    if reader.takes(b"global") {
        return Ok(Who::Global);
    }
    let e = reader.expr(alloc, scope)?;
    Ok(Who::Value(e))
}

/// A principal in brackets.
fn principal(alloc: Global, reader: &mut Reader<'_>, scope: &Scope<'_>) -> Result<Who, ReadError>
    ensures reads { Gives result reader.new (principal_at scope.now reader.old) }
    ensures shrinks { length reader.new ≤ length reader.old }
{
    reader.expect(b"(")?;
    let who = who(alloc, reader, scope)?;
    reader.expect(b")")?;
    Ok(who)
}

/// An action, where a bracket closes it.
fn closed(reader: &mut Reader<'_>, action: Action) -> Result<Action, ReadError>
    ensures reads { Gives result reader.new (closed_at action reader.old) }
    ensures shrinks { length reader.new ≤ length reader.old }
{
    match reader.expect(b")") {
        Ok(()) => Ok(action),
        Err(error) => {
            drop(action);
            Err(error)
        }
    }
}

/// An action in brackets.
fn enclosed_action(
    alloc: Global,
    reader: &mut Reader<'_>,
    scope: &Scope<'_>,
    known: &Known<'_>,
) -> Result<Action, ReadError>
    ensures reads { Gives result reader.new (enclosed_action_at scope.now known.now reader.old) }
    ensures shrinks { length reader.new ≤ length reader.old }
{
    reader.expect(b"(")?;
    let action = action(alloc, reader, scope, known)?;
    let action = closed(reader, action)?;
    Ok(action)
}

fn principal_clause(
    alloc: Global,
    reader: &mut Reader<'_>,
    signature: &Signature,
    annotation: &mut Annotation,
) -> Result<(), ReadError>
    ensures reads { Leaves annotation.new result reader.new (principal_clause_at signature.now annotation.old reader.old) }
    ensures shrinks { OnOk result (length reader.new ≤ length (behind reader.old)) }
{
    if annotation.principal.is_some() {
        return Err(reader.fault(FaultKind::Statement));
    }
    reader.skip();
    let who = principal(alloc, reader, &signature.scope_before())?;
    annotation.principal = Some(who);
    Ok(())
}

fn pre_clause(
    alloc: Global,
    reader: &mut Reader<'_>,
    signature: &Signature,
    known: &Known<'_>,
    annotation: &mut Annotation,
) -> Result<(), ReadError>
    ensures reads { Leaves annotation.new result reader.new (pre_clause_at signature.now known.now annotation.old reader.old) }
    ensures shrinks { OnOk result (length reader.new ≤ length (behind reader.old)) }
{
    reader.skip();
    let action = enclosed_action(alloc, reader, &signature.scope_before(), known)?;
    annotation.pre.push(action)?;
    Ok(())
}

fn post_clause(
    alloc: Global,
    reader: &mut Reader<'_>,
    signature: &Signature,
    known: &Known<'_>,
    annotation: &mut Annotation,
) -> Result<(), ReadError>
    ensures reads { Leaves annotation.new result reader.new (post_clause_at signature.now known.now annotation.old reader.old) }
    ensures shrinks { OnOk result (length reader.new ≤ length (behind reader.old)) }
{
    reader.skip();
    let action = enclosed_action(
        alloc,
        reader,
        &signature.scope_behind(),
        &known.without_lends(),
    )?;
    annotation.post.push(action)?;
    Ok(())
}

/// Whether the word of a clause stands next.
fn begins_clause(reader: &Reader<'_>) -> bool
    ensures { result ≡ begins_clause reader.now }
{
    reader.has(b"principal") || reader.has(b"pre") || reader.has(b"post")
}

/// Puts a clause to those before it.
#[tactic(auto, unfolding(crate::specs::Clauses::clause_at))]
fn clause(
    alloc: Global,
    reader: &mut Reader<'_>,
    signature: &Signature,
    known: &Known<'_>,
    annotation: &mut Annotation,
) -> Result<(), ReadError>
    ensures reads { Leaves annotation.new result reader.new (clause_at signature.now known.now annotation.old reader.old) }
    ensures shrinks { OnOk result (length reader.new ≤ length (behind reader.old)) }
{
    if reader.has(b"principal") {
        principal_clause(alloc, reader, signature, annotation)?;
    } else if reader.has(b"pre") {
        pre_clause(alloc, reader, signature, known, annotation)?;
    } else {
        post_clause(alloc, reader, signature, known, annotation)?;
    }
    Ok(())
}

/// All clauses that are written next, of a function of this signature.
fn written_clauses(
    alloc: Global,
    reader: &mut Reader<'_>,
    signature: &Signature,
    known: &Known<'_>,
) -> Result<Annotation, ReadError>
    ensures reads { Gives result reader.new (written_at signature.now known.now reader.old) }
    ensures shrinks { OnOk result (length reader.new ≤ length reader.old) }
{
    let mut annotation = empty_annotation(alloc);
    while begins_clause(reader) {
        clause(alloc, reader, signature, known, &mut annotation)?;
    }
    Ok(annotation)
}

/// Whether an action is a lend, also behind conditions.
fn is_lend(action: &Action) -> bool
    ensures { result ≡ is_lend action.now }
{
    match &action.node {
        ActionNode::Lend(_) => true,
        ActionNode::If(_, inner) => is_lend(inner),
        _ => false,
    }
}

/// How many of these actions are lends.
#[tactic(auto, using(crate::proofs::Loans::lends_counted))]
fn count_of_lends(actions: &[Action]) -> usize
    ensures { result ≡ length (filter is_lend actions.now) }
{
    actions.iter().filter(|action| is_lend(action)).count()
}

/// Puts the end of so many loans behind these actions, where there are any.
#[tactic(auto, using(crate::proofs::Loans::end_none, crate::proofs::Loans::end_some))]
fn put_end(actions: &mut Actions, count: u32) -> Result<(), Memory>
    ensures { OnOk result (actions.new ≡ actions.old ++ end_of count) }
{
    if count > 0 {
        let node = ActionNode::End(count);
        actions.push(Action { node })?;
    }
    Ok(())
}

/// The annotation with the end of the loans that it opens. There is no memory for so many lends that no number is
/// left for them.
fn with_loans_ended(annotation: Annotation) -> Result<Annotation, Memory>
    ensures { IfOk result (λ a. a ≡ with_loans_ended annotation) }
{
    let mut annotation = annotation;
    let count = count_of_lends(annotation.pre.as_slice());
    if count > MOST_LOANS {
        return Err(Memory);
    }
    put_end(&mut annotation.post, count as u32)?;
    Ok(annotation)
}

/// The annotation that all clauses say that stand next, of a function of this signature.
#[tactic(auto, unfolding(crate::specs::Clauses::clauses_at))]
pub fn read_clauses(
    alloc: Global,
    reader: &mut Reader<'_>,
    signature: &Signature,
    known: &Known<'_>,
) -> Result<Annotation, ReadError>
    ensures reads { Gives result reader.new (clauses_at signature.now known.now reader.old) }
    ensures shrinks { OnOk result (length reader.new ≤ length reader.old) }
{
    let written = written_clauses(alloc, reader, signature, known)?;
    let annotation = with_loans_ended(written)?;
    Ok(annotation)
}
