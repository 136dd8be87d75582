//! Parts of an interface that stand among the tokens of a text.

ghost use Rattle.std.specs.Prelude.{◌≡◌, ◌+◌, ◌≤◌, All, bytes_eq, drop, length, IfErr, IfOk};
ghost use Rattle.std.specs.List.{IsDistinct};
ghost use Rattle.lx_words.specs.Cuts.{IsWithin};
ghost use Rattle.lx_annot.specs.Lawful.{IsLawfulInterface};
ghost use Rattle.lx_annot_read.specs.Faults.{Gives};
ghost use Rattle.lx_annot_read.specs.Parts.{IsPart, PartFails, clauses_next, items_first, items_next, names_of_iterators};

use crate::draft::{known, param_of_items};
use crate::fault::{Failure, InterfaceFault, met_at_end};
use crate::head::Version;
use crate::text::{behind, failed, window};
use lx_annot::action::Annotation;
use lx_annot::interface::{CapIterator, Interface, ItemList};
use lx_annot_expressions::{NameTable, Reader, Scope as Names};
use lx_annot_terms::{Signature, read_clauses, read_items};
use lx_words::{Memory, Name, Token, Tokens, number_of};
use std::alloc::Global;

/// The names and types of parameters, and the type of the result: what clauses may name.
pub type Scope = Signature;

/// The annotation that clauses say, and the number of the first token behind them.
#[derive(Drop)]
pub struct Clauses {
    pub annotation: Annotation,
    pub next: u32,
}

/// Items, and the number of the first token behind them.
#[derive(Drop)]
pub struct Items {
    pub items: ItemList,
    pub next: u32,
}

/// The names of reference types, by number.
fn table_of_reftypes(alloc: Global, names: &[Name]) -> Result<NameTable<'_>, Memory>
    requires { IsDistinct bytes_eq names.now }
    ensures { IfOk result (λ t. t ≡ names.now) }
{
    let mut table = NameTable::new(alloc);
    for name in names {
        table.add(name.as_slice())?;
    }
    Ok(table)
}

/// The names of iterators, by number.
fn table_of_iterators(alloc: Global, iterators: &[CapIterator]) -> Result<NameTable<'_>, Memory>
    requires { IsDistinct bytes_eq (names_of_iterators iterators.now) }
    ensures { IfOk result (λ t. t ≡ names_of_iterators iterators.now) }
{
    let mut table = NameTable::new(alloc);
    for iterator in iterators {
        table.add(iterator.name.as_slice())?;
    }
    Ok(table)
}

/// The annotation that the clauses at the front of these tokens say, and how many tokens they are.
fn clauses_first<'a>(
    alloc: Global,
    i: &Interface,
    scope: &Scope,
    text: &'a [u8],
    tokens: &'a [Token],
) -> Result<(Annotation, usize), Failure>
    requires lawful { IsLawfulInterface i.now }
    requires within { All (IsWithin text.now) tokens.now }
    ensures reads { Gives (λ x. (x.0, drop x.1 tokens.now)) result (clauses_next i.now scope.now text.now tokens.now) }
    ensures within { IfOk result (λ x. x.1 ≤ length tokens.now) }
{
    let reftypes = table_of_reftypes(alloc, i.reftypes.as_slice())?;
    let iterators = table_of_iterators(alloc, i.iterators.as_slice())?;
    let known = known(Version::Two, &reftypes, &iterators);
    let window = window(text, tokens);
    let mut reader = Reader::new(text, window);
    match read_clauses(alloc, &mut reader, scope, &known) {
        Ok(annotation) => Ok((annotation, window.len() - reader.left())),
        Err(error) => Err(failed(alloc, text, None, tokens, error)),
    }
}

/// The items at the front of these tokens over a parameter of this name, and how many tokens they are.
fn items_first<'a>(
    alloc: Global,
    i: &Interface,
    parameter: &Name,
    text: &'a [u8],
    tokens: &'a [Token],
) -> Result<(ItemList, usize), Failure>
    requires lawful { IsLawfulInterface i.now }
    requires within { All (IsWithin text.now) tokens.now }
    ensures reads { Gives (λ x. (x.0, drop x.1 tokens.now)) result (items_first i.now parameter.now text.now tokens.now) }
    ensures within { IfOk result (λ x. x.1 ≤ length tokens.now) }
{
    let reftypes = table_of_reftypes(alloc, i.reftypes.as_slice())?;
    let iterators = table_of_iterators(alloc, i.iterators.as_slice())?;
    let known = known(Version::Two, &reftypes, &iterators);
    let params = [param_of_items(alloc, parameter.as_slice())?];
    let names = Names::new(&params, None);
    let window = window(text, tokens);
    let mut reader = Reader::new(text, window);
    match read_items(alloc, &mut reader, &names, &known) {
        Ok(items) => Ok((items, window.len() - reader.left())),
        Err(error) => Err(failed(alloc, text, None, tokens, error)),
    }
}

/// Reads the clauses of a slot or an export that stand from the token `from` on, over the names that an interface has.
/// They may lend.
///
/// # Errors
/// The first fault that is met: `Statement`, `Unknown` or `NeedsSize`. `Memory` where there is not enough memory.
pub fn clauses_at(
    alloc: Global,
    i: &Interface,
    scope: &Scope,
    text: &[u8],
    tokens: &Tokens,
    from: u32,
) -> Result<Clauses, InterfaceFault>
    requires lawful { IsLawfulInterface i.now }
    requires within { All (IsWithin text.now) tokens.now }
    requires from { from ≤ length tokens.now }
    ensures ok { IfOk result (λ c. IsPart (clauses_next i.now scope.now text.now (drop from tokens.now)) c.annotation tokens.now c.next) }
    ensures fault { IfErr result (λ e. PartFails (clauses_next i.now scope.now text.now (drop from tokens.now)) e) }
{
    let rest = behind(text, tokens.as_slice(), from as usize);
    let (annotation, count) = clauses_first(alloc, i, scope, text, rest)?;
    let next = number_of(from as usize + count)?;
    Ok(Clauses { annotation, next })
}

/// Reads the items of an iterator that stand from the token `from` on, over a parameter of this name and the names that
/// an interface has. There is one at least.
///
/// # Errors
/// The first fault that is met: `Statement`, `Unknown` or `NeedsSize`. `Memory` where there is not enough memory.
pub fn items_at(
    alloc: Global,
    i: &Interface,
    parameter: &Name,
    text: &[u8],
    tokens: &Tokens,
    from: u32,
) -> Result<Items, InterfaceFault>
    requires lawful { IsLawfulInterface i.now }
    requires within { All (IsWithin text.now) tokens.now }
    requires from { from ≤ length tokens.now }
    ensures ok { IfOk result (λ x. IsPart (items_next i.now parameter.now text.now tokens.now from) x.items tokens.now x.next) }
    ensures fault { IfErr result (λ e. PartFails (items_next i.now parameter.now text.now tokens.now from) e) }
{
    let tokens = tokens.as_slice();
    if from as usize == tokens.len() {
        return Err(InterfaceFault::from(met_at_end(alloc, tokens, None)));
    }
    let rest = behind(text, tokens, from as usize);
    let (items, count) = items_first(alloc, i, parameter, text, rest)?;
    let next = number_of(from as usize + count)?;
    Ok(Items { items, next })
}
