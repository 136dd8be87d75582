//! Reading expressions.

ghost use Rattle.std.specs.Prelude.{◌≡◌, ◌≤◌, ◌<◌, ◌^◌, length, position, bytes_eq, IfOk};
ghost use Rattle.lx_annot.specs.Expr.{Load64, Unary, Binary};
ghost use Rattle.lx_annot_expressions.specs.Reading.{Gives, behind};
ghost use Rattle.lx_annot_expressions.specs.Operators.{levels};
ghost use Rattle.lx_annot_expressions.specs.Exprs.{begins_load, bracketed_at, chain_at, expr_at, flat_at, flat_of, level_at, load_at, may_open, named, operand_at, param_at, place_of, primary_at};

use crate::fault::{FaultKind, ReadError};
use crate::operators::LEVELS;
use crate::reader::{Reader, number_of, unless_word};
use lx_annot::expr::{Expr, ExprNode, Mark, Ty};
use lx_annot::interface::Parameter;
use lx_words::{Memory, TokenKind};
use std::alloc::Global;
use std::marker::Model;

/// The greatest number that an expression may write.
const GREATEST_NUMBER: u64 = 9_223_372_036_854_775_807;

/// What names mean in an expression: the parameters, fewer than 2^32, and the type of `return` where that may stand.
#[derive(Drop)]
pub struct Scope<'a> {
    params: &'a [Parameter],
    ret: Option<Ty>,
}

impl<'a> Model for Scope<'a> {
    ghost use Rattle.std.specs.Prelude.{◌<◌, ◌^◌, length};
    ghost use Rattle.lx_annot_expressions.specs.Exprs.{Scope as Meaning};

    ghost Value = { Meaning };

    ghost view = { λ s. record { params = s.params.now; ret = s.ret } };

    ghost invariant = { λ s. length s.params.now < 2 ^ 32 };
}

fn first_named(params: &[Parameter], name: &[u8]) -> Option<usize>
    ensures { result ≡ position (λ p. bytes_eq name.now p.name) params.now }
{
    params.iter().position(|p| name == p.name.as_slice())
}

/// The place of the parameter of this name.
pub fn place_of(params: &[Parameter], name: &[u8]) -> Option<usize>
    ensures { result ≡ place_of params.now name.now }
{
    first_named(params, name)
}

impl<'a> Scope<'a> {
    /// The scope of these parameters, and of this type of `return`.
    pub fn new(params: &'a [Parameter], ret: Option<Ty>) -> Self
        requires { length params.now < 2 ^ 32 }
        ensures { result ≡ record { params = params.now; ret = ret } }
    {
        Scope { params, ret }
    }

    fn param(&self, name: &[u8]) -> Option<Expr>
        ensures { result ≡ param_at self.now.params (place_of self.now.params name.now) }
    {
        let place = place_of(self.params, name)?;
        let param = self.params.get(place)?;
        let node = ExprNode::Param(place as u32, param.ty);
        Some(Expr { node })
    }

    /// What a name means.
    fn named(&self, name: &[u8]) -> Option<Expr>
        ensures { result ≡ named self.now name.now }
    {
        if name == b"return".as_slice() {
            let node = ExprNode::Return(self.ret?);
            return Some(Expr { node });
        }
        self.param(name)
    }

    /// An expression that is one token.
    fn flat_of(&self, kind: TokenKind, bytes: &[u8]) -> Option<Expr>
        ensures { result ≡ flat_of self.now kind bytes.now }
    {
        match kind {
            TokenKind::Number => {
                let node = ExprNode::Number(number_of(GREATEST_NUMBER, kind, bytes)?);
                Some(Expr { node })
            }
            TokenKind::Word => self.named(bytes),
            _ => None,
        }
    }
}

fn load(alloc: Global, at: Expr) -> Result<Expr, Memory>
    ensures { IfOk result (λ e. e ≡ Load64 at) }
{
    let node = ExprNode::Load64(Box::new(alloc, at)?);
    Ok(Expr { node })
}

fn unary(alloc: Global, mark: Mark, x: Expr) -> Result<Expr, Memory>
    ensures { IfOk result (λ e. e ≡ Unary mark x) }
{
    let node = ExprNode::Unary(mark, Box::new(alloc, x)?);
    Ok(Expr { node })
}

fn binary(alloc: Global, mark: Mark, left: Expr, right: Expr) -> Result<Expr, Memory>
    ensures { IfOk result (λ e. e ≡ Binary mark left right) }
{
    let left = Box::new(alloc, left)?;
    let right = Box::new(alloc, right)?;
    let node = ExprNode::Binary(mark, left, right);
    Ok(Expr { node })
}

impl<'a> Reader<'a> {
    /// An expression that is one token.
    fn flat(&mut self, scope: &Scope<'_>) -> Result<Expr, ReadError>
        ensures reads { Gives result self.new (flat_at scope.now self.old) }
        ensures shrinks { length self.new ≤ length self.old }
    {
        let Some((kind, bytes)) = self.token() else {
            return Err(self.fault(FaultKind::Statement));
        };
        let flat = self.picked(
            scope.flat_of(kind, bytes),
            unless_word(FaultKind::Unknown, kind),
        )?;
        Ok(flat)
    }

    /// Whether `load64` stands next that is a load, or may be one.
    fn begins_load(&self) -> bool
        ensures { result ≡ begins_load self.now }
    {
        self.has(b"load64") && self.may_open_behind()
    }

    /// Whether a bracket, or nothing, stands behind the next token.
    fn may_open_behind(&self) -> bool
        ensures { result ≡ may_open (behind self.now) }
    {
        let rest = self.behind();
        rest.left() == 0 || rest.has(b"(")
    }

    /// An expression in brackets, with so many nestings left.
    #[cycle(exprs)]
    fn inner(&mut self, alloc: Global, scope: &Scope<'_>, depth: usize) -> Result<Expr, ReadError>
        ensures reads { Gives result self.new (bracketed_at (level_at (operand_at scope.now depth) levels) self.old) }
        ensures shrinks { length self.new ≤ length self.old }
    {
        self.expect(b"(")?;
        let e = self.level(alloc, scope, depth, LEVELS)?;
        self.expect(b")")?;
        Ok(e)
    }

    /// An operand without operator.
    #[cycle(exprs)]
    fn primary(&mut self, alloc: Global, scope: &Scope<'_>, depth: usize) -> Result<Expr, ReadError>
        ensures reads { Gives result self.new (primary_at scope.now (level_at (operand_at scope.now depth) levels) self.old) }
        ensures shrinks { length self.new ≤ length self.old }
    {
        if self.begins_load() {
            self.skip();
            let at = self.inner(alloc, scope, depth)?;
            let loaded = load(alloc, at)?;
            return Ok(loaded);
        }
        if self.has(b"(") {
            let inner = self.inner(alloc, scope, depth)?;
            return Ok(inner);
        }
        let flat = self.flat(scope)?;
        Ok(flat)
    }

    /// An operand, with the operators before it. Each nesting takes a token, so that no statement comes to the last.
    #[cycle(exprs)]
    #[tactic(auto, unfolding(crate::specs::Exprs::operand_at))]
    fn operand(&mut self, alloc: Global, scope: &Scope<'_>, depth: usize) -> Result<Expr, ReadError>
        ensures reads { Gives result self.new (operand_at scope.now depth self.old) }
        ensures shrinks { length self.new ≤ length self.old }
    {
        if depth == 0 {
            return Err(self.fault(FaultKind::Statement));
        }
        if let Some(mark) = self.prefix() {
            self.skip();
            let x = self.operand(alloc, scope, depth - 1)?;
            let e = unary(alloc, mark, x)?;
            return Ok(e);
        }
        let primary = self.primary(alloc, scope, depth - 1)?;
        Ok(primary)
    }

    /// Operands behind a first one, each behind an operator of the level `tighter`, joined from the left.
    #[cycle(exprs)]
    fn chain(
        &mut self,
        alloc: Global,
        scope: &Scope<'_>,
        depth: usize,
        tighter: u32,
        first: Expr,
    ) -> Result<Expr, ReadError>
        ensures reads { Gives result self.new (chain_at (level_at (operand_at scope.now depth) tighter) tighter (length self.old) first self.old) }
        ensures shrinks { length self.new ≤ length self.old }
    {
        let mut left = first;
        while let Some(mark) = self.operator(tighter) {
            self.skip();
            let right = self.level(alloc, scope, depth, tighter)?;
            left = binary(alloc, mark, left, right)?;
        }
        Ok(left)
    }

    /// An expression of so many levels of operators.
    #[cycle(exprs)]
    #[tactic(auto, unfolding(crate::specs::Exprs::level_at))]
    fn level(
        &mut self,
        alloc: Global,
        scope: &Scope<'_>,
        depth: usize,
        levels: u32,
    ) -> Result<Expr, ReadError>
        ensures reads { Gives result self.new (level_at (operand_at scope.now depth) levels self.old) }
        ensures shrinks { length self.new ≤ length self.old }
    {
        if levels == 0 {
            let operand = self.operand(alloc, scope, depth)?;
            return Ok(operand);
        }
        let first = self.level(alloc, scope, depth, levels - 1)?;
        let all = self.chain(alloc, scope, depth, levels - 1, first)?;
        Ok(all)
    }

    /// An expression.
    #[tactic(auto, unfolding(crate::specs::Exprs::expr_at))]
    pub fn expr(&mut self, alloc: Global, scope: &Scope<'_>) -> Result<Expr, ReadError>
        ensures reads { Gives result self.new (expr_at scope.now self.old) }
        ensures shrinks { length self.new ≤ length self.old }
    {
        let depth = self.left();
        let e = self.level(alloc, scope, depth, LEVELS)?;
        Ok(e)
    }

    /// An expression in brackets.
    pub fn bracketed(&mut self, alloc: Global, scope: &Scope<'_>) -> Result<Expr, ReadError>
        ensures reads { Gives result self.new (bracketed_at (expr_at scope.now) self.old) }
        ensures shrinks { length self.new ≤ length self.old }
    {
        self.expect(b"(")?;
        let e = self.expr(alloc, scope)?;
        self.expect(b")")?;
        Ok(e)
    }
}
