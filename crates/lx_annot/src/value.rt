//! The value of an expression.
ghost use Rattle.std.specs.Prelude.{◌≡◌, option_copied, None};
ghost use Rattle.lx_words.specs.declared.word.Width.TheVariants.{W64};
ghost use Rattle.lx_words.specs.Word.{word};
ghost use Rattle.lx_annot.specs.Scope.{env_of};
ghost use Rattle.lx_annot.specs.Value.{IsFound, at_most, extended, is_signed, less, shifted_left, shifted_right, strict, truth, unary, value};

use crate::expr::{Env, Expr, ExprNode, Mark, Ty};
use lx_words::{Pred, Width, Word, compare, resize};
use thiserror::Error;

/// A memory, as expressions look at it.
pub trait Look {
    ghost use Rattle.std.specs.Prelude.{◌≡◌, ℕ, Option};

    /// The number in the eight bytes at each address, or none where they are not mapped.
    ghost shows: { Self → ℕ → Option ℕ };

    /// The number in the eight bytes at an address, or none where they are not mapped. It takes no memory.
    fn load64(&self, at: u64) -> Option<u64>
        ensures { result ≡ shows self.now at };
}

/// An evaluated `load64` found nothing at an address.
#[derive(Clone, Copy, Debug, Error)]
#[error("eight bytes at 0x{at:x} are not mapped")]
pub struct NoLook {
    /// The address that was looked at.
    pub at: u64,
}

fn is_signed(ty: Ty) -> bool
    ensures { result ≡ is_signed ty }
{
    matches!(ty, Ty::I8 | Ty::I16 | Ty::I32 | Ty::I64)
}

/// A word of a declared type, extended to 64 bits as its type says, or 0 where there is none.
fn extended(ty: Ty, word: Option<&Word>) -> u64
    ensures { result ≡ extended ty (option_copied word.entry) }
{
    match word {
        Some(word) => resize(*word, Width::W64, is_signed(ty)).bits,
        None => 0,
    }
}

fn long(bits: u64) -> Word
    ensures { result ≡ word W64 bits }
{
    Word {
        width: Width::W64,
        bits,
    }
}

fn less(x: u64, y: u64) -> bool
    ensures { result ≡ less x y }
{
    compare(Pred::Slt, long(x), long(y))
}

fn at_most(x: u64, y: u64) -> bool
    ensures { result ≡ at_most x y }
{
    compare(Pred::Sle, long(x), long(y))
}

fn unary(mark: Mark, x: u64) -> u64
    ensures { result ≡ unary mark x }
{
    match mark {
        Mark::Invert => u64::from(x == 0),
        _ => x.wrapping_neg(),
    }
}

fn shifted_left(x: u64, y: u64) -> u64
    ensures { result ≡ shifted_left x y }
{
    if y < 64 { x << y } else { 0 }
}

fn shifted_right(x: u64, y: u64) -> u64
    ensures { result ≡ shifted_right x y }
{
    if y < 64 { x >> y } else { 0 }
}

fn strict(mark: Mark, x: u64, y: u64) -> u64
    ensures { result ≡ strict mark x y }
{
    match mark {
        Mark::Add => x.wrapping_add(y),
        Mark::Sub => x.wrapping_sub(y),
        Mark::Mul => x.wrapping_mul(y),
        Mark::And => x & y,
        Mark::Or => x | y,
        Mark::Xor => x ^ y,
        Mark::ShiftLeft => shifted_left(x, y),
        Mark::ShiftRight => shifted_right(x, y),
        Mark::Equal => u64::from(x == y),
        Mark::Differs => u64::from(x != y),
        Mark::Less => u64::from(less(x, y)),
        Mark::AtMost => u64::from(at_most(x, y)),
        Mark::Greater => u64::from(less(y, x)),
        Mark::AtLeast => u64::from(at_most(y, x)),
        _ => 0,
    }
}

/// What parameters and `return` are.
#[derive(Clone, Copy)]
pub(crate) struct Scope<'a> {
    pub(crate) args: &'a [Word],
    pub(crate) ret: Option<&'a Word>,
}

pub(crate) fn scope_of(env: &Env) -> Scope<'_>
    ensures { env_of result ≡ env.now }
{
    Scope {
        args: env.args.as_slice(),
        ret: env.ret.as_ref(),
    }
}

/// The value of an expression in a scope. It takes no memory.
pub(crate) fn value_in<M: Look>(e: &Expr, scope: Scope, memory: &M) -> Result<u64, NoLook>
    ensures { IsFound (λ v. v) result (value (M.shows memory.now) (env_of scope.entry) e.now) }
{
    match &e.node {
        ExprNode::Number(n) => Ok(*n),
        ExprNode::Param(k, ty) => Ok(extended(*ty, scope.args.get(*k as usize))),
        ExprNode::Return(ty) => Ok(extended(*ty, scope.ret)),
        ExprNode::Load64(at) => {
            let at = value_in(at, scope, memory)?;
            match memory.load64(at) {
                Some(number) => Ok(number),
                None => Err(NoLook { at }),
            }
        }
        ExprNode::Unary(mark, x) => {
            let x = value_in(x, scope, memory)?;
            Ok(unary(*mark, x))
        }
        ExprNode::Binary(Mark::Both, a, b) => {
            if value_in(a, scope, memory)? == 0 {
                return Ok(0);
            }
            let y = value_in(b, scope, memory)?;
            Ok(u64::from(y != 0))
        }
        ExprNode::Binary(Mark::Either, a, b) => {
            if value_in(a, scope, memory)? != 0 {
                return Ok(1);
            }
            let y = value_in(b, scope, memory)?;
            Ok(u64::from(y != 0))
        }
        ExprNode::Binary(mark, a, b) => {
            let x = value_in(a, scope, memory)?;
            let y = value_in(b, scope, memory)?;
            Ok(strict(*mark, x, y))
        }
    }
}

/// The value of an expression, 64 bits, where parameters and `return` are what `env` says. A parameter or a result that
/// `env` lacks is 0. `&&` and `||` evaluate their right side only where the left one does not decide. It takes no
/// memory.
///
/// # Errors
/// `NoLook` exactly where an evaluated `load64` finds nothing, with the first such address.
pub fn value<M: Look>(e: &Expr, env: &Env, memory: &M) -> Result<u64, NoLook>
    ensures { IsFound (λ v. v) result (value (M.shows memory.now) env.now e.now) }
{
    value_in(e, scope_of(env), memory)
}

/// The value of an expression over the arguments of a call that has returned nothing yet, as `value` gives it. It takes no
/// memory, and no copy of the arguments is needed.
///
/// # Errors
/// `NoLook` as for `value`.
pub fn value_at_entry<M: Look>(e: &Expr, args: &[Word], memory: &M) -> Result<u64, NoLook>
    ensures { IsFound (λ v. v) result (value (M.shows memory.now) (record { args = args.now; ret = None }) e.now) }
{
    value_in(e, Scope { args, ret: None }, memory)
}
