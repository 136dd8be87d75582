//! Reading types.

ghost use Rattle.std.specs.Prelude.{◌≡◌, ◌≤◌, length};
ghost use Rattle.lx_ir_terms.specs.Reading.{Gives, Passes, has, items_at, listed_at};
ghost use Rattle.lx_ir_terms.specs.Types.{scalar_of, scalar_in, integer_in, result_in, is_opening, scalar_refusal, scalar_at, integer_at, result_at, count_in, count_at, flat_in, flat_refusal, flat_at, array_behind, struct_behind, packed_behind, nested_at, type_at, depth_limit, within_at, written_type_at};

use crate::context::Context;
use crate::fault::{Fault, FaultKind, ReadError};
use crate::reader::{Reader, is_mark, refusal};
use lx_ir::types::{IrType, Scalar, TypeNode};
use lx_ir_offsets::left_behind;
use lx_ir_tokens::{Keyword, Kind, Mark, ScalarWord, Tok};
use lx_words::{Items, Width};
use std::alloc::Global;

/// How deep types and constants nest at most.
pub const DEPTH_LIMIT: u32 = 64;

fn scalar_of(word: ScalarWord) -> Scalar
    ensures { result ≡ scalar_of word }
{
    match word {
        ScalarWord::Int(width) => Scalar::Int(width),
        ScalarWord::Ptr => Scalar::Ptr,
    }
}

fn scalar_in(kind: Kind) -> Option<Scalar>
    ensures { result ≡ scalar_in kind }
{
    match kind {
        Kind::Word(Keyword::Scalar(word)) => Some(scalar_of(word)),
        _ => None,
    }
}

fn integer_in(kind: Kind) -> Option<Width>
    ensures { result ≡ integer_in kind }
{
    match kind {
        Kind::Word(Keyword::Scalar(ScalarWord::Int(width))) => Some(width),
        _ => None,
    }
}

pub fn result_in(kind: Kind) -> Option<Option<Scalar>>
    ensures { result ≡ result_in kind }
{
    match kind {
        Kind::Word(Keyword::Scalar(word)) => Some(Some(scalar_of(word))),
        Kind::Word(Keyword::Void) => Some(None),
        _ => None,
    }
}

/// Whether a mark opens a type.
fn is_opening(kind: Kind) -> bool
    ensures { result ≡ is_opening kind }
{
    is_mark(kind, Mark::OpenBracket) || is_mark(kind, Mark::OpenBrace) || is_mark(kind, Mark::Less)
}

/// How a token is refused where the type of a register has to stand.
pub fn scalar_refusal(kind: Kind) -> FaultKind
    ensures { result ≡ scalar_refusal kind }
{
    match kind {
        Kind::Local | Kind::Word(Keyword::Scalar(_) | Keyword::Void) => FaultKind::OutOfProfile,
        _ => {
            if is_opening(kind) {
                FaultKind::OutOfProfile
            } else {
                refusal(kind)
            }
        }
    }
}

/// The count that a number says; one of more than 64 bits counts as the greatest of them.
fn count_in(kind: Kind) -> Option<u64>
    ensures { result ≡ count_in kind }
{
    match kind {
        Kind::Number {
            value: Some(n),
            minus: false,
        } => {
            if n < 0 {
                None
            } else {
                Some(n.min(i128::from(u64::MAX)) as u64)
            }
        }
        Kind::Number {
            value: None,
            minus: false,
        } => Some(u64::MAX),
        _ => None,
    }
}

/// A type that is one token.
fn flat_in(context: &Context<'_>, token: Tok) -> Option<IrType>
    ensures { result ≡ flat_in context.now token }
{
    let node = match token.kind {
        Kind::Word(Keyword::Scalar(word)) => TypeNode::Scalar(scalar_of(word)),
        Kind::Local => TypeNode::Named(context.type_number(token.name)?),
        _ => return None,
    };
    Some(IrType { node })
}

fn flat_refusal(kind: Kind) -> FaultKind
    ensures { result ≡ flat_refusal kind }
{
    match kind {
        Kind::Local => FaultKind::Unknown,
        _ => refusal(kind),
    }
}

impl<'a> Reader<'a> {
    /// The type of a register.
    pub fn scalar(&mut self) -> Result<Scalar, ReadError>
        ensures reads { Gives result self.new (scalar_at self.old) }
        ensures shrinks { length self.new ≤ length self.old }
    {
        let [token, ..] = self.rest else {
            return Err(self.fault(FaultKind::Statement));
        };
        let scalar = self.picked(scalar_in(token.kind), scalar_refusal(token.kind))?;
        Ok(scalar)
    }

    /// An integer type.
    pub fn integer(&mut self) -> Result<Width, ReadError>
        ensures reads { Gives result self.new (integer_at self.old) }
        ensures shrinks { length self.new ≤ length self.old }
    {
        let [token, ..] = self.rest else {
            return Err(self.fault(FaultKind::Statement));
        };
        let width = self.picked(integer_in(token.kind), scalar_refusal(token.kind))?;
        Ok(width)
    }

    /// The type of a result; none is `void`.
    pub fn result(&mut self) -> Result<Option<Scalar>, ReadError>
        ensures reads { Gives result self.new (result_at self.old) }
        ensures shrinks { length self.new ≤ length self.old }
    {
        let [token, ..] = self.rest else {
            return Err(self.fault(FaultKind::Statement));
        };
        let ret = self.picked(result_in(token.kind), scalar_refusal(token.kind))?;
        Ok(ret)
    }

    /// A number without a sign.
    pub fn count(&mut self) -> Result<u64, ReadError>
        ensures reads { Gives result self.new (count_at self.old) }
        ensures shrinks { length self.new ≤ length self.old }
    {
        let [token, ..] = self.rest else {
            return Err(self.fault(FaultKind::Statement));
        };
        let count = self.picked(count_in(token.kind), FaultKind::Statement)?;
        Ok(count)
    }

    /// A type that holds no other.
    fn flat_type(&mut self, context: &Context<'_>) -> Result<IrType, ReadError>
        ensures reads { Gives result self.new (flat_at context.now self.old) }
        ensures shrinks { length self.new ≤ length self.old }
    {
        let [token, ..] = self.rest else {
            return Err(self.fault(FaultKind::Statement));
        };
        let ty = self.picked(flat_in(context, *token), flat_refusal(token.kind))?;
        Ok(ty)
    }

    /// An array type behind its bracket, with so many nestings left for its element.
    #[cycle(types)]
    fn array(
        &mut self,
        alloc: Global,
        context: &Context<'_>,
        depth: u32,
    ) -> Result<IrType, ReadError>
        ensures reads { Gives result self.new (array_behind (type_at context.now depth) self.old) }
        ensures shrinks { length self.new ≤ length self.old }
    {
        let count = self.count()?;
        self.times()?;
        let element = self.ty_within(alloc, context, depth)?;
        self.mark(Mark::CloseBracket)?;
        let node = TypeNode::Array(count, Box::new(alloc, element)?);
        Ok(IrType { node })
    }

    /// One field or more.
    #[cycle(types)]
    fn some_fields(
        &mut self,
        alloc: Global,
        context: &Context<'_>,
        depth: u32,
    ) -> Result<Items<IrType>, ReadError>
        ensures reads { Gives result self.new (items_at (type_at context.now depth) self.old) }
        ensures shrinks { length self.new ≤ length self.old }
    {
        let mut fields = Items::new(alloc);
        fields.push(self.ty_within(alloc, context, depth)?)?;
        while self.takes(Mark::Comma) {
            let field = self.ty_within(alloc, context, depth)?;
            fields.push(field)?;
        }
        Ok(fields)
    }

    /// The fields of a struct type behind its brace.
    #[cycle(types)]
    fn fields(
        &mut self,
        alloc: Global,
        context: &Context<'_>,
        depth: u32,
    ) -> Result<Items<IrType>, ReadError>
        ensures reads { Gives result self.new (listed_at Mark.CloseBrace (type_at context.now depth) self.old) }
        ensures shrinks { length self.new ≤ length self.old }
    {
        if self.takes(Mark::CloseBrace) {
            return Ok(Items::new(alloc));
        }
        let fields = self.some_fields(alloc, context, depth)?;
        self.mark(Mark::CloseBrace)?;
        Ok(fields)
    }

    /// A struct type behind its brace.
    #[cycle(types)]
    fn structure(
        &mut self,
        alloc: Global,
        context: &Context<'_>,
        depth: u32,
    ) -> Result<IrType, ReadError>
        ensures reads { Gives result self.new (struct_behind (type_at context.now depth) self.old) }
        ensures shrinks { length self.new ≤ length self.old }
    {
        let fields = self.fields(alloc, context, depth)?;
        let node = TypeNode::Struct(fields.into_vec());
        Ok(IrType { node })
    }

    /// A packed struct type behind its `<`.
    #[cycle(types)]
    fn packed(
        &mut self,
        alloc: Global,
        context: &Context<'_>,
        depth: u32,
    ) -> Result<IrType, ReadError>
        ensures reads { Gives result self.new (packed_behind (type_at context.now depth) self.old) }
        ensures shrinks { length self.new ≤ length self.old }
    {
        self.mark(Mark::OpenBrace)?;
        let fields = self.fields(alloc, context, depth)?;
        self.mark(Mark::Greater)?;
        let node = TypeNode::Packed(fields.into_vec());
        Ok(IrType { node })
    }

    /// An array or a struct.
    #[cycle(types)]
    fn nested(
        &mut self,
        alloc: Global,
        context: &Context<'_>,
        depth: u32,
    ) -> Result<IrType, ReadError>
        ensures reads { Gives result self.new (nested_at (type_at context.now depth) self.old) }
        ensures shrinks { length self.new ≤ length self.old }
    {
        if self.takes(Mark::OpenBracket) {
            let array = self.array(alloc, context, depth)?;
            return Ok(array);
        }
        if self.takes(Mark::OpenBrace) {
            let structure = self.structure(alloc, context, depth)?;
            return Ok(structure);
        }
        self.skip();
        let packed = self.packed(alloc, context, depth)?;
        Ok(packed)
    }

    /// Whether a mark that opens a type, or a group of an initialiser, stands next.
    pub fn opens_type(&self) -> bool
        ensures { result ≡ has is_opening self.now }
    {
        match self.rest {
            [] => false,
            [token, ..] => is_opening(token.kind),
        }
    }

    /// A type, with so many nestings left.
    #[cycle(types)]
    #[tactic(auto, unfolding(crate::specs::Types::type_at))]
    fn ty_within(
        &mut self,
        alloc: Global,
        context: &Context<'_>,
        depth: u32,
    ) -> Result<IrType, ReadError>
        ensures reads { Gives result self.new (type_at context.now depth self.old) }
        ensures shrinks { length self.new ≤ length self.old }
    {
        if !self.opens_type() {
            let flat = self.flat_type(context)?;
            return Ok(flat);
        }
        if depth == 0 {
            return Err(self.fault(FaultKind::OutOfProfile));
        }
        let nested = self.nested(alloc, context, depth - 1)?;
        Ok(nested)
    }

    /// A type whose nestings are counted alone.
    fn nesting_type(&mut self, alloc: Global, context: &Context<'_>) -> Result<IrType, ReadError>
        ensures reads { Gives result self.new (type_at context.now depth_limit self.old) }
        ensures shrinks { length self.new ≤ length self.old }
    {
        let ty = self.ty_within(alloc, context, DEPTH_LIMIT)?;
        Ok(ty)
    }

    /// Behind a type that was read with so many tokens left: the fault at the first type in it that is outside the limits,
    /// where the context has limits.
    fn within_limits(
        &self,
        context: &Context<'_>,
        left: usize,
        ty: &IrType,
    ) -> Result<(), ReadError>
        ensures { Passes result self.now (within_at context.now.limits left ty.now self.now) }
    {
        let Some(shapes) = context.limits else {
            return Ok(());
        };
        match left_behind(shapes, ty, left) {
            Ok(_) => Ok(()),
            Err(left) => {
                let kind = FaultKind::OutOfProfile;
                Err(ReadError::Fault(Fault { kind, left }))
            }
        }
    }

    /// A type as it is written. Where the context has limits, a type that is outside them is a fault at its first token,
    /// also inside another.
    pub fn ty(&mut self, alloc: Global, context: &Context<'_>) -> Result<IrType, ReadError>
        ensures reads { Gives result self.new (written_type_at context.now self.old) }
        ensures shrinks { length self.new ≤ length self.old }
    {
        let left = self.left();
        let ty = self.nesting_type(alloc, context)?;
        self.within_limits(context, left, &ty)?;
        Ok(ty)
    }
}
