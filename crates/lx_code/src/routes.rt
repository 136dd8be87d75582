//! How far the indices of a `getelementptr` go, and what room an `alloca` asks for, reckoned before they run.
ghost use Rattle.std.specs.Prelude.{◌≡◌, IsTrue, IfOk, IfSome};
ghost use Rattle.lx_ir.specs.Layout.{is_lawful_type, layout, layout_of};
ghost use Rattle.lx_code.specs.Routes.{word_in, word_of, AreLegs, IsRoute, IsStep};

use crate::parts::{element_of, field_named};
use lx_ir::instr::Argument;
use lx_ir::module::{Constant, Module, Value};
use lx_ir::types::{IrType, TypeNode};
use lx_ir::{align_of, size_of, unnamed};
use lx_words::{Items, Memory, Width, Word};
use std::alloc::Global;

/// A struct with so many fields is laid out sooner than a table is asked.
const FEW: usize = 8;

/// How far an index goes.
#[derive(Clone, Copy)]
pub enum Leg {
    /// The index, a signed number, counts values of so many bytes.
    Stride(u64),
    /// The index names a field that begins at this byte.
    Start(u64),
}

/// How far the indices of a `getelementptr` go: the first counts whole values of so many bytes, and each further one has a
/// leg.
pub struct Route {
    pub size: u64,
    pub legs: Items<Leg>,
}

impl Drop for Route {
    fn drop(self) {
        let Route { size: _, legs: _ } = self;
    }
}

/// How many bytes a type takes, and what its addresses are divisible by.
#[derive(Clone, Copy)]
pub struct Room {
    pub size: u64,
    pub align: u64,
}

// A leg, and the type that it leads into.
#[derive(Clone, Copy)]
struct Step<'a> {
    leg: Leg,
    ty: &'a IrType,
}

fn is_leaf(ty: &IrType) -> bool {
    match &ty.node {
        TypeNode::Scalar(_) | TypeNode::Named(_) => true,
        _ => false,
    }
}

// Whether a type as it is written has only a few parts, so that laying it out takes a few steps.
fn is_slight(ty: &IrType) -> bool {
    match &ty.node {
        TypeNode::Scalar(_) | TypeNode::Named(_) => true,
        TypeNode::Array(_, element) => is_leaf(element),
        TypeNode::Struct(fields) | TypeNode::Packed(fields) => {
            fields.len() <= FEW && fields.iter().all(|field| is_leaf(field))
        }
    }
}

// The word that a constant is in every program, if it may be an index there.
fn word_in(constant: &Constant) -> Option<Word>
    ensures { result ≡ word_in constant.now }
{
    match constant {
        Constant::Number(word) => Some(*word),
        Constant::Blank(_, width) => Some(Word::new(*width, 0)),
        Constant::Truth(_) => None,
        Constant::Pointer(_) => None,
        Constant::Cast(_, _) => None,
    }
}

fn word_of(value: &Value) -> Option<Word>
    ensures { result ≡ word_of value.now }
{
    match value {
        Value::Constant(constant) => word_in(constant),
        Value::Register(_) => None,
    }
}

// Where an index leads; none, where it is to name a field and is no number in every program.
fn leg_of<'a>(text: &'a Module, ty: &'a IrType, value: &Value) -> Option<Step<'a>>
    requires { IsTrue (is_lawful_type text.now.types ty.now) }
    ensures leg { IfSome result (λ s. IsStep text.now.types ty.now (word_of value.now) s.leg s.ty.now) }
    ensures sized { IfSome result (λ s. IsTrue (is_lawful_type text.now.types s.ty.now)) }
{
    match element_of(unnamed(text, ty)) {
        Some(element) => Some(Step {
            leg: Leg::Stride(size_of(text, element)),
            ty: element,
        }),
        None => match word_of(value) {
            Some(word) => {
                let part = field_named(text, ty, word);
                Some(Step {
                    leg: Leg::Start(part.offset),
                    ty: part.ty,
                })
            }
            None => None,
        },
    }
}

// The legs of indices within a type.
fn legs_of(
    alloc: Global,
    text: &Module,
    ty: &IrType,
    indices: &[Argument],
) -> Result<Option<Items<Leg>>, Memory>
    requires { IsTrue (is_lawful_type text.now.types ty.now) }
    ensures { IfOk result (λ found. IfSome found (λ legs. AreLegs text.now.types ty.now indices.now legs)) }
{
    let mut legs = Items::new(alloc);
    let mut inner = ty;
    for index in indices {
        match leg_of(text, inner, &index.value) {
            Some(step) => {
                legs.push(step.leg)?;
                inner = step.ty;
            }
            None => return Ok(None),
        }
    }
    Ok(Some(legs))
}

/// The route of indices; none, where there is none for them, or where they are soon followed as they are: one or two indices
/// in a type of a few parts.
pub(crate) fn route_of(
    alloc: Global,
    text: &Module,
    ty: &IrType,
    indices: &[Argument],
) -> Result<Option<Route>, Memory>
    requires { IsTrue (is_lawful_type text.now.types ty.now) }
    ensures { IfOk result (λ found. IfSome found (λ route. IsRoute text.now.types ty.now indices.now route)) }
{
    if indices.len() <= 2 && is_slight(ty) {
        return Ok(None);
    }
    let Some((_, others)) = indices.split_first() else {
        return Ok(None);
    };
    match legs_of(alloc, text, ty, others)? {
        Some(legs) => Ok(Some(Route {
            size: size_of(text, ty),
            legs,
        })),
        None => Ok(None),
    }
}

/// The room of a type; none, where the type has a few parts.
pub(crate) fn room_of(text: &Module, ty: &IrType) -> Option<Room>
    requires { IsTrue (is_lawful_type text.now.types ty.now) }
    ensures { IfSome result (λ room. layout room.size room.align ≡ layout_of text.now.types ty.now) }
{
    if is_slight(ty) {
        return None;
    }
    Some(Room {
        size: size_of(text, ty),
        align: align_of(text, ty),
    })
}
