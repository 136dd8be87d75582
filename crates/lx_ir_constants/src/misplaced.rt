//! Constant `getelementptr`s whose indices name no part.

ghost use Rattle.std.specs.Prelude.{◌≡◌, IfOk};
ghost use Rattle.lx_ir_constants.specs.Misplaced.{names_parts, is_misplaced};

use crate::element::Element;
use crate::pointers::{element_within, has_element_word};
use lx_ir_offsets::part_at;
use lx_ir_terms::{Context, DEPTH_LIMIT, ReadError, Reader};
use lx_ir_tokens::Tok;
use lx_words::Memory;
use std::alloc::Global;

/// Whether each index behind the first names a part, as far as the types are known.
fn names_parts(context: &Context<'_>, element: &Element) -> bool
    ensures { result ≡ names_parts context.now element.now }
{
    let indices = element.indices.as_slice();
    let behind = match indices {
        [] => indices,
        [_, behind @ ..] => behind,
    };
    match part_at(context.known.named(), &element.ty, behind) {
        Some(_) => true,
        None => false,
    }
}

/// Whether a constant `getelementptr` stands at the front of these tokens that can be read to its closing parenthesis
/// and one of whose indices names no field, or goes into no struct or array. What is behind a name that is not known is
/// not looked at.
pub fn is_misplaced(alloc: Global, tokens: &[Tok], context: &Context<'_>) -> Result<bool, Memory>
    ensures { IfOk result (λ misplaced. misplaced ≡ is_misplaced context.now tokens.now) }
{
    let mut reader = Reader::new(tokens);
    if !has_element_word(&reader) {
        return Ok(false);
    }
    reader.skip();
    match element_within(alloc, &mut reader, context, DEPTH_LIMIT) {
        Ok(element) => Ok(!names_parts(context, &element)),
        Err(ReadError::Fault(_)) => Ok(false),
        Err(ReadError::Memory) => Err(Memory),
    }
}
