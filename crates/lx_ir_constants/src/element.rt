//! Constant `getelementptr`s.

ghost use Rattle.std.specs.Prelude.{◌≡◌};
ghost use Rattle.lx_ir_constants.specs.Constants.{moved_by, address_of};

use lx_ir::module::Pointer;
use lx_ir::types::IrType;
use lx_ir_offsets::distance;
use lx_ir_terms::Context;
use lx_words::{Items, Word};

/// The operands of a constant `getelementptr`.
#[derive(Drop)]
pub struct Element {
    /// The type that the first index counts.
    pub ty: IrType,
    /// The pointer from which it goes.
    pub base: Pointer,
    /// The indices, at least one.
    pub indices: Items<Word>,
}

/// So many bytes behind a pointer, modulo 2^64.
fn moved_by(pointer: Pointer, bytes: u64) -> Pointer
    ensures { result ≡ moved_by pointer bytes }
{
    match pointer {
        Pointer::Symbol(symbol, at) => Pointer::Symbol(symbol, at.wrapping_add(bytes)),
        Pointer::Number(at) => Pointer::Number(at.wrapping_add(bytes)),
        Pointer::Null | Pointer::Blank(_) => Pointer::Number(bytes),
    }
}

/// What a constant `getelementptr` stands for.
pub fn address_of(context: &Context<'_>, element: &Element) -> Pointer
    ensures { result ≡ address_of context.now element.now }
{
    let indices = element.indices.as_slice();
    let bytes = match distance(context.known, &element.ty, indices) {
        Some(bytes) => bytes,
        None => 0,
    };
    moved_by(element.base, bytes)
}
