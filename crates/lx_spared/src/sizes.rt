//! How many bytes the values of registers take.
ghost use Rattle.std.specs.Prelude.{◌≡◌};
ghost use Rattle.lx_ir.specs.Layout.{scalar_size, width_of};

use lx_ir::types::Scalar;
use lx_words::Width;

fn width_of(ty: Scalar) -> Width
    ensures { result ≡ width_of ty }
{
    match ty {
        Scalar::Int(width) => width,
        Scalar::Ptr => Width::W64,
    }
}

/// How many bytes a value of this type takes in memory.
pub fn scalar_size(ty: Scalar) -> u8
    ensures { result ≡ scalar_size ty }
{
    width_of(ty).byte_count()
}
