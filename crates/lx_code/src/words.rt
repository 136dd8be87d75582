//! Words of registers.
ghost use Rattle.std.specs.Prelude.{◌≡◌};
ghost use Rattle.lx_ir.specs.Layout.{width_of as width_of_scalar};

use lx_ir::types::Scalar;
use lx_words::Width;

/// The width of a register of a type.
pub fn width_of(ty: &Scalar) -> Width
    ensures { result ≡ width_of_scalar ty.now }
{
    match ty {
        Scalar::Int(width) => *width,
        Scalar::Ptr => Width::W64,
    }
}
