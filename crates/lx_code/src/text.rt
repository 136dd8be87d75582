//! Texts at their places in programs.
use lx_ir::module::{Constant, Module};

/// A text at its place in a program, where its constants come to numbers: one that has an address comes to another one in
/// another program.
pub trait PlacedText {
    ghost use Rattle.std.specs.Prelude.{◌≡◌, ℕ};
    ghost use Rattle.lx_ir.specs.declared.module.Module.{Module as Text};
    ghost use Rattle.lx_ir.specs.declared.module.Constant.{Constant as Written};

    /// The text.
    ghost has: { Self → Text };

    /// The number that each constant comes to.
    ghost comes_to: { Self → Written → ℕ };

    /// The text.
    fn text(&self) -> &Module
        ensures { result.now ≡ has self.now };

    /// The number that a constant of the text comes to.
    fn number(&self, constant: &Constant) -> u64
        ensures { result ≡ comes_to self.now constant.now };
}
