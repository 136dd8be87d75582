//! Tests of principals.
use lx_caps::Principal;

/// A test of principals, by which a writer is looked for.
pub trait PrincipalTest {
    ghost use Rattle.std.specs.Prelude.{◌≡◌, Bool};
    ghost use Rattle.lx_caps.specs.declared.Principal.{Principal};

    /// The value stands for the test.
    ghost stands: { Self → (Principal → Bool) → Type 0 };

    /// Says whether a principal passes.
    fn passes(&self, who: Principal) -> bool
        ensures { (p : Principal → Bool) → stands self.now p → result ≡ p who };
}
