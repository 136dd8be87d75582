//! The principals behind one.
ghost use Rattle.std.specs.Prelude.{◌≡◌};
ghost use Rattle.lx_caps.specs.Precedence.{follows};

use crate::PrincipalTest;
use lx_caps::{Principal, follows};

/// The test of the principals behind one, in their order, which all pass for `None`.
#[derive(Clone, Copy)]
pub(crate) struct Behind {
    pub(crate) after: Option<Principal>,
}

impl PrincipalTest for Behind {
    ghost stands = { λ behind p. p ≡ follows behind.after };

    fn passes(&self, who: Principal) -> bool {
        follows(self.after, who)
    }
}
