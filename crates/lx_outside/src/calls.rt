//! Calls that are to fail, by their numbers.
ghost use Rattle.std.specs.Prelude.{◌≡◌};
ghost use Rattle.lx_outside.specs.Counts.{is_to_fail};

/// Whether the call of this number is one of those that are to fail.
pub fn is_to_fail(fails: &[u32], call: u64) -> bool
    ensures { result ≡ is_to_fail fails.now call }
{
    fails.iter().any(|number| u64::from(*number) == call)
}
