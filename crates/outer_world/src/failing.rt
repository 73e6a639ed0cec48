//! Which calls of a fake are to fail.
ghost use Rattle.std.specs.Prelude.{◌≡◌};
ghost use Rattle.outer_world.specs.Failing.{is_listed};

/// Whether the call of this number, counted from 1, is to fail.
pub(crate) fn is_to_fail(failing: &[u32], call: u64) -> bool
    ensures listed { result ≡ is_listed failing.now call }
{
    failing.iter().any(|number| u64::from(*number) == call)
}
