use std::alloc::AllocError;

/// Why reading stopped at the first token left.
#[derive(Clone, Copy, Debug, Drop, PartialEq)]
pub enum Halt {
    /// It can't stand here, or none is left.
    Stuck,
    /// It would pass a bound.
    Long,
    NoMemory,
}

impl From<AllocError> for Halt {
    ghost use Rattle.std.specs.Prelude.{◌≡◌};
    ghost use Rattle.thread_text.specs.declared.halt.Halt.TheVariants.{NoMemory};

    ghost from_gives = { λ _ e. e ≡ NoMemory };

    fn from(_error: AllocError) -> Halt {
        Halt::NoMemory
    }
}
