// A device whose power was cut.
ghost use Rattle.std.specs.Prelude.{◌≡◌, ◌++◌, [], ◌∷◌, Some};
ghost use Rattle.nv_memory.specs.Budget.{first_budget, later_budgets};

use nv_memory::Nv;
use std::marker::Model;

/// A device that has no write left. It must be spent, by `again` or `leave`. Contracts see the device itself.
#[must_use]
pub struct Dark<N: Nv> {
    nv: N,
}

impl<N: Nv> Model for Dark<N> {
    ghost use Rattle.std.specs.Prelude.{◌≡◌, Some};

    ghost Value = { N };

    ghost view = { λ s. s.nv };

    ghost invariant = { λ s. N.left s.nv ≡ Some 0 };
}

impl<N: Nv> Dark<N> {
    /// Takes a device that has no write left.
    pub fn of(nv: N) -> Dark<N>
        requires dark { N.left nv ≡ Some 0 }
        ensures same { result ≡ nv }
    {
        Dark { nv }
    }

    /// Powers the device up: the next budget counts from now on.
    pub fn again(self) -> N
        ensures words { N.words result ≡ N.words self }
        ensures left { N.left result ≡ first_budget (N.to_come self) }
        ensures to_come { N.to_come result ≡ later_budgets (N.to_come self) }
        ensures ends { N.ends result ≡ N.ends self ++ N.words self ∷ [] }
    {
        let Dark { mut nv } = self;
        nv.power_up();
        nv
    }

    /// Hands the device back unpowered.
    pub fn leave(self) -> N
        ensures same { result ≡ self }
        ensures dark { N.left result ≡ Some 0 }
    {
        let Dark { nv } = self;
        nv
    }
}
