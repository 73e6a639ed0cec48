ghost use Rattle.std.specs.Prelude.{◌≡◌, ◌<◌, length, OnOk};
ghost use Rattle.thread_check.specs.Blocks.{allowed, new_local};

use crate::fault::{CheckFault, Kind};
use crate::names::Names;
use crate::scope::Scope;
use crate::uses::within_limit;
use thread_tree::{At, LOCALS, Place};

/// A word that may stand only where this holds.
#[tactic(auto, unfolding(crate::specs::Blocks::allowed))]
pub(crate) fn allowed(place: Place, holds: bool) -> Result<(), CheckFault>
    ensures { result ≡ allowed place holds }
{
    if holds {
        Ok(())
    } else {
        Err(CheckFault::NotAllowedHere(place))
    }
}

impl<'a> Names<'a> {
    /// A local that is declared here.
    #[tactic(auto, unfolding(crate::specs::Blocks::new_local))]
    pub(crate) fn new_local(&self, scope: &Scope, at: At) -> Result<(), CheckFault>
        ensures verdict { result ≡ new_local self.now scope.now at }
        ensures ok { OnOk result (length scope.now.locals < 48) }
    {
        self.fresh(scope, at)?;
        within_limit(at.place, Kind::Locals, LOCALS as u32, scope.locals() + 1)
    }
}
