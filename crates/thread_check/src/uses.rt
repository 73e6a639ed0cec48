ghost use Rattle.std.specs.Prelude.{◌≡◌, ◌≤◌, OnOk};
ghost use Rattle.thread_check.specs.Verdict.{same_count, in_range, within_limit, same_place, stands_at};
ghost use Rattle.thread_check.specs.Uses.{same_sort, used, fresh};

use crate::fault::{CheckFault, Kind};
use crate::names::Names;
use crate::scope::Scope;
use crate::sort::Sort;
use thread_tree::{At, Num, Place};

/// A count that must be the wanted one.
#[tactic(auto, unfolding(crate::specs::Verdict::same_count))]
pub(crate) fn same_count(place: Place, wanted: usize, count: usize) -> Result<(), CheckFault>
    ensures { result ≡ same_count place wanted count }
{
    if count == wanted {
        Ok(())
    } else {
        Err(CheckFault::WrongCount(place))
    }
}

/// A number that must be in a range.
#[tactic(auto, unfolding(crate::specs::Verdict::in_range))]
pub(crate) fn in_range(number: Num, least: u32, most: u32) -> Result<(), CheckFault>
    ensures { result ≡ in_range number least most }
{
    if least <= number.value && number.value <= most {
        Ok(())
    } else {
        Err(CheckFault::OutOfRange(number.place, number.value))
    }
}

/// A count that must not pass its limit.
#[tactic(auto, unfolding(crate::specs::Verdict::within_limit))]
pub(crate) fn within_limit(
    place: Place,
    kind: Kind,
    limit: u32,
    count: u32,
) -> Result<(), CheckFault>
    ensures verdict { result ≡ within_limit place kind limit count }
    ensures ok { OnOk result (count ≤ limit) }
{
    if count <= limit {
        Ok(())
    } else {
        Err(CheckFault::TooMany(place, kind, count))
    }
}

fn same_place(a: Place, b: Place) -> bool
    ensures { result ≡ same_place a b }
{
    a.line == b.line && a.column == b.column
}

/// Whether a fault stands at a place.
#[tactic(auto, unfolding(crate::specs::Verdict::stands_at))]
pub(crate) fn stands_at(place: Place, fault: CheckFault) -> bool
    ensures { result ≡ stands_at place fault }
{
    match fault {
        CheckFault::UnknownName(at) => same_place(at, place),
        CheckFault::TwiceNamed(at) => same_place(at, place),
        CheckFault::NotAllowedHere(at) => same_place(at, place),
        CheckFault::WrongCount(at) => same_place(at, place),
        CheckFault::OutOfRange(at, _) => same_place(at, place),
        CheckFault::TooMany(at, _, _) => same_place(at, place),
        CheckFault::NoMemory => false,
    }
}

/// Whether two sorts are one.
#[tactic(auto, unfolding(crate::specs::Uses::same_sort))]
pub(crate) fn same_sort(a: Sort, b: Sort) -> bool
    ensures { result ≡ same_sort a b }
{
    a == b
}

impl<'a> Names<'a> {
    /// A name where one of this sort must stand.
    #[tactic(auto, unfolding(crate::specs::Uses::used))]
    pub(crate) fn used(&self, scope: &Scope, wanted: Sort, at: At) -> Result<(), CheckFault>
        ensures { result ≡ used self.now scope.now wanted at }
    {
        match self.sort(scope, at.name) {
            None => Err(CheckFault::UnknownName(at.place)),
            Some(found) => {
                if same_sort(found, wanted) {
                    Ok(())
                } else {
                    Err(CheckFault::NotAllowedHere(at.place))
                }
            }
        }
    }

    /// A name that is declared here.
    #[tactic(auto, unfolding(crate::specs::Uses::fresh))]
    pub(crate) fn fresh(&self, scope: &Scope, at: At) -> Result<(), CheckFault>
        ensures { result ≡ fresh self.now scope.now at }
    {
        if self.sort(scope, at.name).is_some() {
            Err(CheckFault::TwiceNamed(at.place))
        } else {
            Ok(())
        }
    }
}
