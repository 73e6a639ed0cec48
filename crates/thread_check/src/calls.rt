ghost use Rattle.std.specs.Prelude.{◌≡◌, ◌+◌, ◌≤◌, ◌<◌, ◌==◌, ◌∷◌, [], length, take, drop, OnOk};
ghost use Rattle.thread_check.specs.Calls.{once, further_taker, further_takers, takers, who_rule, counted_item, item_rule, items_rule, piece_rule, call_rule};
ghost use Rattle.thread_tree.specs.Pieces.{piece_seen};

use crate::fault::{CheckFault, Kind};
use crate::names::{Names, is_among_first};
use crate::scope::Scope;
use crate::sort::Sort;
use crate::uses::{same_count, stands_at, within_limit};
use thread_tree::{At, Call, Few, Item, List, Needed, Piece, Place, Who, pieces};

/// A name that must not stand among so many before it.
#[tactic(auto, unfolding(crate::specs::Calls::once))]
pub(crate) fn once(ats: &List<At>, before: usize, at: At) -> Result<(), CheckFault>
    requires { before ≤ length ats.now }
    ensures { result ≡ once (take before ats.now) at }
{
    if is_among_first(at.name, ats, before) {
        Err(CheckFault::TwiceNamed(at.place))
    } else {
        Ok(())
    }
}

/// An item that must not be one too many; a fault at its first byte comes before.
#[tactic(auto, unfolding(crate::specs::Calls::counted_item))]
fn counted_item(place: Place, count: u32, found: Result<(), CheckFault>) -> Result<(), CheckFault>
    ensures verdict { result ≡ counted_item place count found }
    ensures ok { OnOk result (count ≤ 8) }
{
    match found {
        Ok(()) => within_limit(place, Kind::Items, 8, count),
        Err(fault) => {
            if stands_at(place, fault) {
                return Err(fault);
            }
            within_limit(place, Kind::Items, 8, count)?;
            Err(fault)
        }
    }
}

impl<'a> Names<'a> {
    /// The names after `->`, where `fits` tells whether they are as many as the results.
    pub(crate) fn takers(&self, scope: &Scope, fits: bool, to: &List<At>) -> Result<(), CheckFault>
        ensures { result ≡ takers self.now scope.now fits to.now }
    {
        if to.len() == 0 {
            return Ok(());
        }
        let first = *to.get(0);
        self.used(scope, Sort::Local, first)?;
        if !fits {
            return Err(CheckFault::WrongCount(first.place));
        }
        self.further_takers(scope, to)
    }

    /// The names after `->` behind the first.
    #[tactic(auto, using(crate::proofs::Steps::drop_at, crate::proofs::Steps::take_at))]
    fn further_takers(&self, scope: &Scope, to: &List<At>) -> Result<(), CheckFault>
        requires { 0 < length to.now }
        ensures { result ≡ further_takers self.now scope.now (take 1 to.now) (drop 1 to.now) }
    {
        for i in 1..to.len() {
            match self.further_taker(scope, to, i, *to.get(i)) {
                Ok(()) => {}
                Err(fault) => return Err(fault),
            }
        }
        Ok(())
    }

    /// A name after `->` behind so many.
    #[tactic(auto, unfolding(crate::specs::Calls::further_taker))]
    fn further_taker(
        &self,
        scope: &Scope,
        to: &List<At>,
        before: usize,
        at: At,
    ) -> Result<(), CheckFault>
        requires { before ≤ length to.now }
        ensures { result ≡ further_taker self.now scope.now (take before to.now) at }
    {
        self.used(scope, Sort::Local, at)?;
        once(to, before, at)
    }

    /// The thread that a call speaks of.
    #[tactic(auto, unfolding(crate::specs::Calls::who_rule))]
    fn who(&self, scope: &Scope, who: &Who) -> Result<(), CheckFault>
        ensures { result ≡ who_rule self.now scope.now who.now }
    {
        match who {
            Who::Own => Ok(()),
            Who::Of(expr) => self.expression(scope, expr),
        }
    }

    /// An item of a print, which is the one of this count.
    #[tactic(auto, unfolding(crate::specs::Calls::item_rule))]
    fn item(&self, scope: &Scope, count: u32, item: &Item) -> Result<(), CheckFault>
        ensures verdict { result ≡ item_rule self.now scope.now count item.now }
        ensures ok { OnOk result (count ≤ 8) }
    {
        match item {
            Item::Text(place, _) => within_limit(*place, Kind::Items, 8, count),
            Item::Value(place, expr) => counted_item(*place, count, self.expression(scope, expr)),
        }
    }

    /// The items of a print.
    #[tactic(auto, using(crate::proofs::Steps::drop_at))]
    fn items(&self, scope: &Scope, items: &List<Item>) -> Result<(), CheckFault>
        ensures { result ≡ items_rule self.now scope.now 0 items.now }
    {
        let mut count = 0;
        for i in 0..items.len() {
            count += 1;
            match self.item(scope, count, items.get(i)) {
                Ok(()) => {}
                Err(fault) => return Err(fault),
            }
        }
        Ok(())
    }

    /// A piece of a call.
    fn piece(&self, scope: &Scope, piece: Piece<'_>) -> Result<(), CheckFault>
        ensures { result ≡ piece_rule self.now scope.now (piece_seen piece.entry) }
    {
        match piece {
            Piece::Name(Needed::Queue, name) => self.used(scope, Sort::Queue, name),
            Piece::Name(Needed::Semaphore, name) => self.used(scope, Sort::Semaphore, name),
            Piece::Value(e) => self.expression(scope, e),
            Piece::Whom(whom) => self.who(scope, whom),
            Piece::Items(items) => self.items(scope, items),
            Piece::Application(template, arguments) => {
                self.used(scope, Sort::Thread, template)?;
                same_count(template.place, self.arity(template.name), arguments.len())?;
                self.expressions(scope, arguments)
            }
        }
    }

    /// A call without the names that take its results.
    #[tactic(auto, unfolding(crate::specs::Calls::call_rule))]
    pub(crate) fn call(&self, scope: &Scope, call: &Call) -> Result<(), CheckFault>
        ensures { result ≡ call_rule self.now scope.now call.now }
    {
        match pieces(call) {
            Few::Zero => Ok(()),
            Few::One(a) => self.piece(scope, a),
            Few::Two(a, b) => {
                self.piece(scope, a)?;
                self.piece(scope, b)
            }
            Few::Three(a, b, c) => {
                self.piece(scope, a)?;
                self.piece(scope, b)?;
                self.piece(scope, c)
            }
            Few::Four(a, b, c, d) => {
                self.piece(scope, a)?;
                self.piece(scope, b)?;
                self.piece(scope, c)?;
                self.piece(scope, d)
            }
            Few::Five(a, b, c, d, e) => {
                self.piece(scope, a)?;
                self.piece(scope, b)?;
                self.piece(scope, c)?;
                self.piece(scope, d)?;
                self.piece(scope, e)
            }
        }
    }
}
