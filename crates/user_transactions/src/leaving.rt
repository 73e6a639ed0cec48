// How a block is left: at its end, and by a `break`.
ghost use Rattle.std.specs.Prelude.{◌≡◌, ◌+◌, ◌≤◌, length, IfNone};
ghost use Rattle.kernel_image.specs.Decoded.{Decoded};
ghost use Rattle.thread_tree.specs.declared.transaction.TBlock.{TBlock as Block};
ghost use Rattle.thread_tree.specs.Program.{Program};
ghost use Rattle.user_transactions.specs.Fates.{EndsBlock, Leaves};
ghost use Rattle.user_transactions.specs.Runs.{Shrinks};

use crate::fate::Fate;
use crate::level::Level;
use crate::tx_end::TxEnd;
use crate::work::Work;
use kernel_model::TOO_MANY_MOVES;
use thread_tree::LOCALS;

/// Leaves a block by a `break`.
#[tactic(auto, using(crate::proofs::LeaveLaws::taken_laws))]
pub(crate) fn leave(work: &mut Work, level: Level<'_>, keep: usize) -> Fate
    ensures left { (p : Program) (d : Decoded) (block : Block) → Leaves p d work.old level.entry block keep work.new result }
    ensures shrunk { length work.old.locals.items ≤ LOCALS → Shrinks level.entry keep (length work.new.locals.items) result }
    ensures few { length work.new.locals.items ≤ length work.old.locals.items }
    ensures moves { work.new.moves ≡ work.old.moves }
    ensures operations { work.new.operations ≡ work.old.operations }
{
    match level {
        Level::Body => Fate::Broke,
        Level::Inner => {
            work.locals.truncate(keep);
            Fate::Broke
        }
        Level::Turn(_) => {
            work.locals.truncate(keep);
            Fate::Went
        }
    }
}

/// Makes the move that the end of a block is, if one is left.
#[tactic(auto, using(crate::proofs::LeaveLaws::taken_laws))]
pub(crate) fn end_block(work: &mut Work, keep: usize) -> Option<TxEnd>
    ensures ended { (p : Program) (d : Decoded) → EndsBlock p d work.old keep work.new result }
    ensures shrunk { IfNone result (length work.new.locals.items ≤ keep) }
    ensures spent { IfNone result (work.new.moves + 1 ≤ work.old.moves) }
    ensures few { length work.new.locals.items ≤ length work.old.locals.items }
    ensures moves { work.new.moves ≤ work.old.moves }
    ensures operations { work.new.operations ≡ work.old.operations }
{
    if work.moves == 0 {
        return Some(TxEnd::Fault(TOO_MANY_MOVES));
    }
    work.moves -= 1;
    work.locals.truncate(keep);
    None
}
