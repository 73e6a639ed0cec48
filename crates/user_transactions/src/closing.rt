// The end of a block, and the test of a loop before its block begins anew.
ghost use Rattle.std.specs.Prelude.{◌≡◌, ◌+◌, ◌≤◌, ◌∷◌, length};
ghost use Rattle.kernel_image.specs.Decoded.{image_in};
ghost use Rattle.kernel_model.specs.Transactions.Thing.{Test};
ghost use Rattle.thread_tree.specs.Program.{program_of};
ghost use Rattle.user_transactions.specs.declared.level.Level.TheVariants as level;
ghost use Rattle.user_transactions.specs.Fates.{behind_level};
ghost use Rattle.user_transactions.specs.Runs.{Tested, Closed, Closes, Spends};

use crate::fate::Fate;
use crate::leaving::end_block;
use crate::level::Level;
use crate::moves::value;
use crate::tx_end::TxEnd;
use crate::work::Work;
use kernel_model::TOO_MANY_MOVES;
use nv_memory::Nv;
use thread_check::Checked;
use thread_tree::{Expr, LOCALS, OPERATIONS, TBlock};
use undo_journal::Open;

// Whether a loop's block is next.
fn test<N: Nv>(
    tx: &Open<N>,
    program: &Checked,
    work: &mut Work,
    e: &Expr,
    block: &TBlock,
) -> Result<bool, u32>
    ensures tested { Tested (program_of program.now) (image_in (N.words tx.now)) work.old work.new e.now block.now result }
    ensures kept { work.new ≡ record work.old { operations = work.new.operations } }
    ensures few { work.old.operations ≤ OPERATIONS → work.new.operations ≤ OPERATIONS }
    ensures more { work.old.operations ≤ work.new.operations }
{
    let _ = block;
    match value(tx, program, work, e) {
        Err(fault) => Err(fault),
        Ok(chosen) => {
            if chosen != 0 {
                return Ok(true);
            }
            Ok(false)
        }
    }
}

// Makes the move that a loop's test is, if one is left.
fn again<N: Nv>(
    tx: &Open<N>,
    program: &Checked,
    work: &mut Work,
    e: &Expr,
    block: &TBlock,
) -> Option<Fate>
    ensures closed { Closed (program_of program.now) (image_in (N.words tx.now)) work.old (λ rest. Test e.now block.now ∷ rest) (level.Turn e.entry) block.now work.new result }
    ensures same { length work.new.locals.items ≡ length work.old.locals.items }
    ensures moves { work.new.moves ≤ work.old.moves }
    ensures few { work.old.operations ≤ OPERATIONS → work.new.operations ≤ OPERATIONS }
    ensures more { work.old.operations ≤ work.new.operations }
{
    if work.moves == 0 {
        return Some(Fate::Ended(TxEnd::Fault(TOO_MANY_MOVES)));
    }
    work.moves -= 1;
    match test(tx, program, work, e, block) {
        Err(fault) => Some(Fate::Ended(TxEnd::Fault(fault))),
        Ok(is_next) => {
            if is_next {
                return None;
            }
            Some(Fate::Went)
        }
    }
}

/// Passes the end of a block; none where the block of a loop begins anew.
#[tactic(auto, using(crate::proofs::LeaveLaws::spent_laws))]
pub(crate) fn close<N: Nv>(
    tx: &Open<N>,
    program: &Checked,
    work: &mut Work,
    block: &TBlock,
    level: Level<'_>,
    keep: usize,
) -> Option<Fate>
    requires locals { length work.old.locals.items ≤ LOCALS }
    ensures closed { Closed (program_of program.now) (image_in (N.words tx.now)) work.old (behind_level level.entry block.now keep) level.entry block.now work.new result }
    ensures closes { Closes level.entry keep (length work.new.locals.items) result }
    ensures spends { Spends work.old.moves work.new.moves result }
    ensures few { work.old.operations ≤ OPERATIONS → work.new.operations ≤ OPERATIONS }
    ensures more { work.old.operations ≤ work.new.operations }
{
    match level {
        Level::Body => Some(Fate::Went),
        Level::Inner => match end_block(work, keep) {
            Some(end) => Some(Fate::Ended(end)),
            None => Some(Fate::Went),
        },
        Level::Turn(e) => match end_block(work, keep) {
            Some(end) => Some(Fate::Ended(end)),
            None => again(tx, program, work, e, block),
        },
    }
}
