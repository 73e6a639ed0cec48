// The statements that end a block.
ghost use Rattle.std.specs.Prelude.{◌≡◌, ◌≤◌, ◌∷◌, [], ◌++◌, length, take, true, false, MatchOption};
ghost use Rattle.kernel_image.specs.Decoded.{image_in};
ghost use Rattle.kernel_model.specs.Transactions.{gives, read_all};
ghost use Rattle.persistent_objects.specs.Objects.{objects_of};
ghost use Rattle.thread_tree.specs.declared.transaction.TStmt.{out-TStmt};
ghost use Rattle.thread_tree.specs.Program.{program_of};
ghost use Rattle.user_transactions.specs.Steps.{IsEnding};
ghost use Rattle.user_transactions.specs.Works.{IsEnd};

use crate::expressions::read;
use crate::tx_end::TxEnd;
use crate::work::Work;
use arrayvec::ArrayVec;
use nv_memory::Nv;
use thread_check::Checked;
use thread_tree::{Expr, List, TStmt};
use undo_journal::Open;

/// One value more, of which the first three are kept.
#[tactic(auto, using(crate::proofs::GiveLaws::keep_laws))]
pub(crate) fn keep(values: &mut ArrayVec<u32, 3>, value: u32)
    ensures kept { values.new.items ≡ take 3 (values.old.items ++ value ∷ []) }
{
    if values.len() < 3 {
        values.push(value);
    }
}

// The values of expressions, of which the first three are given.
fn give<N: Nv>(tx: &Open<N>, program: &Checked, work: &Work, es: &List<Expr>) -> TxEnd
    ensures gave { IsEnd (program_of program.now) result (image_in (N.words tx.now)) (gives (objects_of (program_of program.now) (image_in (N.words tx.now))) (read_all (program_of program.now) (objects_of (program_of program.now) (image_in (N.words tx.now))) work.now.locals.items es.now work.now.operations)) }
{
    let mut values = ArrayVec::new();
    let mut operations = work.operations;
    for at in 0..es.len() {
        match read(tx, program, work.locals.as_slice(), es.get(at), operations) {
            Ok(found) => {
                operations = found.operations;
                keep(&mut values, found.value);
            }
            Err(fault) => return TxEnd::Fault(fault),
        }
    }
    TxEnd::Gave(values)
}

/// How a statement ends the block, if it does.
pub(crate) fn ending<N: Nv>(
    tx: &Open<N>,
    program: &Checked,
    work: &Work,
    statement: &TStmt,
) -> Option<TxEnd>
    ensures ended { IsEnding (program_of program.now) (image_in (N.words tx.now)) work.now (out-TStmt statement.now) result }
{
    match statement {
        TStmt::Abort(_) => Some(TxEnd::Aborted),
        TStmt::Give(_, es) => Some(give(tx, program, work, es)),
        TStmt::Let(..) | TStmt::Set(..) | TStmt::Store(..) => None,
        TStmt::LetNew(..) | TStmt::SetNew(..) | TStmt::Free(_) => None,
        TStmt::If(..) | TStmt::While(..) | TStmt::Break(_) => None,
    }
}
