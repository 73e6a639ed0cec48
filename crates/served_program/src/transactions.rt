// The statements of `atomic` blocks that are served.
ghost use Rattle.std.specs.Prelude.{◌≡◌};
ghost use Rattle.std.specs.List.{list_all};
ghost use Rattle.thread_tree.specs.declared.transaction.TStmt.{out-TStmt};
ghost use Rattle.served_program.specs.Served.{is_served_tlayer, is_served_tstmt, is_served_tblock};

use crate::expressions::{are_served, is_served_expr, is_served_field};
use thread_tree::{List, TBlock, TStmt};

/// Whether a statement of an `atomic` block is served.
#[cycle(served_transaction)]
fn is_served_tstmt(stmt: &TStmt) -> bool
    ensures served { result ≡ is_served_tlayer is_served_tblock (out-TStmt stmt.now) }
{
    match stmt {
        TStmt::Let(_, expr) => is_served_expr(expr),
        TStmt::LetNew(_, _) => false,
        TStmt::Set(_, expr) => is_served_expr(expr),
        TStmt::SetNew(_, _) => false,
        TStmt::Store(field, expr) => is_served_field(*field) && is_served_expr(expr),
        TStmt::Free(_) => false,
        TStmt::If(expr, then_block, else_block) => {
            if !is_served_expr(expr) {
                return false;
            }
            if !is_served_tblock(then_block) {
                return false;
            }
            match else_block {
                None => true,
                Some(block) => is_served_tblock(block),
            }
        }
        TStmt::While(expr, body) => is_served_expr(expr) && is_served_tblock(body),
        TStmt::Break(_) => true,
        TStmt::Abort(_) => true,
        TStmt::Give(_, exprs) => are_served(exprs),
    }
}

/// Whether a block of an `atomic` block is served.
#[cycle(served_transaction)]
#[tactic(auto, using(crate::proofs::ServedLaws::is_served_tblock_out))]
pub(crate) fn is_served_tblock(block: &TBlock) -> bool
    ensures served { result ≡ is_served_tblock block.now }
{
    are_served_tstmts(&block.stmts)
}

/// Whether statements of an `atomic` block are served.
#[cycle(served_transaction)]
#[tactic(auto, using(thread_check::proofs::Callers::drop_at, crate::proofs::ServedLaws::is_served_tstmt_out))]
fn are_served_tstmts(stmts: &List<TStmt>) -> bool
    ensures served { result ≡ list_all is_served_tstmt stmts.now }
{
    for i in 0..stmts.len() {
        if !is_served_tstmt(stmts.get(i)) {
            return false;
        }
    }
    true
}
