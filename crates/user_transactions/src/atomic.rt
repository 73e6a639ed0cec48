// A statement `atomic`.
ghost use Rattle.std.specs.Prelude.{◌≡◌, option_copied};
ghost use Rattle.thread_tree.specs.declared.block.Stmt.{out-Stmt};
ghost use Rattle.user_transactions.specs.Performed.{body_in, given_in};

use thread_tree::{Stmt, TBlock};

/// The block of a statement that is `atomic`.
pub(crate) fn body_of(statement: &Stmt) -> Option<&TBlock>
    ensures body { option_copied result ≡ body_in (out-Stmt statement.now) }
{
    match statement {
        Stmt::Atomic(_, _, body) => Some(body),
        Stmt::Let(..) | Stmt::Set(..) | Stmt::Apply(..) => None,
        Stmt::If(..) | Stmt::While(..) | Stmt::Ploop(..) => None,
        Stmt::Break(_) | Stmt::Return(..) | Stmt::Call(..) => None,
    }
}

/// How many values the block of a statement that is `atomic` has to give.
pub(crate) fn given_by(statement: &Stmt) -> usize
    ensures given { result ≡ given_in (out-Stmt statement.now) }
{
    match statement {
        Stmt::Atomic(_, to, _) => to.len().saturating_sub(1),
        Stmt::Let(..) | Stmt::Set(..) | Stmt::Apply(..) => 0,
        Stmt::If(..) | Stmt::While(..) | Stmt::Ploop(..) => 0,
        Stmt::Break(_) | Stmt::Return(..) | Stmt::Call(..) => 0,
    }
}
