// The statements of bodies that are served.
ghost use Rattle.std.specs.Prelude.{◌≡◌};
ghost use Rattle.std.specs.List.{list_all};
ghost use Rattle.thread_tree.specs.declared.block.Stmt.{out-Stmt};
ghost use Rattle.served_program.specs.Served.{is_served_call, is_served_layer, is_served_stmt, is_served_block};

use crate::transactions::is_served_tblock;
use thread_tree::{Block, Call, List, Stmt};

/// Whether a call is served.
fn is_served_call(call: &Call) -> bool
    ensures served { result ≡ is_served_call call.now }
{
    match call {
        Call::Print(_) => true,
        Call::Spawn(..)
        | Call::Delete(..)
        | Call::Delay(..)
        | Call::Setprio(..)
        | Call::Getprio(..)
        | Call::Send(..)
        | Call::Receive(..)
        | Call::Take(..)
        | Call::Give(..)
        | Call::Now
        | Call::Yield
        | Call::Waiting(..) => false,
    }
}

/// Whether a statement of a body is served.
#[cycle(served_body)]
fn is_served_stmt(stmt: &Stmt) -> bool
    ensures served { result ≡ is_served_layer is_served_block (out-Stmt stmt.now) }
{
    match stmt {
        Stmt::Let(_, _) => true,
        Stmt::Set(_, _) => true,
        Stmt::Apply(_, _, _) => true,
        Stmt::If(_, then_block, else_block) => {
            if !is_served_block(then_block) {
                return false;
            }
            match else_block {
                None => true,
                Some(block) => is_served_block(block),
            }
        }
        Stmt::While(_, body) => is_served_block(body),
        Stmt::Ploop(_, _) => false,
        Stmt::Break(_) => true,
        Stmt::Return(_, _) => true,
        Stmt::Atomic(_, _, body) => is_served_tblock(body),
        Stmt::Call(_, call, _) => is_served_call(call),
    }
}

/// Whether a block of a body is served.
#[cycle(served_body)]
#[tactic(auto, using(crate::proofs::ServedLaws::is_served_block_out))]
pub(crate) fn is_served_block(block: &Block) -> bool
    ensures served { result ≡ is_served_block block.now }
{
    are_served_stmts(&block.stmts)
}

/// Whether statements of a body are served.
#[cycle(served_body)]
#[tactic(auto, using(thread_check::proofs::Callers::drop_at, crate::proofs::ServedLaws::is_served_stmt_out))]
fn are_served_stmts(stmts: &List<Stmt>) -> bool
    ensures served { result ≡ list_all is_served_stmt stmts.now }
{
    for i in 0..stmts.len() {
        if !is_served_stmt(stmts.get(i)) {
            return false;
        }
    }
    true
}
