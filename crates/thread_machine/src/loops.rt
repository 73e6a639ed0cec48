ghost use Rattle.std.specs.Prelude.{◌≡◌, ◌^◌, ◌<◌};
ghost use Rattle.thread_tree.specs.declared.block.Block.{out-Block};
ghost use Rattle.thread_tree.specs.declared.block.Stmt.{out-Stmt};
ghost use Rattle.thread_machine.specs.Loops.{loops_from, loops_in, loops_of};

use thread_tree::{Block, List, Stmt};

/// The number of persistent loops in a statement, itself among them if it is one.
#[cycle(loops)]
pub fn loops_of(statement: &Stmt) -> usize
    ensures count { loops_of (out-Stmt statement.now) < 2 ^ 32 → result ≡ loops_of (out-Stmt statement.now) }
{
    match statement {
        Stmt::If(_, block, None) => loops_in(block),
        Stmt::If(_, block, Some(other)) => loops_in(block).wrapping_add(loops_in(other)),
        Stmt::While(_, block) => loops_in(block),
        Stmt::Ploop(_, block) => loops_in(block).wrapping_add(1),
        Stmt::Let(..) | Stmt::Set(..) | Stmt::Apply(..) | Stmt::Break(..) | Stmt::Return(..) => 0,
        Stmt::Atomic(..) | Stmt::Call(..) => 0,
    }
}

/// The number of persistent loops in a block.
#[cycle(loops)]
#[tactic(auto, using(crate::proofs::SeekLemmas::loop_laws))]
pub fn loops_in(block: &Block) -> usize
    ensures count { loops_in block.now < 2 ^ 32 → result ≡ loops_in block.now }
{
    loops_from(&block.stmts)
}

/// The number of persistent loops in statements.
#[cycle(loops)]
#[tactic(auto, using(crate::proofs::SeekLemmas::turn_laws))]
fn loops_from(stmts: &List<Stmt>) -> usize
    ensures count { loops_from stmts.now < 2 ^ 32 → result ≡ loops_from stmts.now }
{
    let mut count: usize = 0;
    for at in 0..stmts.len() {
        count = count.wrapping_add(loops_of(stmts.get(at)));
    }
    count
}
