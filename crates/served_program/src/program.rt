// The programs that are served.
ghost use Rattle.std.specs.Prelude.{◌≡◌, ◌≤◌, length};
ghost use Rattle.std.specs.List.{list_all};
ghost use Rattle.thread_tree.specs.Program.{sorted};
ghost use Rattle.served_program.specs.Served.{is_served_decl, starts_in, is_served};

use crate::statements::is_served_block;
use thread_check::Checked;
use thread_tree::{Decl, List};

/// Whether a declaration is served.
fn is_served_decl(decl: &Decl) -> bool
    ensures served { result ≡ is_served_decl decl.now }
{
    match decl {
        Decl::Kind(_, fields) => fields.len() <= 1,
        Decl::Object(_, _) => true,
        Decl::Queue(_, _, _) => false,
        Decl::Semaphore(_, _, _) => false,
        Decl::Function(_, _, body) => is_served_block(body),
        Decl::Thread(_, parameters, _, body) => parameters.len() == 0 && is_served_block(body),
        Decl::Start(_, _, _) => true,
    }
}

/// Whether all declarations are served.
#[tactic(auto, using(thread_check::proofs::Callers::drop_at))]
fn are_served_decls(decls: &List<Decl>) -> bool
    ensures served { result ≡ list_all is_served_decl decls.now }
{
    for i in 0..decls.len() {
        if !is_served_decl(decls.get(i)) {
            return false;
        }
    }
    true
}

/// How many threads a declaration starts.
fn starts_in(decl: &Decl) -> usize
    ensures count { result ≡ starts_in decl.now }
    ensures few { result ≤ 1 }
{
    match decl {
        Decl::Start(..) => 1,
        Decl::Kind(..)
        | Decl::Object(..)
        | Decl::Queue(..)
        | Decl::Semaphore(..)
        | Decl::Function(..)
        | Decl::Thread(..) => 0,
    }
}

/// How many threads are started.
fn start_count(decls: &List<Decl>) -> usize
    ensures count { result ≡ length (sorted decls.now).starts }
{
    let mut count = 0;
    for i in 0..decls.len() {
        count += starts_in(decls.get(i));
    }
    count
}

/// Whether `run` serves an accepted program so far (docs/PROGRAM.md).
#[tactic(auto, unfolding(crate::specs::Served::is_served))]
pub fn is_served(program: &Checked) -> bool
    ensures served { result ≡ is_served program.now }
{
    let decls = &program.tree().decls;
    are_served_decls(decls) && start_count(decls) <= 1
}
