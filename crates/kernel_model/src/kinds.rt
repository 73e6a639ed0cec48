ghost use Rattle.std.specs.Prelude.{◌≡◌, ◌≤◌, IsSome, IfSome};
ghost use Rattle.thread_tree.specs.Program.{Program};
ghost use Rattle.thread_tree.specs.Kinds.{action_of, record_words_of};

use thread_tree::{ATOMIC, Stmt, TURN, kind_of_call, result_count};

/// The number of an action's kind, from 1 to 16. The statement is an action: a call, an atomic
/// block, or a persistent loop, whose action is its turn.
pub fn kind_of(stmt: &Stmt) -> u32
    requires action { (p : Program) × IsSome (action_of p stmt.now) }
    ensures kind { (p : Program) → IfSome (action_of p stmt.now) (λ action. result ≡ action.kind) }
{
    match stmt {
        Stmt::Call(_, call, _) => kind_of_call(call),
        Stmt::Ploop(..) => TURN,
        Stmt::Atomic(..) => ATOMIC,
        Stmt::Let(..)
        | Stmt::Set(..)
        | Stmt::Apply(..)
        | Stmt::If(..)
        | Stmt::While(..)
        | Stmt::Break(..)
        | Stmt::Return(..) => unreachable!(),
    }
}

/// How many words a call of this kind leaves in its thread's records: one for the kind and one for
/// each result. `given` is the number of words that an atomic block gives, and counts for it alone.
pub fn record_words(kind: u32, given: u32) -> u32
    requires first { 1 ≤ kind }
    requires last { kind ≤ ATOMIC }
    requires few { given ≤ 3 }
    ensures words { result ≡ record_words_of kind given }
{
    match kind {
        14 | 15 => 0,
        _ => 1 + result_count(kind, given),
    }
}
