// The actions that are served: prints and blocks.
ghost use Rattle.std.specs.Prelude.{◌≡◌};
ghost use Rattle.std.specs.Option.{option_copied};
ghost use Rattle.thread_tree.specs.declared.block.Stmt.{out-Stmt};
ghost use Rattle.kernel_events.specs.Actions.{printed_by, printed_items, block_names};

use thread_tree::{At, Call, Item, List, Stmt};

/// The items of a call, where it is a print.
fn printed_by<'a>(call: &'a Call) -> Option<&'a List<Item>>
    ensures found { option_copied result ≡ printed_by call.now }
{
    match call {
        Call::Print(items) => Some(items),
        Call::Spawn(..) | Call::Delete(..) | Call::Delay(..) | Call::Setprio(..) => None,
        Call::Getprio(..) | Call::Send(..) | Call::Receive(..) | Call::Take(..) => None,
        Call::Give(..) | Call::Now | Call::Yield | Call::Waiting(..) => None,
    }
}

/// The items of a print, where the statement is one.
pub fn printed_items<'a>(statement: &'a Stmt) -> Option<&'a List<Item>>
    ensures found { option_copied result ≡ printed_items (out-Stmt statement.now) }
{
    match statement {
        Stmt::Call(_, call, _) => printed_by(call),
        Stmt::Let(..) | Stmt::Set(..) | Stmt::Apply(..) | Stmt::If(..) | Stmt::While(..) => None,
        Stmt::Ploop(..) | Stmt::Break(..) | Stmt::Return(..) | Stmt::Atomic(..) => None,
    }
}

/// The names that take what a block gives, where the statement is an `atomic`.
pub fn block_names<'a>(statement: &'a Stmt) -> Option<&'a List<At>>
    ensures found { option_copied result ≡ block_names (out-Stmt statement.now) }
{
    match statement {
        Stmt::Atomic(_, to, _) => Some(to),
        Stmt::Let(..) | Stmt::Set(..) | Stmt::Apply(..) | Stmt::If(..) | Stmt::While(..) => None,
        Stmt::Ploop(..) | Stmt::Break(..) | Stmt::Return(..) | Stmt::Call(..) => None,
    }
}
