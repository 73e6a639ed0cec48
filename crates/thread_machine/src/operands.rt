ghost use Rattle.std.specs.Prelude.{◌≡◌, [], ◌∷◌, ◌++◌, flat_map, slice_get};
ghost use Rattle.std.specs.Option.{option_copied};
ghost use Rattle.thread_tree.specs.Kinds.{operands_of_call, operands_of_item, operands_of_who};

use thread_tree::{Call, Expr, Item, List, Who};

/// The expression of this number in a call, in order of the text, if there is one.
pub fn operand_of<'a>(call: &'a Call, which: usize) -> Option<&'a Expr>
    ensures found { option_copied result ≡ slice_get (operands_of_call call.now) which }
{
    match call {
        Call::Print(items) => of_items(items, which),
        Call::Spawn(_, arguments) => if which < arguments.len() {
            Some(arguments.get(which))
        } else {
            None
        },
        Call::Delete(whom) | Call::Getprio(whom) => of_who(whom, which),
        Call::Delay(e) | Call::Receive(_, e) | Call::Take(_, e) => if which == 0 {
            Some(e)
        } else {
            None
        },
        Call::Setprio(whom, priority) => of_two_behind(whom, priority, which),
        Call::Send(_, value, limit) => match which {
            0 => Some(value),
            1 => Some(limit),
            _ => None,
        },
        Call::Give(_) | Call::Now | Call::Yield | Call::Waiting(_) => None,
    }
}

/// The expression of this number that says who is spoken of, if there is one.
fn of_who<'a>(whom: &'a Who, which: usize) -> Option<&'a Expr>
    ensures found { option_copied result ≡ slice_get (operands_of_who whom.now) which }
{
    match whom {
        Who::Own => None,
        Who::Of(e) => if which == 0 { Some(e) } else { None },
    }
}

/// The expression of this number among one that says who is spoken of and one more.
fn of_two_behind<'a>(whom: &'a Who, more: &'a Expr, which: usize) -> Option<&'a Expr>
    ensures found { option_copied result ≡ slice_get (operands_of_who whom.now ++ more.now ∷ []) which }
{
    match whom {
        Who::Own => if which == 0 { Some(more) } else { None },
        Who::Of(e) => match which {
            0 => Some(e),
            1 => Some(more),
            _ => None,
        },
    }
}

/// The expression of this number among the items of a print, if there is one.
#[tactic(auto, using(crate::proofs::OperandLemmas::item_laws))]
fn of_items<'a>(items: &'a List<Item>, which: usize) -> Option<&'a Expr>
    ensures found { option_copied result ≡ slice_get (flat_map operands_of_item items.now) which }
{
    let mut left = which;
    for at in 0..items.len() {
        match items.get(at) {
            Item::Text(..) => {}
            Item::Value(_, e) => {
                if left == 0 {
                    return Some(e);
                }
                left -= 1;
            }
        }
    }
    None
}
