// A call from its word and its operands. A word with these places has an arm, or it doesn't prove.
ghost use Rattle.std.specs.Prelude.{◌≡◌, [], ◌∷◌, Some};
ghost use Rattle.thread_tree.specs.Pieces.{pieces, shape, slot_of, word_of};
ghost use Rattle.thread_text.specs.Operands.{piece_of};

use crate::operand::Operand;
use thread_tree::{Call, Word};

/// The call of this word, which has no operands.
#[tactic(auto, unfolding(thread_tree::specs::Pieces::shape))]
pub fn call_of_none(word: Word) -> Call
    requires shape { shape word ≡ Some [] }
    ensures word { word_of result ≡ word }
    ensures pieces { pieces result ≡ [] }
{
    match word {
        Word::Now => Call::Now,
        Word::Yield => Call::Yield,
        _ => unreachable!(),
    }
}

/// The call of this word with this operand.
#[tactic(auto, unfolding(thread_tree::specs::Pieces::shape))]
pub fn call_of_one(word: Word, operand: Operand) -> Call
    requires shape { shape word ≡ Some (slot_of (piece_of operand) ∷ []) }
    ensures word { word_of result ≡ word }
    ensures pieces { pieces result ≡ piece_of operand ∷ [] }
{
    match word {
        Word::Print => Call::Print(operand.into_items()),
        Word::Spawn => {
            let (template, arguments) = operand.into_application();
            Call::Spawn(template, arguments)
        }
        Word::Delete => Call::Delete(operand.into_whom()),
        Word::Delay => Call::Delay(operand.into_value()),
        Word::Getprio => Call::Getprio(operand.into_whom()),
        Word::Give => Call::Give(operand.into_name()),
        Word::Waiting => Call::Waiting(operand.into_name()),
        _ => unreachable!(),
    }
}

/// The call of this word with these operands.
#[tactic(auto, unfolding(thread_tree::specs::Pieces::shape))]
pub fn call_of_two(word: Word, first: Operand, second: Operand) -> Call
    requires shape { shape word ≡ Some (slot_of (piece_of first) ∷ slot_of (piece_of second) ∷ []) }
    ensures word { word_of result ≡ word }
    ensures pieces { pieces result ≡ piece_of first ∷ piece_of second ∷ [] }
{
    match word {
        Word::Setprio => Call::Setprio(first.into_whom(), second.into_value()),
        Word::Receive => Call::Receive(first.into_name(), second.into_value()),
        Word::Take => Call::Take(first.into_name(), second.into_value()),
        _ => unreachable!(),
    }
}

/// The call of this word with these operands.
#[tactic(auto, unfolding(thread_tree::specs::Pieces::shape))]
pub fn call_of_three(word: Word, first: Operand, second: Operand, third: Operand) -> Call
    requires shape { shape word ≡ Some (slot_of (piece_of first) ∷ slot_of (piece_of second) ∷ slot_of (piece_of third) ∷ []) }
    ensures word { word_of result ≡ word }
    ensures pieces { pieces result ≡ piece_of first ∷ piece_of second ∷ piece_of third ∷ [] }
{
    match word {
        Word::Send => Call::Send(first.into_name(), second.into_value(), third.into_value()),
        _ => unreachable!(),
    }
}
