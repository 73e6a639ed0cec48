// A call as its word and its pieces.
ghost use Rattle.std.specs.Prelude.{◌≡◌, option_map};
ghost use Rattle.thread_tree.specs.Few.{listed};
ghost use Rattle.thread_tree.specs.Pieces.{pieces, pieces_seen, shape, word_of};

use crate::{Call, Few, Needed, Piece, Slot, Word};

/// The word that a call begins with.
pub fn word_of(call: &Call) -> Word
    ensures word { result ≡ word_of call.now }
{
    match call {
        Call::Print(_) => Word::Print,
        Call::Spawn(_, _) => Word::Spawn,
        Call::Delete(_) => Word::Delete,
        Call::Delay(_) => Word::Delay,
        Call::Setprio(_, _) => Word::Setprio,
        Call::Getprio(_) => Word::Getprio,
        Call::Send(_, _, _) => Word::Send,
        Call::Receive(_, _) => Word::Receive,
        Call::Take(_, _) => Word::Take,
        Call::Give(_) => Word::Give,
        Call::Now => Word::Now,
        Call::Yield => Word::Yield,
        Call::Waiting(_) => Word::Waiting,
    }
}

/// The pieces behind a call's word, in order of the text.
pub fn pieces(call: &Call) -> Few<Piece<'_>>
    ensures pieces { pieces_seen result ≡ pieces call.now }
{
    match call {
        Call::Print(items) => Few::One(Piece::Items(items)),
        Call::Spawn(thread, arguments) => Few::One(Piece::Application(*thread, arguments)),
        Call::Delete(whom) => Few::One(Piece::Whom(whom)),
        Call::Delay(ticks) => Few::One(Piece::Value(ticks)),
        Call::Setprio(whom, priority) => Few::Two(Piece::Whom(whom), Piece::Value(priority)),
        Call::Getprio(whom) => Few::One(Piece::Whom(whom)),
        Call::Send(queue, value, limit) => Few::Three(
            Piece::Name(Needed::Queue, *queue),
            Piece::Value(value),
            Piece::Value(limit),
        ),
        Call::Receive(queue, limit) => {
            Few::Two(Piece::Name(Needed::Queue, *queue), Piece::Value(limit))
        }
        Call::Take(semaphore, limit) => Few::Two(
            Piece::Name(Needed::Semaphore, *semaphore),
            Piece::Value(limit),
        ),
        Call::Give(semaphore) => Few::One(Piece::Name(Needed::Semaphore, *semaphore)),
        Call::Now => Few::Zero,
        Call::Yield => Few::Zero,
        Call::Waiting(queue) => Few::One(Piece::Name(Needed::Queue, *queue)),
    }
}

/// The places behind a word that begins a call, or `None` where it begins none.
#[tactic(auto, unfolding(crate::specs::Pieces::shape))]
pub fn shape(word: Word) -> Option<Few<Slot>>
    ensures shape { option_map listed result ≡ shape word }
{
    match word {
        Word::Print => Some(Few::One(Slot::Items)),
        Word::Spawn => Some(Few::One(Slot::Application)),
        Word::Delete => Some(Few::One(Slot::Whom)),
        Word::Delay => Some(Few::One(Slot::Value)),
        Word::Setprio => Some(Few::Two(Slot::Whom, Slot::Value)),
        Word::Getprio => Some(Few::One(Slot::Whom)),
        Word::Send => Some(Few::Three(Slot::Name(Needed::Queue), Slot::Value, Slot::Value)),
        Word::Receive => Some(Few::Two(Slot::Name(Needed::Queue), Slot::Value)),
        Word::Take => Some(Few::Two(Slot::Name(Needed::Semaphore), Slot::Value)),
        Word::Give => Some(Few::One(Slot::Name(Needed::Semaphore))),
        Word::Now => Some(Few::Zero),
        Word::Yield => Some(Few::Zero),
        Word::Waiting => Some(Few::One(Slot::Name(Needed::Queue))),
        _ => None,
    }
}
