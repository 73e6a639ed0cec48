// A line of text, while it is made.
ghost use Rattle.std.specs.Prelude.{◌≡◌, ◌+◌, ◌<◌, ◌≤◌, [], ◌∷◌, ◌++◌, length};
ghost use Rattle.std.specs.Fmt.{decimal};
ghost use Rattle.outer_world.specs.Causes.{count_after, HasCause};
ghost use Rattle.outer_world.specs.Written.{Puts};

use arrayvec::ArrayVec;
use itoa::Buffer;
use outer_world::{Sink, SinkFault};
use std::marker::Model;

/// A line of at most 2,048 bytes with its newline, which it gets when it is put. Contracts see its bytes so far.
#[derive(Drop)]
pub struct Line {
    text: ArrayVec<u8, 2048>,
}

impl Model for Line {
    ghost use Rattle.std.specs.Prelude.{List, ℕ};

    ghost Value = { List ℕ };

    ghost view = { λ s. s.text.items };
}

impl Line {
    /// A line that begins with a word.
    pub fn new(word: &str) -> Line
        requires room { length word.now < 2048 }
        ensures text { result ≡ word.now }
    {
        let mut text = ArrayVec::new();
        text.try_extend_from_slice(word.as_bytes()).unwrap();
        Line { text }
    }

    /// The line with a word behind it.
    pub fn word(self, word: &str) -> Line
        requires room { length self + length word.now < 2048 }
        ensures text { result ≡ self ++ word.now }
        ensures len { length result ≡ length self + length word.now }
    {
        self.bytes(word.as_bytes())
    }

    /// The line with bytes behind it.
    pub fn bytes(self, bytes: &[u8]) -> Line
        requires room { length self + length bytes.now < 2048 }
        ensures text { result ≡ self ++ bytes.now }
        ensures len { length result ≡ length self + length bytes.now }
    {
        let Line { mut text } = self;
        text.try_extend_from_slice(bytes).unwrap();
        Line { text }
    }

    /// The line with a number behind it, in at most ten digits.
    pub fn number(self, number: u32) -> Line
        requires room { length self + 10 < 2048 }
        ensures text { result ≡ self ++ decimal number }
        ensures len { length result ≤ length self + 10 }
    {
        let Line { mut text } = self;
        let mut digits = Buffer::new();
        text.try_extend_from_slice(digits.format(number).as_bytes())
            .unwrap();
        Line { text }
    }

    /// Puts the line and its newline into the sink, as one piece.
    ///
    /// # Errors
    ///
    /// `SinkFault` where the sink didn't take all of it.
    pub fn put<S: Sink>(self, sink: &mut S) -> Result<(), SinkFault>
        requires room { length self < 2048 }
        ensures puts { Puts result (S.bytes sink.old) (S.bytes sink.new) (self ++ 10 ∷ []) }
        ensures cause { HasCause (S.faults sink.old) (S.faults sink.new) result }
        ensures one_piece { S.pieces sink.new ≡ count_after 1 (S.pieces sink.old) }
    {
        let Line { mut text } = self;
        text.push(b'\n');
        sink.put(text.as_slice())?;
        Ok(())
    }
}
