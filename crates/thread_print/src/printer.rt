// Writes one token behind a text.
ghost use Rattle.std.specs.Prelude.{◌≡◌, List as Sequence, [], ◌∷◌};
ghost use Rattle.thread_tree.specs.declared.token.Token.TheVariants as token;
ghost use Rattle.thread_print.specs.Canonical.{mark_if, name_of};
ghost use Rattle.thread_print.specs.Wrote.{Wrote};

use crate::out::Out;
use itoa::Buffer;
use std::marker::Model;
use thread_tokens::{mark_text, operator_text, word_text};
use thread_tree::{At, List, Mark, Name, Op, Text, Word};

/// Writes tokens behind a text, each after a space. It has the names that they stand for.
#[derive(Drop)]
pub(crate) struct Printer<'a> {
    names: &'a List<Name>,
}

impl<'a> Model for Printer<'a> {
    ghost use Rattle.std.specs.Prelude.{List as Sequence};
    ghost use Rattle.thread_tree.specs.declared.name.Name.{Name};

    ghost Value = { Sequence Name };

    ghost view = { λ printer. printer.names.now };
}

impl<'a> Printer<'a> {
    /// A printer of tokens with these names.
    pub(crate) fn new(names: &'a List<Name>) -> Self
        ensures { result ≡ names.now }
    {
        Printer { names }
    }

    /// A word of the language.
    #[tactic(auto, unfolding(thread_tokens::specs::Spelled::token_text), using(crate::proofs::Writer::wrote_one))]
    pub(crate) fn word(&self, out: &mut Out, word: Word)
        ensures { Wrote self.now out.old out.new (token.Word word ∷ []) }
    {
        out.put_spaced(word_text(word));
    }

    /// A mark.
    #[tactic(auto, unfolding(thread_tokens::specs::Spelled::token_text), using(crate::proofs::Writer::wrote_one))]
    pub(crate) fn mark(&self, out: &mut Out, mark: Mark)
        ensures { Wrote self.now out.old out.new (token.Mark mark ∷ []) }
    {
        out.put_spaced(mark_text(mark));
    }

    /// A mark where this holds, and else nothing.
    #[tactic(auto, unfolding(crate::specs::Canonical::mark_if), using(crate::proofs::Writer::wrote_none))]
    pub(crate) fn mark_if(&self, out: &mut Out, holds: bool, mark: Mark)
        ensures { Wrote self.now out.old out.new (mark_if holds mark) }
    {
        if holds {
            self.mark(out, mark);
        }
    }

    /// An operator.
    #[tactic(auto, unfolding(thread_tokens::specs::Spelled::token_text), using(crate::proofs::Writer::wrote_one))]
    pub(crate) fn operator(&self, out: &mut Out, operator: Op)
        ensures { Wrote self.now out.old out.new (token.Operator operator ∷ []) }
    {
        out.put_spaced(operator_text(operator));
    }

    /// A number, in decimal digits.
    #[tactic(auto, unfolding(thread_tokens::specs::Spelled::token_text), using(crate::proofs::Writer::wrote_one))]
    pub(crate) fn number(&self, out: &mut Out, value: u32)
        ensures { Wrote self.now out.old out.new (token.Number value ∷ []) }
    {
        out.put_spaced(Buffer::new().format(value).as_bytes());
    }

    /// A string in its quotes.
    #[tactic(auto, unfolding(thread_tokens::specs::Spelled::token_text), using(crate::proofs::Writer::wrote_text))]
    pub(crate) fn text(&self, out: &mut Out, text: &Text)
        ensures { Wrote self.now out.old out.new (token.Text text.now ∷ []) }
    {
        out.put(b" \"");
        out.put(text.bytes.as_slice());
        out.put(b"\"");
    }

    /// The name at a place, and nothing behind the space where the tree has no such name.
    #[tactic(auto, unfolding(thread_tokens::specs::Spelled::token_text), using(crate::proofs::Writer::wrote_one))]
    pub(crate) fn name(&self, out: &mut Out, at: At)
        ensures { Wrote self.now out.old out.new (name_of at) }
    {
        let index = at.name as usize;
        if index < self.names.len() {
            out.put_spaced(self.names.get(index).bytes.as_slice());
        } else {
            out.put_spaced(b"");
        }
    }
}
