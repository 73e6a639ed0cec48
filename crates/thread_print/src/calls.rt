// Writes a kernel call: its word, and its pieces with commas between.
ghost use Rattle.std.specs.Prelude.{◌≡◌, ◌∷◌, [], Option, List as Sequence};
ghost use Rattle.thread_tree.specs.declared.token.Mark.TheVariants.{Comma};
ghost use Rattle.thread_tree.specs.declared.token.Token.TheVariants as token;
ghost use Rattle.thread_tree.specs.Pieces.{piece_seen, pieces_seen};
ghost use Rattle.thread_print.specs.Canonical.{call_tokens, item_tokens, piece_tokens, separated, who_tokens};
ghost use Rattle.thread_print.specs.Wrote.{Wrote};

use crate::out::Out;
use crate::printer::Printer;
use thread_tree::{Call, Few, Item, List, Mark, Piece, Who, Word, pieces, word_of};

impl<'a> Printer<'a> {
    /// An item of a `print`.
    fn item(&self, out: &mut Out, item: &Item)
        ensures { Wrote self.now out.old out.new (item_tokens item.now) }
    {
        match item {
            Item::Text(_, text) => self.text(out, text),
            Item::Value(_, expr) => self.expression(out, expr),
        }
    }

    /// Items with commas between.
    #[tactic(auto, using(crate::proofs::Writer::wrote_none, crate::proofs::Loops::items_step))]
    fn items(&self, out: &mut Out, items: &List<Item>)
        ensures { Wrote self.now out.old out.new (separated item_tokens items.now) }
    {
        for i in 0..items.len() {
            self.mark_if(out, i > 0, Mark::Comma);
            self.item(out, items.get(i));
        }
    }

    /// The thread that a call speaks of.
    fn who(&self, out: &mut Out, who: &Who)
        ensures { Wrote self.now out.old out.new (who_tokens who.now) }
    {
        match who {
            Who::Own => self.word(out, Word::Own),
            Who::Of(expr) => self.expression(out, expr),
        }
    }

    /// A piece.
    #[tactic(auto, using(crate::proofs::Writer::wrote_two))]
    fn piece(&self, out: &mut Out, piece: Piece<'_>)
        ensures { Wrote self.now out.old out.new (piece_tokens (piece_seen piece.entry)) }
    {
        match piece {
            Piece::Name(_, at) => self.name(out, at),
            Piece::Value(expr) => self.expression(out, expr),
            Piece::Whom(who) => self.who(out, who),
            Piece::Items(items) => self.items(out, items),
            Piece::Application(template, exprs) => {
                self.name(out, template);
                self.mark(out, Mark::OpenParenthesis);
                self.arguments(out, exprs);
            }
        }
    }

    /// A comma and a piece.
    #[tactic(auto, using(crate::proofs::Loops::wrote_next))]
    fn next_piece(&self, out: &mut Out, piece: Piece<'_>)
        ensures { Wrote self.now out.old out.new (token.Mark Comma ∷ piece_tokens (piece_seen piece.entry)) }
    {
        self.mark(out, Mark::Comma);
        self.piece(out, piece);
    }

    /// Pieces with commas between.
    #[tactic(auto, using(crate::proofs::Writer::wrote_none, crate::proofs::Writer::wrote_two))]
    fn pieces(&self, out: &mut Out, pieces: Few<Piece<'_>>)
        ensures { Wrote self.now out.old out.new (separated piece_tokens (pieces_seen pieces.entry)) }
    {
        match pieces {
            Few::Zero => {}
            Few::One(first) => self.piece(out, first),
            Few::Two(first, second) => {
                self.piece(out, first);
                self.next_piece(out, second);
            }
            Few::Three(first, second, third) => {
                self.piece(out, first);
                self.next_piece(out, second);
                self.next_piece(out, third);
            }
            Few::Four(first, second, third, fourth) => {
                self.piece(out, first);
                self.next_piece(out, second);
                self.next_piece(out, third);
                self.next_piece(out, fourth);
            }
            Few::Five(first, second, third, fourth, fifth) => {
                self.piece(out, first);
                self.next_piece(out, second);
                self.next_piece(out, third);
                self.next_piece(out, fourth);
                self.next_piece(out, fifth);
            }
        }
    }

    /// A kernel call.
    #[tactic(auto, using(crate::proofs::Writer::wrote_two))]
    pub(crate) fn call(&self, out: &mut Out, call: &Call)
        ensures { Wrote self.now out.old out.new (call_tokens call.now) }
    {
        self.word(out, word_of(call));
        self.pieces(out, pieces(call));
    }
}
