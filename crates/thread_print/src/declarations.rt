ghost use Rattle.std.specs.Prelude.{◌≡◌, Option, List as Sequence};
ghost use Rattle.thread_print.specs.Canonical.{behind_word, channel_end, declaration, first_word, input, queue_tokens, semaphore_tokens, type_tokens};
ghost use Rattle.thread_print.specs.CanonicalText.{line};
ghost use Rattle.thread_print.specs.Wrote.{Added, Wrote};

use crate::out::Out;
use crate::printer::Printer;
use thread_tokens::word_text;
use thread_tree::{At, Decl, List, Mark, Num, Word};

/// The word that a declaration begins with.
fn first_word(decl: &Decl) -> Word
    ensures { result ≡ first_word decl.now }
{
    match decl {
        Decl::Kind(_, _) => Word::Type,
        Decl::Object(_, _) => Word::Object,
        Decl::Queue(_, _, _) => Word::Queue,
        Decl::Semaphore(_, _, _) => Word::Semaphore,
        Decl::Function(_, _, _) => Word::Fn,
        Decl::Thread(_, _, _, _) => Word::Thread,
        Decl::Start(_, _, _) => Word::Start,
    }
}

impl<'a> Printer<'a> {
    /// The channel of a queue that has one.
    #[tactic(auto, using(crate::proofs::Writer::wrote_none, crate::proofs::Writer::wrote_two))]
    fn input(&self, out: &mut Out, channel: Option<Num>)
        ensures { Wrote self.now out.old out.new (input channel) }
    {
        match channel {
            None => {}
            Some(channel) => {
                self.word(out, Word::Input);
                self.number(out, channel.value);
            }
        }
    }

    /// The end of a queue's declaration.
    #[tactic(auto, using(crate::proofs::Writer::wrote_two))]
    fn channel_end(&self, out: &mut Out, channel: Option<Num>)
        ensures { Wrote self.now out.old out.new (channel_end channel) }
    {
        self.input(out, channel);
        self.mark(out, Mark::Semicolon);
    }

    /// What stands behind `type`.
    #[tactic(auto, using(crate::proofs::Writer::wrote_two))]
    fn kind(&self, out: &mut Out, name: At, fields: &List<At>)
        ensures { Wrote self.now out.old out.new (type_tokens name fields.now) }
    {
        self.name(out, name);
        self.mark(out, Mark::OpenBrace);
        self.names(out, fields);
        self.mark(out, Mark::CloseBrace);
    }

    /// What stands behind `queue`.
    #[tactic(auto, using(crate::proofs::Writer::wrote_two))]
    fn queue(&self, out: &mut Out, name: At, capacity: Num, channel: Option<Num>)
        ensures { Wrote self.now out.old out.new (queue_tokens name capacity channel) }
    {
        self.name(out, name);
        self.mark(out, Mark::OpenBracket);
        self.number(out, capacity.value);
        self.mark(out, Mark::CloseBracket);
        self.channel_end(out, channel);
    }

    /// What stands behind `semaphore`.
    #[tactic(auto, using(crate::proofs::Writer::wrote_two))]
    fn semaphore(&self, out: &mut Out, name: At, count: Num, most: Num)
        ensures { Wrote self.now out.old out.new (semaphore_tokens name count most) }
    {
        self.name(out, name);
        self.mark(out, Mark::Equals);
        self.number(out, count.value);
        self.word(out, Word::Max);
        self.number(out, most.value);
        self.mark(out, Mark::Semicolon);
    }

    /// What stands behind the first word of a declaration.
    #[tactic(auto, using(crate::proofs::Writer::wrote_two))]
    fn behind_word(&self, out: &mut Out, decl: &Decl)
        ensures { Wrote self.now out.old out.new (behind_word decl.now) }
    {
        match decl {
            Decl::Kind(name, fields) => self.kind(out, *name, fields),
            Decl::Object(name, kind) => {
                self.name(out, *name);
                self.mark(out, Mark::Colon);
                self.name(out, *kind);
                self.mark(out, Mark::Semicolon);
            }
            Decl::Queue(name, capacity, channel) => self.queue(out, *name, *capacity, *channel),
            Decl::Semaphore(name, count, most) => self.semaphore(out, *name, *count, *most),
            Decl::Function(name, parameters, body) => {
                self.name(out, *name);
                self.mark(out, Mark::OpenParenthesis);
                self.parameters(out, parameters);
                self.block(out, body);
            }
            Decl::Thread(name, parameters, priority, body) => {
                self.name(out, *name);
                self.mark(out, Mark::OpenParenthesis);
                self.parameters(out, parameters);
                self.word(out, Word::Priority);
                self.number(out, priority.value);
                self.block(out, body);
            }
            Decl::Start(_, template, arguments) => {
                self.name(out, *template);
                self.mark(out, Mark::OpenParenthesis);
                self.start_values(out, arguments);
                self.mark(out, Mark::Semicolon);
            }
        }
    }

    /// A declaration on a line of its own.
    #[tactic(auto, using(crate::proofs::Lines::wrote_line))]
    pub(crate) fn declaration(&self, out: &mut Out, decl: &Decl)
        ensures { Added out.old out.new (line self.now (declaration decl.now)) }
    {
        out.put(word_text(first_word(decl)));
        self.behind_word(out, decl);
        out.put(b"\n");
    }
}
