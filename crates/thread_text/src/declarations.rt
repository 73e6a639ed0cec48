ghost use Rattle.std.specs.Prelude.{◌≡◌, ◌≤◌, ◌<◌, ◌+◌, [], ◌∷◌, Some, None, IsSome, IfOk, length};
ghost use Rattle.thread_tree.specs.SpellingOfDeclarations.{SpellsDecl, SpellsChannel, SpellsProgram};
ghost use Rattle.thread_tree.specs.SpellingOfDeclarations.{SpellsDecl, SpellsChannel, SpellsProgram};
ghost use Rattle.thread_tree.specs.Parts.{Channel};
ghost use Rattle.thread_tree.specs.declared.token.Word.TheVariants as word;
ghost use Rattle.thread_text.specs.Fate.{Whole, ahead, Follows, next, next_of};
ghost use Rattle.thread_text.specs.Kinds.{word_in};

use crate::Halt;
use crate::cursor::Cursor;
use crate::memory::add;
use std::alloc::Global;
use thread_tree::{Decl, List, Mark, Num, Word};

impl<'a> Cursor<'a> {
    /// Reads declarations up to the end.
    #[tactic(auto, using(crate::proofs::Steps::begins_whole))]
    pub fn declarations(&mut self, alloc: Global) -> Result<List<Decl>, Halt>
        ensures fate { Follows result (ahead [] self.old) Whole self.new }
        ensures tree { IfOk result (λ tree. SpellsProgram self.old.left tree) }
    {
        let mut decls = Vec::new(alloc);
        'decls: while self.token().is_some() {
            let decl = self.declaration(alloc)?;
            add(&mut decls, decl)?;
        }
        Ok(List::of(decls))
    }

    /// Reads a declaration.
    #[tactic(auto, using(crate::proofs::DeclarationRows::declares_no_word, crate::proofs::DeclarationRows::declares_stuck))]
    fn declaration(&mut self, alloc: Global) -> Result<Decl, Halt>
        requires some { IsSome (next self.old.left) }
        ensures fate { Follows result (ahead [] self.old) (ahead [] self.new) self.new }
        ensures tree { IfOk result (λ tree. SpellsDecl self.old.left self.new.left tree) }
        ensures shorter { IfOk result (λ _. length self.new.left < length self.old.left) }
    {
        let Some(word) = self.word() else {
            return Err(Halt::Stuck);
        };
        match word {
            Word::Type => self.type_declaration(alloc),
            Word::Object => self.object_declaration(),
            Word::Queue => self.queue_declaration(),
            Word::Semaphore => self.semaphore_declaration(),
            Word::Fn => self.function_declaration(alloc),
            Word::Thread => self.thread_declaration(alloc),
            Word::Start => self.start_declaration(alloc),
            _ => Err(Halt::Stuck),
        }
    }

    /// Reads a `type` declaration.
    #[tactic(auto, using(crate::proofs::DeclarationRows::declares_type, crate::proofs::Steps::read_some))]
    fn type_declaration(&mut self, alloc: Global) -> Result<Decl, Halt>
        requires word { next_of word_in self.old ≡ Some word.Type }
        ensures fate { Follows result (ahead [] self.old) (ahead [] self.new) self.new }
        ensures tree { IfOk result (λ tree. SpellsDecl self.old.left self.new.left tree) }
        ensures shorter { IfOk result (λ _. length self.new.left < length self.old.left) }
    {
        self.skip_word();
        let name = self.name()?;
        self.expect(Mark::OpenBrace)?;
        let fields = self.names(alloc)?;
        self.expect(Mark::CloseBrace)?;
        Ok(Decl::Kind(name, fields))
    }

    /// Reads a `object` declaration.
    #[tactic(auto, using(crate::proofs::DeclarationRows::declares_object, crate::proofs::Steps::read_some))]
    fn object_declaration(&mut self) -> Result<Decl, Halt>
        requires word { next_of word_in self.old ≡ Some word.Object }
        ensures fate { Follows result (ahead [] self.old) (ahead [] self.new) self.new }
        ensures tree { IfOk result (λ tree. SpellsDecl self.old.left self.new.left tree) }
        ensures shorter { IfOk result (λ _. length self.new.left < length self.old.left) }
    {
        self.skip_word();
        let name = self.name()?;
        self.expect(Mark::Colon)?;
        let kind = self.name()?;
        self.expect(Mark::Semicolon)?;
        Ok(Decl::Object(name, kind))
    }

    /// Reads a `queue` declaration.
    #[tactic(auto, using(crate::proofs::DeclarationRows::declares_queue, crate::proofs::Steps::read_some))]
    fn queue_declaration(&mut self) -> Result<Decl, Halt>
        requires word { next_of word_in self.old ≡ Some word.Queue }
        ensures fate { Follows result (ahead [] self.old) (ahead [] self.new) self.new }
        ensures tree { IfOk result (λ tree. SpellsDecl self.old.left self.new.left tree) }
        ensures shorter { IfOk result (λ _. length self.new.left < length self.old.left) }
    {
        self.skip_word();
        let name = self.name()?;
        self.expect(Mark::OpenBracket)?;
        let capacity = self.number()?;
        self.expect(Mark::CloseBracket)?;
        let channel = self.channel()?;
        Ok(Decl::Queue(name, capacity, channel))
    }

    /// Reads the end of a queue's declaration, with its input channel where it has one.
    #[tactic(auto, using(crate::proofs::DeclarationRows::channel_some, crate::proofs::DeclarationRows::channel_none))]
    fn channel(&mut self) -> Result<Option<Num>, Halt>
        ensures fate { Follows result (ahead (Channel ∷ []) self.old) (ahead [] self.new) self.new }
        ensures tree { IfOk result (λ tree. SpellsChannel self.old.left self.new.left tree) }
        ensures shorter { IfOk result (λ _. length self.new.left < length self.old.left) }
    {
        if !self.eat_word(Word::Input) {
            self.expect(Mark::Semicolon)?;
            return Ok(None);
        }
        let channel = self.number()?;
        self.expect(Mark::Semicolon)?;
        Ok(Some(channel))
    }

    /// Reads a `semaphore` declaration.
    #[tactic(auto, using(crate::proofs::DeclarationRows::declares_semaphore, crate::proofs::Steps::read_some))]
    fn semaphore_declaration(&mut self) -> Result<Decl, Halt>
        requires word { next_of word_in self.old ≡ Some word.Semaphore }
        ensures fate { Follows result (ahead [] self.old) (ahead [] self.new) self.new }
        ensures tree { IfOk result (λ tree. SpellsDecl self.old.left self.new.left tree) }
        ensures shorter { IfOk result (λ _. length self.new.left < length self.old.left) }
    {
        self.skip_word();
        let name = self.name()?;
        self.expect(Mark::Equals)?;
        let start = self.number()?;
        self.expect_word(Word::Max)?;
        let most = self.number()?;
        self.expect(Mark::Semicolon)?;
        Ok(Decl::Semaphore(name, start, most))
    }

    /// Reads a `fn` declaration.
    #[tactic(auto, using(crate::proofs::DeclarationRows::declares_fn, crate::proofs::Steps::read_some))]
    fn function_declaration(&mut self, alloc: Global) -> Result<Decl, Halt>
        requires word { next_of word_in self.old ≡ Some word.Fn }
        ensures fate { Follows result (ahead [] self.old) (ahead [] self.new) self.new }
        ensures tree { IfOk result (λ tree. SpellsDecl self.old.left self.new.left tree) }
        ensures shorter { IfOk result (λ _. length self.new.left < length self.old.left) }
    {
        self.skip_word();
        let name = self.name()?;
        self.expect(Mark::OpenParenthesis)?;
        let parameters = self.parameters(alloc)?;
        let body = self.block(alloc)?;
        Ok(Decl::Function(name, parameters, body))
    }

    /// Reads a `thread` declaration.
    #[tactic(auto, using(crate::proofs::DeclarationRows::declares_thread, crate::proofs::Steps::read_some))]
    fn thread_declaration(&mut self, alloc: Global) -> Result<Decl, Halt>
        requires word { next_of word_in self.old ≡ Some word.Thread }
        ensures fate { Follows result (ahead [] self.old) (ahead [] self.new) self.new }
        ensures tree { IfOk result (λ tree. SpellsDecl self.old.left self.new.left tree) }
        ensures shorter { IfOk result (λ _. length self.new.left < length self.old.left) }
    {
        self.skip_word();
        let name = self.name()?;
        self.expect(Mark::OpenParenthesis)?;
        let parameters = self.parameters(alloc)?;
        self.expect_word(Word::Priority)?;
        let priority = self.number()?;
        let body = self.block(alloc)?;
        Ok(Decl::Thread(name, parameters, priority, body))
    }

    /// Reads a `start` declaration.
    #[tactic(auto, using(crate::proofs::DeclarationRows::declares_start, crate::proofs::Steps::read_some))]
    fn start_declaration(&mut self, alloc: Global) -> Result<Decl, Halt>
        requires word { next_of word_in self.old ≡ Some word.Start }
        ensures fate { Follows result (ahead [] self.old) (ahead [] self.new) self.new }
        ensures tree { IfOk result (λ tree. SpellsDecl self.old.left self.new.left tree) }
        ensures shorter { IfOk result (λ _. length self.new.left < length self.old.left) }
    {
        let place = self.skip_word();
        let thread = self.name()?;
        self.expect(Mark::OpenParenthesis)?;
        let arguments = self.numbers(alloc)?;
        self.expect(Mark::Semicolon)?;
        Ok(Decl::Start(place, thread, arguments))
    }
}
