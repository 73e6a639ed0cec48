ghost use Rattle.std.specs.Prelude.{◌≡◌, Some, None};
ghost use Rattle.std.proofs.Common.{[], ◌∷◌};
ghost use Rattle.grammar_laws.specs.Open.{bare, owed};
ghost use Rattle.grammar_laws.specs.Worked.{started, started_at_none, start_tree, sending, limited};
ghost use Rattle.thread_tree.specs.SpellingOfDeclarations.{SpellsProgram};
ghost use Rattle.thread_tree.specs.declared.token.Mark.TheVariants as mark;
ghost use Rattle.thread_tree.specs.declared.token.Token.TheVariants as token;

/// Small programs worked by hand: the tokens of a start are taken whole and spell its tree, and with a comma in the
/// place of its number they aren't taken. A call's operands have commas between them, no more and no fewer.
pub fn worked_tokens()
    ensures taken { owed [] (bare started) ≡ Some [] }
    ensures spelled { SpellsProgram started start_tree }
    ensures refused { owed [] (bare started_at_none) ≡ None }
    ensures sent { owed [] (sending (token.Mark mark.Comma ∷ limited)) ≡ Some [] }
    ensures short { owed [] (sending (token.Mark mark.Semicolon ∷ [])) ≡ None }
    ensures together { owed [] (sending limited) ≡ None }
{}
