ghost use Rattle.std.specs.Prelude.{◌≡◌, ◌++◌, List, Option, Some, None};
ghost use Rattle.std.proofs.Common.{[], ◌∷◌};
ghost use Rattle.thread_tree.specs.Grammar.{advance, Spells, IsOpen};
ghost use Rattle.grammar_laws.specs.Open.{bare, owed, HasProgram, MayBecome};
ghost use Rattle.thread_tree.specs.Parts.{Part};
ghost use Rattle.thread_tree.specs.SpellingOfDeclarations.{SpellsProgram};
ghost use Rattle.thread_tree.specs.declared.tree.Decl.{Decl};
ghost use Rattle.thread_tree.specs.declared.token.Placed.{Placed};
ghost use Rattle.thread_tree.specs.declared.token.Token.{Token};

/// What the table of the grammar means for the trees: it takes each program, and with the token
/// at which it is stuck no program begins; tokens that still owe something are no program.
/// `opens` speaks of the table alone: what it has taken can go on to tokens that it takes whole.
pub fn stuck_means()
    ensures complete { (tokens : List Placed) (ds : List Decl) → SpellsProgram tokens ds → Spells [] (bare tokens) }
    ensures opens { (front : List Token) (parts : List Part) → owed [] front ≡ Some parts → IsOpen front }
    ensures stuck { (front : List Placed) (t : Placed) (parts : List Part) → owed [] (bare front) ≡ Some parts → advance parts t.token ≡ None → MayBecome (front ++ t ∷ []) → ⊥ }
    ensures unpaid { (tokens : List Placed) (part : Part) (parts : List Part) → owed [] (bare tokens) ≡ Some (part ∷ parts) → HasProgram tokens → ⊥ }
{}

/// The other way round: what it means for the trees that the table takes tokens. Taken whole, they spell a
/// program; taken so far, they may become one. So the table and the trees have one language, and the token with
/// which tokens can't go on is one, by the trees alone.
pub fn taken_means()
    ensures sound { (tokens : List Placed) → Spells [] (bare tokens) → HasProgram tokens }
    ensures opened { (front : List Placed) (parts : List Part) → owed [] (bare front) ≡ Some parts → MayBecome front }
    ensures one { (xs ys us vs : List Placed) (x y : Placed) → xs ++ x ∷ us ≡ ys ++ y ∷ vs → MayBecome xs → (MayBecome (xs ++ x ∷ []) → ⊥) → MayBecome ys → (MayBecome (ys ++ y ∷ []) → ⊥) → x ≡ y }
{}
