ghost use Rattle.std.specs.Prelude.{◌≡◌, List};
ghost use Rattle.std.proofs.Common.{[], ◌∷◌};
ghost use Rattle.thread_tree.specs.declared.token.Placed.{Placed};
ghost use Rattle.thread_text.specs.Fate.{fate, LongAt};
ghost use Rattle.thread_text.specs.Verdict.{none_counted};
ghost use Rattle.text_bounds.specs.Tally.{tallied, none_tallied, PassesFirst};

/// What becomes of tokens, counted by the tokens alone, is what becomes of them by the parts that they owe: whole,
/// stuck at the same token, or past a bound at the same one.
/// They are too long just where a token is the first to pass a bound by their tally.
pub fn bounds_by_tokens()
    ensures same { (tokens : List Placed) → fate [] none_counted tokens ≡ tallied [] none_tallied tokens }
    ensures long { (tokens behind : List Placed) (t : Placed) → PassesFirst [] none_tallied tokens t behind → fate [] none_counted tokens ≡ LongAt (t ∷ behind) }
    ensures only { (tokens behind : List Placed) (t : Placed) → fate [] none_counted tokens ≡ LongAt (t ∷ behind) → PassesFirst [] none_tallied tokens t behind }
{}
