ghost use Rattle.std.specs.Prelude.{◌≡◌, Some, None, true, false};
ghost use Rattle.text_bounds.specs.Tally.{tally_of, none_tallied};
ghost use Rattle.text_bounds.specs.Worked.{somewhere, enclosed, called, typed, prefixed};

/// Tallies worked by hand: of an expression with two parentheses, of arguments, which begin anew, of a block behind
/// a type, and of 32 operators and one more.
pub fn worked_bounds()
    ensures enclosed { tally_of (somewhere enclosed) none_tallied ≡ Some (record { operators = 1; parentheses = 2; blocks = 0; named = false; typing = false }) }
    ensures called { tally_of (somewhere called) none_tallied ≡ Some (record { operators = 1; parentheses = 0; blocks = 0; named = false; typing = false }) }
    ensures typed { tally_of (somewhere typed) none_tallied ≡ Some (record { operators = 0; parentheses = 0; blocks = 1; named = false; typing = false }) }
    ensures most { tally_of (somewhere (prefixed 32)) none_tallied ≡ Some (record { operators = 32; parentheses = 0; blocks = 0; named = false; typing = false }) }
    ensures more { tally_of (somewhere (prefixed 33)) none_tallied ≡ None }
{}
