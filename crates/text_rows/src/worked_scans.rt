// Texts that were taken apart by hand: each clause says that the definition of a scan gives these tokens.
ghost use Rattle.text_rows.specs.WorkedScans.{ArrowIsOne, MinusThenArrow, CommentAtTheEnd, CommentThenLine, NumberThenName, NamesOnce, LongestMark, NotClosed, Closed, NoToken, NumberBound, NameBound, EndBehindBlanks};

fn worked_by_hand()
    ensures arrow_is_one { ArrowIsOne }
    ensures minus_then_arrow { MinusThenArrow }
    ensures comment_at_the_end { CommentAtTheEnd }
    ensures comment_then_line { CommentThenLine }
    ensures number_then_name { NumberThenName }
    ensures names_once { NamesOnce }
    ensures longest_mark { LongestMark }
    ensures not_closed { NotClosed }
    ensures closed { Closed }
    ensures no_token { NoToken }
    ensures number_bound { NumberBound }
    ensures name_bound { NameBound }
    ensures end_behind_blanks { EndBehindBlanks }
{}

#[test]
fn texts_are_as_worked_by_hand() {
    worked_by_hand();
}
