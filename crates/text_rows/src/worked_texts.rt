// Trees whose canonical texts were written by hand: the clauses say that the definition gives those texts.
ghost use Rattle.text_rows.specs.WorkedTexts.{CallsWithPieces, SumOfProduct};

fn worked_by_hand()
    ensures sum_of_product { SumOfProduct }
    ensures calls_with_pieces { CallsWithPieces }
{}

#[test]
fn texts_are_as_worked_by_hand() {
    worked_by_hand();
}
