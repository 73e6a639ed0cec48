// Tokens whose answer was worked out by hand: each clause says that the definition of the answer gives it.
ghost use Rattle.text_rows.specs.WorkedVerdicts.{Started, Unfinished, Bad, NoOperand};

fn worked_by_hand()
    ensures started { Started }
    ensures unfinished { Unfinished }
    ensures bad { Bad }
    ensures no_operand { NoOperand }
{}

#[test]
fn verdicts_are_as_worked_by_hand() {
    worked_by_hand();
}
