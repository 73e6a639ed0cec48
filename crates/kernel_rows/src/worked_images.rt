// Images that were worked out by hand: each clause says that the definition of what they show gives that.
ghost use Rattle.kernel_rows.specs.WorkedImages.{NothingShown, StampsTell, Waiters, ObjectsAndConsole, EmptyWords, StaticWords};

fn worked_by_hand()
    ensures nothing_shown { NothingShown }
    ensures stamps_tell { StampsTell }
    ensures waiters { Waiters }
    ensures objects_and_console { ObjectsAndConsole }
    ensures empty_words { EmptyWords }
    ensures static_words { StaticWords }
{}

#[test]
fn images_are_as_worked_by_hand() {
    worked_by_hand();
}
