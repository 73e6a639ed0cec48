// Runs that were worked out by hand: each clause says that the definition of the uncut run gives that text.
ghost use Rattle.kernel_rows.specs.WorkedRuns.{TwoPrints, NobodyReady, OneTick, NoEvent, AbortAndGive, OneStoreTooMany, AsManyStoresAsAllowed, EndlessLoop, BothDelayed, UrgentFirst, TickBeforeSend, SendBeforeTick, PersistentLoop, NoRecordRoom, TurnsMakeRoom, RowUsedAgain, FullHeap, Sensor, Slices, GreatestCount, NoRowFree, Arithmetic, ConsoleNearlyFull, ConsoleFull, ConsoleStaysFull, AFunction, StaticStays, Priorities, Delays, Inputs, SendersWait, SendersServed, TakersWait, TakersTimeOut, OperationBeforeReference, BadReference, AsManyMovesAsAllowed, OneMoveTooMany, Moves, Places};

fn worked_by_hand()
    ensures two_prints { TwoPrints }
    ensures nobody_ready { NobodyReady }
    ensures one_tick { OneTick }
    ensures no_event { NoEvent }
    ensures abort_and_give { AbortAndGive }
    ensures one_store_too_many { OneStoreTooMany }
    ensures as_many_stores_as_allowed { AsManyStoresAsAllowed }
    ensures endless_loop { EndlessLoop }
    ensures both_delayed { BothDelayed }
    ensures urgent_first { UrgentFirst }
    ensures tick_before_send { TickBeforeSend }
    ensures send_before_tick { SendBeforeTick }
    ensures persistent_loop { PersistentLoop }
    ensures no_record_room { NoRecordRoom }
    ensures turns_make_room { TurnsMakeRoom }
    ensures row_used_again { RowUsedAgain }
    ensures full_heap { FullHeap }
    ensures sensor { Sensor }
    ensures slices { Slices }
    ensures greatest_count { GreatestCount }
    ensures no_row_free { NoRowFree }
    ensures arithmetic { Arithmetic }
    ensures console_nearly_full { ConsoleNearlyFull }
    ensures console_full { ConsoleFull }
    ensures console_stays_full { ConsoleStaysFull }
    ensures a_function { AFunction }
    ensures static_stays { StaticStays }
    ensures priorities { Priorities }
    ensures delays { Delays }
    ensures inputs { Inputs }
    ensures senders_wait { SendersWait }
    ensures senders_served { SendersServed }
    ensures takers_wait { TakersWait }
    ensures takers_time_out { TakersTimeOut }
    ensures operation_before_reference { OperationBeforeReference }
    ensures bad_reference { BadReference }
    ensures as_many_moves_as_allowed { AsManyMovesAsAllowed }
    ensures one_move_too_many { OneMoveTooMany }
    ensures moves { Moves }
    ensures places { Places }
{}

#[test]
fn runs_are_as_worked_by_hand() {
    worked_by_hand();
}
