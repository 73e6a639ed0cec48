// Dumps that were worked out by hand: each clause says that the definition of a dump gives that text.
ghost use Rattle.kernel_rows.specs.WorkedDumps.{NothingRuns, TwoPrints, BothDelayed, UrgentFirst, SentTooLate, SensorWaits, MixedKernel};

fn worked_by_hand()
    ensures nothing_runs { NothingRuns }
    ensures two_prints { TwoPrints }
    ensures both_delayed { BothDelayed }
    ensures urgent_first { UrgentFirst }
    ensures sent_too_late { SentTooLate }
    ensures sensor_waits { SensorWaits }
    ensures mixed_kernel { MixedKernel }
{}

#[test]
fn dumps_are_as_worked_by_hand() {
    worked_by_hand();
}
