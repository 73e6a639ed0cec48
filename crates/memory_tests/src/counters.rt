// The counter of steps.
ghost use Rattle.std.specs.Prelude.{◌≡◌, ◌<◌};

use std::marker::Brand;
use std::sync::ledger::{Blank, Ledger};
use step_counter::Steps;

fn count_two<L: Ledger>(blank: Blank)
    requires name { blank.name ≡ L.name }
    requires parts { blank.parts ≡ L.parts }
    requires some { 0 < L.parts }
{
    let mut steps = Steps::<L>::of(blank);
    steps.tick();
    steps.tick();
}

// A counter counts under a ledger that is picked.
#[test]
fn counts() {
    count_two::<Brand>(Blank::new(1));
}
