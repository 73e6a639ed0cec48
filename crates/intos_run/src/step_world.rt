// A world of steps alone.
ghost use Rattle.intos_run.specs.Steps.{only_steps};

use kernel_boots::World;
use kernel_model::Event;

/// So many steps, and then nothing more.
#[derive(Drop)]
pub struct StepWorld {
    /// The number of steps.
    pub steps: u32,
    /// The number of the event that was asked for last.
    pub asked: u32,
}

impl World for StepWorld {
    ghost events = { λ world. only_steps world.steps };

    ghost floor = { λ world. world.asked };

    fn next(&mut self, n: u32) -> Option<Event> {
        self.asked = n;
        if n < self.steps {
            Some(Event::Step)
        } else {
            None
        }
    }
}
