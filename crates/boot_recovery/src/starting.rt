// A law on the image that formatting writes.
ghost use Rattle.boot_recovery.specs.Starting.{BlankIsKept, FormattedStands};

use kernel_image::formatting_shows_the_start;
use kernel_model::{places, replay, soundness};

/// The image that formatting writes stands for the kernel of the program at the start, for every program within the
/// limits, and a blank device is kept for that kernel. The clauses are the laws; the function does nothing.
pub fn formatting_stands()
    ensures stands { FormattedStands }
    ensures blank { BlankIsKept }
{
    soundness();
    formatting_shows_the_start();
    replay();
    places();
}
