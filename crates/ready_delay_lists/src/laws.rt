ghost use Rattle.std.specs.Prelude.{◌≡◌, ℕ, [], ◌∷◌, Some, None};
ghost use Rattle.thread_tree.specs.Program.{Program};
ghost use Rattle.kernel_model.specs.declared.wait.Wait.{Wait};
ghost use Rattle.kernel_model.specs.declared.wait.TheConstants.{NEVER};
ghost use Rattle.kernel_model.specs.Kernel.{State, Thread};
ghost use Rattle.kernel_model.specs.Kernel.Activity.{Delayed, Waiting};
ghost use Rattle.kernel_model.specs.Kernel.Row.{Free, Live};
ghost use Rattle.kernel_image.specs.Agree.{Agrees, Both};
ghost use Rattle.kernel_image.specs.Decoded.{Decoded, row_at, queue_at, semaphore_at};
ghost use Rattle.kernel_image.specs.Unread.{unread, IsUnread};
ghost use Rattle.ready_delay_lists.specs.Lists.{AreListed, due, unlisted, unlisted_row, unlisted_queue, unlisted_semaphore};

/// The laws of lists. It does nothing.
///
/// An image has the lists of a kernel whose rows and next stamp it has. Where an image changes no more than the calls of
/// lists may, its rows, queues and semaphores are as before but for that, and so are its counts of events and ticks, its
/// console, its heap and the words that nothing reads. Of a thread that is delayed until tick 7 and one until tick 5 the
/// second is due at tick 5, and a wait without end never is.
pub fn list_laws()
    ensures listed { (p : Program) (d : Decoded) (K : State) → Both Agrees d.rows K.rows → d.stamp ≡ K.stamp → IsUnread p d → AreListed d K }
    ensures row { (d e : Decoded) (u : ℕ) → unlisted e ≡ unlisted d → unlisted_row (row_at e u) ≡ unlisted_row (row_at d u) }
    ensures queue { (d e : Decoded) (q : ℕ) → unlisted e ≡ unlisted d → unlisted_queue (queue_at e q) ≡ unlisted_queue (queue_at d q) }
    ensures semaphore { (d e : Decoded) (s : ℕ) → unlisted e ≡ unlisted d → unlisted_semaphore (semaphore_at e s) ≡ unlisted_semaphore (semaphore_at d s) }
    ensures events { (d e : Decoded) → unlisted e ≡ unlisted d → e.events ≡ d.events }
    ensures ticks { (d e : Decoded) → unlisted e ≡ unlisted d → e.ticks ≡ d.ticks }
    ensures console_length { (d e : Decoded) → unlisted e ≡ unlisted d → e.console_length ≡ d.console_length }
    ensures console { (d e : Decoded) → unlisted e ≡ unlisted d → e.console ≡ d.console }
    ensures first_hole { (d e : Decoded) → unlisted e ≡ unlisted d → e.first_hole ≡ d.first_hole }
    ensures heap { (d e : Decoded) → unlisted e ≡ unlisted d → e.heap ≡ d.heap }
    ensures live { (d e : Decoded) → unlisted e ≡ unlisted d → e.live ≡ d.live }
    ensures unread { (d e : Decoded) (K L : State) → AreListed d K → AreListed e L → unlisted e ≡ unlisted d → unread e ≡ unread d }
    ensures due_at { (thread : Thread) (K : State) → due 5 (record K { rows = Live (record thread { activity = Delayed 7 }) ∷ Free ∷ Live (record thread { activity = Delayed 5 }) ∷ [] }) ≡ Some 2 }
    ensures never_due { (thread : Thread) (wait : Wait) (K : State) → due 5 (record K { rows = Live (record thread { activity = Waiting (record wait { until = NEVER }) }) ∷ [] }) ≡ None }
{}
