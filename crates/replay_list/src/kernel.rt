use nv_memory::Nv;
use thread_machine::Contexts;
use undo_journal::Idle;

/// A recovered kernel: the device at rest, and the contexts of the live threads.
#[must_use]
pub struct Kernel<N: Nv> {
    /// The device.
    pub idle: Idle<N>,
    /// The contexts, by the numbers of threads.
    pub contexts: Contexts,
}
