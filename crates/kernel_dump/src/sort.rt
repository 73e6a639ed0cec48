ghost use Rattle.std.specs.Prelude.{◌≡◌};
ghost use Rattle.kernel_dump.specs.Parts.{declared};

use kernel_image::Sort as Declared;

/// A sort of what a program declares that the dump names by its number.
#[derive(Debug, Clone, Copy, PartialEq, Eq)]
pub enum Sort {
    /// The object types.
    Kind,
    /// The queues.
    Queue,
    /// The semaphores.
    Semaphore,
    /// The thread templates.
    Template,
}

/// The sort of the declarations that give the names of this one.
pub(crate) fn declared(sort: Sort) -> Declared
    ensures is { result ≡ declared sort }
{
    match sort {
        Sort::Kind => Declared::Kind,
        Sort::Queue => Declared::Queue,
        Sort::Semaphore => Declared::Semaphore,
        Sort::Template => Declared::Thread,
    }
}
