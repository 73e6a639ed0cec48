/// What a name in a call has to be declared as.
#[derive(Clone, Copy, Debug, Drop, PartialEq)]
pub enum Needed {
    Queue,
    Semaphore,
}
