/// What a name stands for. A `Start` declares no name.
#[derive(Clone, Copy, Debug, Drop, PartialEq)]
pub(crate) enum Sort {
    Local,
    Kind,
    Object,
    Queue,
    Semaphore,
    Function,
    Thread,
    Start,
}
