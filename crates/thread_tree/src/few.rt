/// Up to five values in order: the places of a call, or its pieces.
#[derive(Clone, Copy, Debug, Drop)]
pub enum Few<T> {
    Zero,
    One(T),
    Two(T, T),
    Three(T, T, T),
    Four(T, T, T, T),
    Five(T, T, T, T, T),
}
