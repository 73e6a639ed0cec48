// What leads to a hole.

/// Where the place of a hole stands: the first hole's in a word of its own, a later one's in the hole before it.
#[derive(Clone, Copy)]
pub(crate) enum Link {
    First,
    Behind(u32),
}
