/// The names that declarations have.
#[derive(Debug, Clone, Copy, PartialEq, Eq)]
pub(crate) enum What {
    /// Those of the types that they declare.
    Kinds,
    /// Those of the objects that they declare.
    Objects,
    /// Those of the types of these objects.
    ObjectKinds,
}
