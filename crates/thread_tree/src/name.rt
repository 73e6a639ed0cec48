use arrayvec::ArrayVec;

/// A name of at most 24 bytes: a letter or `_`, then letters, digits and `_`.
#[derive(Debug, Drop, PartialEq, Eq, Hash)]
pub struct Name {
    pub bytes: ArrayVec<u8, 24>,
}

/// A string of at most 64 bytes, each from 32 to 126 and none a `"`.
#[derive(Debug, Drop)]
pub struct Text {
    pub bytes: ArrayVec<u8, 64>,
}
