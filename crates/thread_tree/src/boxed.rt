ghost use Rattle.std.specs.Prelude.{◌≡◌, IfOk};

use std::alloc::{AllocError, Global};
use std::boxed::Box as Pointer;
use std::marker::Model;
use std::ops::Deref;

/// A value in memory of its own, which contracts see as the value alone: where it lies is no part of a tree.
#[derive(Debug, Drop)]
pub struct Box<T> {
    inner: Pointer<T>,
}

impl<T> Model for Box<T> {
    ghost Value = { T };

    ghost coded = { T.code };

    ghost view = { λ b. b.inner.value };
}

impl<T> Deref for Box<T> {
    type Target = T;

    ghost deref_gives = { λ b x. x ≡ b };

    fn deref(&self) -> &T
        ensures value { result.now ≡ self.now }
    {
        &self.inner
    }
}

impl<T: Drop> Box<T> {
    /// The value in a box, or an error where no memory is left for it.
    pub fn new(alloc: Global, value: T) -> Result<Box<T>, AllocError>
        ensures value { IfOk result (λ b. b ≡ value) }
    {
        Ok(Box {
            inner: Pointer::new(alloc, value)?,
        })
    }
}
