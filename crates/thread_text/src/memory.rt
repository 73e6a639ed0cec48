ghost use Rattle.std.specs.Prelude.{◌≡◌, ◌++◌, ◌∷◌, [], if◌then◌else◌, is_ok, IfOk, IfErr};
ghost use Rattle.thread_text.specs.declared.halt.Halt.TheVariants.{NoMemory};

use crate::Halt;
use arrayvec::ArrayVec;
use std::alloc::Global;
use thread_tree::{Box, Text};

/// Adds an item at the end.
pub fn add<T: Drop>(items: &mut Vec<T>, item: T) -> Result<(), Halt>
    ensures items { items.new.items ≡ (if is_ok result then items.old.items ++ item ∷ [] else items.old.items) }
    ensures memory { IfErr result (λ e. e ≡ NoMemory) }
{
    match items.push(item) {
        Ok(()) => Ok(()),
        Err(_) => Err(Halt::NoMemory),
    }
}

/// The value in a box of its own.
pub fn boxed<T: Drop>(alloc: Global, value: T) -> Result<Box<T>, Halt>
    ensures ok { IfOk result (λ b. b ≡ value) }
    ensures memory { IfErr result (λ e. e ≡ NoMemory) }
{
    match Box::new(alloc, value) {
        Ok(b) => Ok(b),
        Err(_) => Err(Halt::NoMemory),
    }
}

/// The same string.
pub fn copied(text: &Text) -> Text
    ensures value { result ≡ text.now }
{
    let mut bytes = ArrayVec::new();
    bytes.try_extend_from_slice(&text.bytes).unwrap();
    Text { bytes }
}
