// What can be read word by word.
ghost use Rattle.std.specs.Prelude.{◌≡◌, ◌<◌, List, ℕ, slice_index};

use nv_memory::WORDS;

/// A device whose present words can be read. Of the states of a transaction only an idle device and an open
/// transaction are one. A crate above could write one more for a bare device: what refuses words whose journal isn't
/// settled is the condition of each call that reads them.
pub trait Words {
    /// The present words.
    ghost present: { Self → List ℕ };

    /// The present word at a place.
    fn word(&self, at: u32) -> u32
        requires within { at < WORDS }
        ensures word { result ≡ slice_index (present self.now) at };
}
