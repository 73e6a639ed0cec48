// A text that is written, and remembers that no memory was left for it.
ghost use Rattle.std.specs.Prelude.{◌≡◌, ◌∷◌, [], Some, IfOk};
ghost use Rattle.thread_print.specs.Wrote.{Added};

use crate::NoMemory;
use std::alloc::Global;
use std::marker::Model;

/// A text that grows until it is full: then it stays so, and all that is written behind is lost.
#[derive(Drop)]
pub(crate) struct Out {
    text: Vec<u8>,
    full: bool,
}

impl Model for Out {
    ghost use Rattle.std.specs.Prelude.{ℕ, List, Option, Some, None, if◌then◌else◌};

    ghost Value = { Option (List ℕ) };

    ghost view = { λ out. if out.full then None else Some out.text.items };
}

impl Out {
    /// An empty text.
    pub(crate) fn new(alloc: Global) -> Out
        ensures { result ≡ Some [] }
    {
        Out {
            text: Vec::new(alloc),
            full: false,
        }
    }

    /// Writes bytes behind it.
    pub(crate) fn put(&mut self, bytes: &[u8])
        ensures { Added self.old self.new bytes.now }
    {
        if self.full {
            return;
        }
        if self.text.extend_from_slice(bytes).is_err() {
            self.full = true;
        }
    }

    /// Writes bytes behind it, after a space.
    #[tactic(auto, using(crate::proofs::Writer::added_two))]
    pub(crate) fn put_spaced(&mut self, bytes: &[u8])
        ensures { Added self.old self.new (32 ∷ bytes.now) }
    {
        self.put(b" ");
        self.put(bytes);
    }

    /// The whole text, where it isn't full.
    pub(crate) fn finish(self) -> Result<Vec<u8>, NoMemory>
        ensures { IfOk result (λ text. self ≡ Some text.items) }
    {
        if self.full {
            Err(NoMemory)
        } else {
            Ok(self.text)
        }
    }
}
