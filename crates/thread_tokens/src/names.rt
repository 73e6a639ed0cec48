ghost use Rattle.std.specs.Prelude.{◌≡◌, ◌≤◌, [], length, IfOk, OnOk};
ghost use Rattle.thread_tokens.specs.Scan.{index_of, with_name};

use indexmap::IndexSet;
use std::alloc::{AllocError, Global};
use std::marker::Model;
use thread_tree::{List, Name};

/// The distinct names of a text so far, in order of their first place.
#[derive(Drop)]
pub struct Names {
    set: IndexSet<Name>,
}

impl Model for Names {
    ghost use Rattle.std.specs.Prelude.{List as Sequence};
    ghost use Rattle.thread_tree.specs.declared.name.Name.{Name};

    ghost Value = { Sequence Name };

    ghost view = { λ names. names.set.keys };
}

impl Names {
    /// No names yet.
    pub fn new(alloc: Global) -> Self
        ensures empty { result ≡ [] }
    {
        Names {
            set: IndexSet::new(alloc),
        }
    }

    /// The index of a name, which goes last where it is new.
    ///
    /// # Errors
    ///
    /// Want of memory.
    pub fn index_of(&mut self, name: Name) -> Result<usize, AllocError>
        ensures index { IfOk result (λ index. index ≡ index_of name self.old) }
        ensures within { IfOk result (λ index. index ≤ length self.old) }
        ensures names { OnOk result (self.new ≡ with_name name self.old) }
    {
        let (index, _) = self.set.insert_full(name)?;
        Ok(index)
    }

    /// The names in order.
    ///
    /// # Errors
    ///
    /// Want of memory.
    pub fn into_list(self, alloc: Global) -> Result<List<Name>, AllocError>
        ensures same { IfOk result (λ names. names ≡ self) }
    {
        let names: Vec<Name> = self.set.into_iter().collect(alloc)?;
        Ok(List::of(names))
    }
}
