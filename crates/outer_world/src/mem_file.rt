//! A file in memory.
ghost use Rattle.std.specs.Prelude.{◌≡◌};
ghost use Rattle.std.specs.String.{string_bytes};
ghost use Rattle.std.specs.Str.{bytes_eq};

use std::marker::Model;

/// A name and the bytes of the file of this name.
#[derive(Drop)]
pub struct MemFile {
    name: String,
    content: Vec<u8>,
}

impl Model for MemFile {
    ghost use Rattle.std.specs.Prelude.{ℕ, List};
    ghost use Rattle.std.specs.String.{string_bytes};

    ghost Value = { List ℕ × List ℕ };

    ghost view = { λ file. (string_bytes file.name, file.content.items) };
}

impl MemFile {
    /// The file of this name with these bytes.
    pub fn new(name: String, bytes: Vec<u8>) -> MemFile
        ensures made { result ≡ (string_bytes name, bytes.items) }
    {
        MemFile {
            name,
            content: bytes,
        }
    }

    /// Whether this is the file's name.
    pub(crate) fn is_named(&self, name: &str) -> bool
        ensures same { result ≡ bytes_eq self.now.0 name.now }
    {
        self.name.as_str() == name
    }

    /// The file's bytes.
    pub(crate) fn bytes(&self) -> &[u8]
        ensures value { result.now ≡ self.now.1 }
    {
        self.content.as_slice()
    }
}
