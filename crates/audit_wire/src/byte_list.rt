ghost use Rattle.std.specs.Prelude.{◌≡◌};

use std::marker::Model;

/// The bytes of a payload or an entry. Contracts see them as a list.
#[derive(Debug, Drop)]
pub struct ByteList {
    bytes: Vec<u8>,
}

impl Model for ByteList {
    ghost use Rattle.std.specs.Prelude.{List, ℕ};

    ghost Value = { List ℕ };

    ghost view = { λ list. list.bytes.items };
}

impl ByteList {
    /// Wraps a vector. It allocates nothing.
    pub fn from_vec(bytes: Vec<u8>) -> ByteList
        ensures { result ≡ bytes.items }
    {
        Self { bytes }
    }

    /// Returns the vector. It allocates nothing.
    pub fn into_vec(self) -> Vec<u8>
        ensures { result.items ≡ self }
    {
        let ByteList { bytes } = self;
        bytes
    }

    /// The bytes.
    pub fn as_slice(&self) -> &[u8]
        ensures { result.now ≡ self.now }
    {
        &self.bytes
    }
}
