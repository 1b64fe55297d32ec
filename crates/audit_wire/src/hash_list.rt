ghost use Rattle.std.specs.Prelude.{◌≡◌, ◌*◌, length};
ghost use Rattle.std.specs.List.{flat_map};
ghost use Rattle.audit_base.specs.Hashes.{AreHashes};

use audit_base::Hash;
use std::marker::Model;

/// The hashes of a proof. Contracts see them as a list.
#[derive(Debug, Drop)]
pub struct HashList {
    hashes: Vec<Hash>,
}

impl Model for HashList {
    ghost use Rattle.std.specs.Prelude.{List, ℕ};

    ghost Value = { List (List ℕ) };

    ghost view = { λ list. list.hashes.items };
}

impl HashList {
    /// Wraps a vector of hashes. It allocates nothing.
    pub fn from_vec(hashes: Vec<Hash>) -> HashList
        ensures { result ≡ hashes.items }
    {
        Self { hashes }
    }

    /// Returns the vector. It allocates nothing.
    pub fn into_vec(self) -> Vec<Hash>
        ensures { result.items ≡ self }
    {
        let HashList { hashes } = self;
        hashes
    }

    /// The hashes, in order.
    pub fn as_slice(&self) -> &[Hash]
        ensures { result.now ≡ self.now }
    {
        &self.hashes
    }

    /// The concatenated hashes.
    pub fn as_bytes(&self) -> &[u8]
        ensures bytes { result.now ≡ flat_map (λ hash. hash) self.now }
        ensures size { length result.now ≡ length self.now * 32 }
        ensures whole { AreHashes self.now }
    {
        in_a_row(self.as_slice())
    }
}

fn in_a_row(hashes: &[Hash]) -> &[u8]
    ensures bytes { result.now ≡ flat_map (λ hash. hash) hashes.now }
    ensures size { length result.now ≡ length hashes.now * 32 }
    ensures whole { AreHashes hashes.now }
{
    hashes.as_flattened()
}
