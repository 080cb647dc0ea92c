// The hash of names.
ghost use Rattle.std.specs.Prelude.{◌≡◌, ℕ, ◌+◌, ◌^◌, ◌<◌, List};
ghost use Rattle.hm_cursor.specs.Names.{IsHash};
ghost use Rattle.hm_dirs.specs.Names.{first_key};

use hm_types::name_hash;

/// A hash of names. Entries are looked for under the keys that it gives.
pub trait NameHash {
    /// The hash of each name.
    ghost hash_of: { Self → List ℕ → ℕ };

    /// The hash of a name.
    fn hash(&self, name: &[u8]) -> u64
        ensures { result ≡ Self.hash_of self.now name.now };

    /// Each hash has 8 bytes.
    ghost bounded: { (h : Self) → IsHash (Self.hash_of h) };
}

/// The hash by which the entries of every volume stand: 64-bit FNV-1a.
#[derive(Clone, Copy, Debug)]
pub struct Fnv;

impl NameHash for Fnv {
    ghost use Rattle.hm_types.specs.Hash.{name_hash};
    ghost use Rattle.hm_cursor.proofs.HashLemmas.{name_hash_few};

    ghost hash_of = { λ _. name_hash };

    ghost bounded = { λ _. name_hash_few };

    fn hash(&self, name: &[u8]) -> u64 {
        name_hash(name)
    }
}

/// The least key under which the entries of a name with this hash stand, and the greatest: the hash
/// without its lowest bit, moved down by that bit, tells all but the low 16 bits, which tell apart
/// the names of one hash.
pub(crate) fn keys_of(hash: u64) -> (u64, u64)
    ensures first { result.0 ≡ first_key hash }
    ensures last { result.1 ≡ result.0 + 65535 }
    ensures few { result.1 < 2 ^ 63 }
{
    let first = hash / 2 / 65_536 * 65_536;
    (first, first + 65_535)
}
