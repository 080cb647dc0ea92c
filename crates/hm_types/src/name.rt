// The name of a directory entry.
ghost use Rattle.std.specs.Prelude.{◌≡◌, ◌≢◌, ◌↔◌, ◌≤◌, ◌⊎◌, true, false, codes, length, IsTrue};
ghost use Rattle.hm_types.specs.Name.{IsName, IsNameByte, LacksId};

use crate::limits::MOST_NAME_BYTES;
use std::alloc::AllocError;
use std::cmp::Ordering;
use std::marker::Model;

/// The name of a directory entry. A contract sees the list of its bytes, and names are in the order
/// of their bytes.
#[derive(Debug, Drop)]
pub struct Name {
    bytes: Vec<u8>,
}

impl Model for Name {
    ghost use Rattle.std.specs.Prelude.{ℕ, List};

    ghost Value = { List ℕ };

    ghost view = { λ n. n.bytes.items };
}

impl Name {
    /// Takes no memory, as `bytes` does not. `is_name` is the test of what may be a name.
    pub fn of(bytes: Vec<u8>) -> Name
        ensures { result ≡ bytes.items }
    {
        Name { bytes }
    }

    pub fn bytes(&self) -> &[u8]
        ensures { result.now ≡ self.now }
    {
        &self.bytes
    }
}

/// Whether a directory entry may have this name: 1 to 255 bytes, none of them a blank, a control byte,
/// a slash or a delete, without `@@`, and neither `.` nor `..`.
pub fn is_name(bytes: &[u8]) -> bool
    ensures { IsTrue result ↔ IsName bytes.now }
{
    has_name_size(bytes)
        && bytes.iter().all(|b| is_name_byte(*b))
        && lacks_id(bytes)
        && !is_dot_or_dots(bytes)
}

fn has_name_size(bytes: &[u8]) -> bool
    ensures { IsTrue result ↔ (1 ≤ length bytes.now) × (length bytes.now ≤ MOST_NAME_BYTES) }
{
    1 <= bytes.len() && bytes.len() <= MOST_NAME_BYTES
}

// Whether a byte may stand in a name.
fn is_name_byte(b: u8) -> bool
    ensures { IsTrue result ↔ IsNameByte b }
{
    b > 0x20 && b != 0x2F && b != 0x7F
}

// Whether no `@@` stands in these bytes.
fn lacks_id(bytes: &[u8]) -> bool
    ensures { IsTrue result ↔ LacksId bytes.now }
{
    for i in 1..bytes.len() {
        if bytes[i - 1] == b'@' && bytes[i] == b'@' {
            return false;
        }
    }
    true
}

// Whether these bytes are `.` or `..`, which name the directory itself and its parent elsewhere.
fn is_dot_or_dots(bytes: &[u8]) -> bool
    ensures no { result ≡ false → (bytes.now ≢ codes ".") × (bytes.now ≢ codes "..") }
    ensures yes { result ≡ true → (bytes.now ≡ codes ".") ⊎ (bytes.now ≡ codes "..") }
{
    bytes == b".".as_slice() || bytes == b"..".as_slice()
}

impl Clone for Name {
    ghost is_clone = { λ name copy. copy ≡ name };

    fn clone(&self) -> Result<Name, AllocError> {
        Ok(Name::of(self.bytes.clone()?))
    }
}

impl PartialEq for Name {
    ghost use Rattle.std.specs.Str.{bytes_eq};
    ghost use Rattle.std.specs.Cmp.{partial_equiv_from_equiv};
    ghost use Rattle.std.proofs.lemmas.Cmp.{nat_list_eq_equiv};

    ghost eq = { bytes_eq };

    ghost laws = { partial_equiv_from_equiv nat_list_eq_equiv };

    fn eq(&self, other: &Name) -> bool {
        self.bytes.as_slice() == other.bytes.as_slice()
    }
}

impl Eq for Name {
    ghost use Rattle.std.proofs.lemmas.Cmp.{nat_list_eq_equiv};

    ghost laws = { nat_list_eq_equiv };
}

impl PartialOrd for Name {
    ghost use Rattle.std.specs.Prelude.{Some};
    ghost use Rattle.std.specs.Ordering.{nat_cmp};
    ghost use Rattle.std.specs.Cmp.Lexicographic.{slice_cmp, texts_po};

    ghost partial_cmp = { λ a b. Some (slice_cmp nat_cmp a b) };

    ghost laws = { texts_po };

    fn partial_cmp(&self, other: &Name) -> Option<Ordering> {
        Some(self.cmp(other))
    }
}

impl Ord for Name {
    ghost use Rattle.std.specs.Prelude.{refl};
    ghost use Rattle.std.specs.Ordering.{nat_cmp};
    ghost use Rattle.std.specs.Cmp.Lexicographic.{slice_cmp, nat_list_cmp_total, texts_ties};

    ghost cmp = { slice_cmp nat_cmp };

    ghost total = { nat_list_cmp_total };

    ghost matches_partial_cmp = { λ _ _. refl };

    ghost matches_eq = { texts_ties };

    fn cmp(&self, other: &Name) -> Ordering {
        self.bytes.as_slice().cmp(other.bytes.as_slice())
    }
}
