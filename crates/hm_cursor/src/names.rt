// The names of a directory.
ghost use Rattle.std.specs.Prelude.{◌≡◌, IfErr, IfOk, IfSome, List, ℕ};
ghost use Rattle.hm_types.specs.Faults.{HasFaultCause};
ghost use Rattle.hm_key.specs.Balance.{IsHeld, payload_of};
ghost use Rattle.hm_key.specs.Counts.{Counts, entry_subject};
ghost use Rattle.hm_key.specs.Members.{InBalance, IsSame, KeepsFrame};
ghost use Rattle.hm_records.specs.KeysFit.{KeysFit};
ghost use Rattle.hm_cursor.specs.Names.{IsBehind, LeadsAt, IsNameIn, IsNoEntry, IsObjectNamed, IsPreviousName};
ghost use Rattle.hm_cursor.specs.Told.{OnBalanced, ReadsWithCause, fulls};
ghost use Rattle.hm_cursor.specs.Version.{IsNewestOf};

use crate::payload::read_payload;
use crate::subject::entry_base;
use crate::version::last_version;
use hm_key::{Element, ElementStore, Extents, HasElements, HasRoom};
use hm_records::{DirEntry, entry_parts};
use hm_types::{BAD_PAYLOAD, Counted, Fault, Id, Name, Obj, Pfs};
use std::alloc::Global;

/// The size of the longest payload of an entry, in bytes.
const MOST_ENTRY_BYTES: usize = 263;

/// How many keys the entries of names with one hash may have.
const HASH_KEYS: u64 = 65_536;

/// The object that an entry leads to, where it has this name. `Damaged` at its payload, of kind 6,
/// where that spells no entry. The other faults are those of the store. It takes no memory of its
/// own.
pub fn object_named<T: Extents>(
    store: &mut T,
    entry: &Element,
    name: &[u8],
) -> Result<Option<Obj>, Fault>
    requires held { IfSome (T.extents store.old) (λ xs. IsHeld xs entry.now) }
    ensures ok { IfSome (T.extents store.old) (λ xs.
        IfOk result (IsObjectNamed (payload_of xs entry.now) name.now)) }
    ensures keeps { IsSame T.HasElements store.old store.new }
    ensures borrowed { KeepsFrame T.Counted store.old store.new }
    ensures counted { HasFaultCause (T.faults store.old) (T.faults store.new) result }
    ensures damage { IfSome (T.extents store.old) (λ xs. IfErr result (IsNoEntry xs entry.now)) }
{
    let mut bytes = [0; MOST_ENTRY_BYTES];
    let len = read_payload(store, entry, &mut bytes)?;
    match entry_parts(&bytes[..len]) {
        Some((object, found)) if found == name => Ok(Some(object)),
        Some(_) => Ok(None),
        None => Err(Fault::Damaged {
            at: entry.payload,
            kind: BAD_PAYLOAD,
        }),
    }
}

/// The key of a directory's first entry of a name as of an id, among those with a key from `first`
/// to `last`, and the object that it leads to. None exactly where none of them has the name. It
/// goes from the last key down to the first, and takes no memory of its own. For each entry it takes
/// the searches of `last_version` and one read, and one search more where none stands under `first`.
///
/// `Damaged` at the payload of one of these entries, of kind 6, where that spells none. The other
/// faults are those of the store.
pub fn find_name<T: ElementStore + Extents>(
    store: &mut T,
    pfs: Pfs,
    directory: Obj,
    first: u64,
    last: u64,
    name: &[u8],
    as_of: Id,
) -> Result<Option<(u64, Obj)>, Fault>
    requires balanced { InBalance T.HasElements store.old }
    ensures ok { IfOk result (λ found. OnBalanced (T.elements store.old) (T.extents store.old)
        (λ lists. IsNameIn (Counts (fulls lists) as_of.0) pfs.0 directory first last
        name.now found)) }
    ensures keeps { IsSame T.HasElements store.old store.new }
    ensures borrowed { KeepsFrame T.Counted store.old store.new }
    ensures cause { ReadsWithCause T.HasElements store.old store.new result }
{
    let mut found = None;
    let mut key = last;
    while first <= key {
        let at = entry_base(pfs, directory, key);
        let Some(entry) = last_version(store, &at, first, as_of)? else {
            return Ok(found);
        };
        if let Some(object) = object_named(store, &entry, name)? {
            found = Some((entry.base.key, object));
        }
        if entry.base.key == first {
            return Ok(found);
        }
        key = entry.base.key - 1;
    }
    Ok(found)
}

/// The last name of a directory as of an id, in the order of keys, among the entries that lead with
/// a key from `first` to `last`: the entry, and its key. Of several entries of one name the first in
/// the order of keys leads, and the others are hidden behind it. None exactly where none of them
/// leads. It holds where the keys of all entries fit their names. An entry with collision number 0
/// leads without a further look; for another one the entries of its hash that stand before it are
/// read.
///
/// `Damaged` at the payload of an entry, of kind 6, where that spells none, and `NoMemory` where an
/// allocation was refused. The other faults are those of the store.
pub fn previous_name<T: ElementStore + Extents>(
    alloc: Global,
    store: &mut T,
    pfs: Pfs,
    directory: Obj,
    first: u64,
    last: u64,
    as_of: Id,
) -> Result<Option<(u64, DirEntry)>, Fault>
    requires balanced { InBalance T.HasElements store.old }
    ensures ok { IfOk result (λ found. OnBalanced (T.elements store.old) (T.extents store.old)
        (λ lists. (hash : List ℕ → ℕ) → KeysFit hash (fulls lists) →
        IsPreviousName (Counts (fulls lists) as_of.0) pfs.0 directory first last found)) }
    ensures keeps { IsSame T.HasElements store.old store.new }
    ensures borrowed { KeepsFrame T.Counted store.old store.new }
    ensures cause { ReadsWithCause T.HasElements store.old store.new result }
{
    let mut key = last;
    while first <= key {
        let at = entry_base(pfs, directory, key);
        let Some(element) = last_version(store, &at, first, as_of)? else {
            return Ok(None);
        };
        if let Some(entry) = leading_entry(alloc, store, pfs, directory, &element, as_of)? {
            return Ok(Some((element.base.key, entry)));
        }
        if element.base.key == first {
            return Ok(None);
        }
        key = element.base.key - 1;
    }
    Ok(None)
}

// The entry that an element of a directory spells, where it leads, and None where it is hidden.
fn leading_entry<T: ElementStore + Extents>(
    alloc: Global,
    store: &mut T,
    pfs: Pfs,
    directory: Obj,
    element: &Element,
    as_of: Id,
) -> Result<Option<DirEntry>, Fault>
    requires balanced { InBalance T.HasElements store.old }
    requires counts { IfSome (T.elements store.old) (λ es. IsNewestOf es
        (entry_subject pfs.0 directory.0 element.now.base.key) as_of.0 element.now) }
    ensures ok { IfOk result (λ found. OnBalanced (T.elements store.old) (T.extents store.old)
        (λ lists. LeadsAt lists as_of.0 pfs.0 directory element.now.base.key found)) }
    ensures keeps { IsSame T.HasElements store.old store.new }
    ensures borrowed { KeepsFrame T.Counted store.old store.new }
    ensures cause { ReadsWithCause T.HasElements store.old store.new result }
{
    let mut bytes = [0; MOST_ENTRY_BYTES];
    let len = read_payload(store, element, &mut bytes)?;
    let Some((obj, name)) = entry_parts(&bytes[..len]) else {
        return Err(Fault::Damaged {
            at: element.payload,
            kind: BAD_PAYLOAD,
        });
    };
    if is_hidden(store, pfs, directory, element.base.key, name, as_of)? {
        return Ok(None);
    }
    Ok(Some(DirEntry {
        obj,
        name: Name::of(Vec::from_slice(alloc, name)?),
    }))
}

// Whether an entry of a name stands before a key, under the keys of its hash. The first of these
// keys has none before it, and then nothing is asked of the store.
fn is_hidden<T: ElementStore + Extents>(
    store: &mut T,
    pfs: Pfs,
    directory: Obj,
    key: u64,
    name: &[u8],
    as_of: Id,
) -> Result<bool, Fault>
    requires balanced { InBalance T.HasElements store.old }
    ensures ok { IfOk result (λ hidden. OnBalanced (T.elements store.old) (T.extents store.old)
        (λ lists. IsBehind (Counts (fulls lists) as_of.0) pfs.0 directory key name.now hidden)) }
    ensures keeps { IsSame T.HasElements store.old store.new }
    ensures borrowed { KeepsFrame T.Counted store.old store.new }
    ensures cause { ReadsWithCause T.HasElements store.old store.new result }
{
    let first = key / HASH_KEYS * HASH_KEYS;
    if first == key {
        return Ok(false);
    }
    Ok(find_name(store, pfs, directory, first, key - 1, name, as_of)?.is_some())
}
