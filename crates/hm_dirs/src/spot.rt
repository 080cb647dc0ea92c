// Where the entry of a new name is put: collision numbers tell apart the entries of names with one
// hash.
ghost use Rattle.std.specs.Prelude.{◌≡◌, ℕ, ◌+◌, ◌^◌, ◌<◌, ◌≤◌, ◌↔◌, List, IfOk, IfSome, IsTrue};
ghost use Rattle.std.specs.List.{Contains};
ghost use Rattle.hm_types.specs.Tree.{FileTree};
ghost use Rattle.hm_key.specs.Counts.{Counts};
ghost use Rattle.hm_key.specs.Members.{HasContentCause, InBalance, IsSame, KeepsFrame};
ghost use Rattle.hm_records.specs.View.{IsViewOf};
ghost use Rattle.hm_cursor.specs.Told.{OnBalanced, ReadsWithCause, fulls};
ghost use Rattle.hm_dirs.specs.Entries.{IsFewEntries, IsFewNames, IsFreeKey, IsHiddenKey, IsLeastKey, IsNextName};
ghost use Rattle.hm_dirs.specs.Entries.{IsNoted};
ghost use Rattle.hm_dirs.specs.Names.{IsSpotFor, OnNamed};

use crate::entry::read_name;
use crate::hash::{NameHash, keys_of};
use hm_cursor::{entry_base, first_version};
use hm_key::{ElementStore, Extents, HasElements, HasRoom};
use hm_types::{Counted, Fault, Id, Name, NoMemory, Obj, Pfs};
use std::alloc::Global;

/// How many collision numbers are given to the names of one hash: 0 to 1,023.
const NUMBERS: u64 = 1_024;

/// A key for the entry of a new name.
#[derive(Clone, Copy, Debug, PartialEq, Eq)]
pub struct Spot {
    pub key: u64,
    /// Whether an entry stands there that is hidden behind another one of its name.
    pub hidden: bool,
}

/// A key for the entry of a new name in a directory, with a collision number below 1,024: one under
/// which no entry is there as of an id, or else one whose entry is hidden. None exactly where the
/// directory has 1,024 names of the hash or more, however many entries they have.
///
/// Where fewer than 1,024 entries have the hash it takes the searches of each of them twice. Where
/// more have it, their names are held in memory: 1,024 at most.
///
/// `Damaged` at the payload of an entry of the name's hash, of kind 6, where that spells none, and
/// `NoMemory` where an allocation was refused. The other faults are those of the store.
pub fn find_spot<T: ElementStore + Extents, H: NameHash>(
    alloc: Global,
    store: &mut T,
    hash: &H,
    pfs: Pfs,
    directory: Obj,
    name: &[u8],
    as_of: Id,
) -> Result<Option<Spot>, Fault>
    requires balanced { InBalance T.HasElements store.old }
    ensures ok { IfOk result (λ found. OnNamed (H.hash_of hash.now)
        (T.elements store.old) (T.extents store.old) (λ lists. (tree : FileTree) →
        IsViewOf (fulls lists) pfs.0 as_of.0 tree →
        IsSpotFor (H.hash_of hash.now) (Counts (fulls lists) as_of.0) tree pfs.0 directory
        name.now found)) }
    ensures keeps { IsSame T.HasElements store.old store.new }
    ensures borrowed { KeepsFrame T.Counted store.old store.new }
    ensures cause { ReadsWithCause T.HasElements store.old store.new result }
{
    let (first, _) = keys_of(hash.hash(name));
    if !has_few_names(alloc, store, pfs, directory, first, as_of)? {
        return Ok(None);
    }
    if let Some(key) = free_key(store, pfs, directory, first, as_of)? {
        return Ok(Some(Spot { key, hidden: false }));
    }
    match hidden_key(alloc, store, pfs, directory, first, as_of)? {
        Some(key) => Ok(Some(Spot { key, hidden: true })),
        None => Ok(None),
    }
}

// Whether a directory has fewer than 1,024 names under the keys of a hash, from its least one on.
fn has_few_names<T: ElementStore + Extents>(
    alloc: Global,
    store: &mut T,
    pfs: Pfs,
    directory: Obj,
    first: u64,
    as_of: Id,
) -> Result<bool, Fault>
    requires first { IsLeastKey first }
    requires balanced { InBalance T.HasElements store.old }
    ensures ok { IfOk result (λ few. (hash : List ℕ → ℕ) → OnNamed hash
        (T.elements store.old) (T.extents store.old)
        (IsFewNames as_of.0 pfs.0 directory first few)) }
    ensures keeps { IsSame T.HasElements store.old store.new }
    ensures borrowed { KeepsFrame T.Counted store.old store.new }
    ensures cause { ReadsWithCause T.HasElements store.old store.new result }
{
    if has_few_entries(store, pfs, directory, first, as_of)? {
        return Ok(true);
    }
    has_few_leading(alloc, store, pfs, directory, first, as_of)
}

// Whether a directory has fewer than 1,024 entries under the keys of a hash, from its least one on.
fn has_few_entries<T: ElementStore + Extents>(
    store: &mut T,
    pfs: Pfs,
    directory: Obj,
    first: u64,
    as_of: Id,
) -> Result<bool, Fault>
    requires first { first < 2 ^ 63 }
    requires balanced { InBalance T.HasElements store.old }
    ensures ok { IfOk result (λ few. OnBalanced (T.elements store.old) (T.extents store.old)
        (IsFewEntries as_of.0 pfs.0 directory first few)) }
    ensures keeps { IsSame T.HasElements store.old store.new }
    ensures borrowed { KeepsFrame T.Counted store.old store.new }
    ensures cause { HasContentCause T.HasElements store.old store.new result }
{
    let last = first + 65_535;
    let mut key = first;
    let mut count = 0_u64;
    while key <= last {
        let at = entry_base(pfs, directory, key);
        let Some(entry) = first_version(store, &at, last, as_of)? else {
            return Ok(true);
        };
        count += 1;
        if count == NUMBERS {
            return Ok(false);
        }
        key = entry.base.key + 1;
    }
    Ok(true)
}

// Whether these entries have fewer than 1,024 names.
fn has_few_leading<T: ElementStore + Extents>(
    alloc: Global,
    store: &mut T,
    pfs: Pfs,
    directory: Obj,
    first: u64,
    as_of: Id,
) -> Result<bool, Fault>
    requires first { IsLeastKey first }
    requires balanced { InBalance T.HasElements store.old }
    ensures ok { IfOk result (λ few. (hash : List ℕ → ℕ) → OnNamed hash
        (T.elements store.old) (T.extents store.old)
        (IsFewNames as_of.0 pfs.0 directory first few)) }
    ensures keeps { IsSame T.HasElements store.old store.new }
    ensures borrowed { KeepsFrame T.Counted store.old store.new }
    ensures cause { ReadsWithCause T.HasElements store.old store.new result }
{
    let last = first + 65_535;
    let mut names = Vec::new(alloc);
    let mut key = first;
    while key <= last {
        let Some((at, name)) = next_name(alloc, store, pfs, directory, key, last, as_of)? else {
            return Ok(true);
        };
        add_new(&mut names, name)?;
        if names.len() == NUMBERS as usize {
            return Ok(false);
        }
        key = at + 1;
    }
    Ok(true)
}

// A key under which no entry is there, of those with a collision number from the least key of a
// hash on. None exactly where all 1,024 numbers have one.
fn free_key<T: ElementStore + Extents>(
    store: &mut T,
    pfs: Pfs,
    directory: Obj,
    first: u64,
    as_of: Id,
) -> Result<Option<u64>, Fault>
    requires first { first < 2 ^ 63 }
    requires balanced { InBalance T.HasElements store.old }
    ensures ok { IfOk result (λ found. OnBalanced (T.elements store.old) (T.extents store.old)
        (IsFreeKey as_of.0 pfs.0 directory first found)) }
    ensures keeps { IsSame T.HasElements store.old store.new }
    ensures borrowed { KeepsFrame T.Counted store.old store.new }
    ensures cause { HasContentCause T.HasElements store.old store.new result }
{
    let end = first + NUMBERS;
    let mut key = first;
    while key < end {
        match first_version(store, &entry_base(pfs, directory, key), end - 1, as_of)? {
            Some(entry) if entry.base.key == key => key += 1,
            _ => return Ok(Some(key)),
        }
    }
    Ok(None)
}

// The first key with a collision number whose entry is hidden. None where each of these leads.
fn hidden_key<T: ElementStore + Extents>(
    alloc: Global,
    store: &mut T,
    pfs: Pfs,
    directory: Obj,
    first: u64,
    as_of: Id,
) -> Result<Option<u64>, Fault>
    requires first { IsLeastKey first }
    requires balanced { InBalance T.HasElements store.old }
    ensures ok { IfOk result (λ found. (hash : List ℕ → ℕ) → OnNamed hash
        (T.elements store.old) (T.extents store.old)
        (IsHiddenKey as_of.0 pfs.0 directory first found)) }
    ensures keeps { IsSame T.HasElements store.old store.new }
    ensures borrowed { KeepsFrame T.Counted store.old store.new }
    ensures cause { ReadsWithCause T.HasElements store.old store.new result }
{
    let end = first + NUMBERS;
    let mut names = Vec::new(alloc);
    let mut key = first;
    while key < end {
        let Some((at, name)) = next_name(alloc, store, pfs, directory, key, end - 1, as_of)? else {
            return Ok(None);
        };
        if !add_new(&mut names, name)? {
            return Ok(Some(at));
        }
        key = at + 1;
    }
    Ok(None)
}

// The key of the first entry from one key to another, and its name. None exactly where there is no
// entry.
fn next_name<T: ElementStore + Extents>(
    alloc: Global,
    store: &mut T,
    pfs: Pfs,
    directory: Obj,
    key: u64,
    last: u64,
    as_of: Id,
) -> Result<Option<(u64, Name)>, Fault>
    requires balanced { InBalance T.HasElements store.old }
    ensures between { IfOk result (λ found. IfSome found (λ pair.
        (key ≤ pair.0) × (pair.0 ≤ last))) }
    ensures ok { IfOk result (λ found. OnBalanced (T.elements store.old) (T.extents store.old)
        (IsNextName as_of.0 pfs.0 directory key last found)) }
    ensures keeps { IsSame T.HasElements store.old store.new }
    ensures borrowed { KeepsFrame T.Counted store.old store.new }
    ensures cause { ReadsWithCause T.HasElements store.old store.new result }
{
    let at = entry_base(pfs, directory, key);
    let Some(entry) = first_version(store, &at, last, as_of)? else {
        return Ok(None);
    };
    let name = read_name(alloc, store, &entry)?;
    Ok(Some((entry.base.key, name)))
}

// Adds a name to a list that lacks it, and tells whether it did.
fn add_new(names: &mut Vec<Name>, name: Name) -> Result<bool, NoMemory>
    ensures { IfOk result (IsNoted names.old.items name names.new.items) }
{
    if is_among(names, &name) {
        return Ok(false);
    }
    names.push(name)?;
    Ok(true)
}

// Whether a list has a name.
fn is_among(names: &[Name], name: &Name) -> bool
    ensures { IsTrue result ↔ Contains names.now name.now }
{
    names.contains(name)
}
