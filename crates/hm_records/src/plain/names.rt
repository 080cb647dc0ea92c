// The triples of a tree.
ghost use Rattle.std.specs.Prelude.{◌≡◌, ◌≢◌, ◌≤◌, ◌↔◌, IfOk, IsTrue, None, insert, length};
ghost use Rattle.hm_types.specs.Tree.{insert_by, is_triple_before};
ghost use Rattle.hm_key.specs.Counts.{Counts};
ghost use Rattle.hm_key.specs.Versions.{HaveOwnKeys};
ghost use Rattle.hm_records.specs.PlainView.{
  HasTriple,
  HoldsTriples,
  IsEarlierEntry,
  IsEntryAt,
  IsLess,
  NameLeadsTo,
  IsNewTriple,
};

use crate::entry::{DirEntry, decode_entry};
use crate::plain::element::{FullElement, counted};
use crate::plain::subject::entry_of;
use hm_types::{Fault, HOff, Name, NoMemory, Obj, Pfs, Triple};
use std::alloc::Global;
use std::cmp::Ordering;

/// The triples of a pseudo file system, rising by directory and then by the bytes of the name.
pub(crate) fn triples_of(
    alloc: Global,
    elements: &[FullElement],
    pfs: Pfs,
    id: u64,
) -> Result<Vec<Triple>, NoMemory>
    requires { HaveOwnKeys elements.now }
    ensures { IfOk result (λ triples.
        HoldsTriples (Counts elements.now id) pfs.0 elements.now triples.items) }
{
    let mut triples: Vec<Triple> = Vec::new(alloc);
    for element in elements {
        if let Some(triple) = new_triple_of(alloc, elements, pfs, element, id, &triples)? {
            let place = place_of_triple(&triples, &triple);
            triples.insert(place, triple)?;
        }
    }
    Ok(triples)
}

// The triple of the name that an element's entry has, if it has one and the triple is not among
// these.
fn new_triple_of(
    alloc: Global,
    elements: &[FullElement],
    pfs: Pfs,
    element: &FullElement,
    id: u64,
    triples: &[Triple],
) -> Result<Option<Triple>, NoMemory>
    requires { HaveOwnKeys elements.now }
    ensures { IfOk result
        (IsNewTriple (Counts elements.now id) pfs.0 element.now triples.now) }
{
    let directory = element.obj();
    if !element.is_about(&entry_of(pfs, directory, element.key())) {
        return Ok(None);
    }
    let Some(entry) = entry_at(alloc, elements, pfs, directory, element.key(), id)? else {
        return Ok(None);
    };
    let DirEntry { obj: _, name } = entry;
    if has_triple(triples, directory, &name) {
        return Ok(None);
    }
    let Some(object) = first_entry(alloc, elements, pfs, directory, &name, id)? else {
        return Ok(None);
    };
    Ok(Some(Triple {
        directory,
        name,
        object,
    }))
}

// The object to which a directory's first entry of this name leads, if it has one.
fn first_entry(
    alloc: Global,
    elements: &[FullElement],
    pfs: Pfs,
    directory: Obj,
    name: &Name,
    id: u64,
) -> Result<Option<Obj>, NoMemory>
    requires { HaveOwnKeys elements.now }
    ensures { IfOk result (NameLeadsTo (Counts elements.now id) pfs.0 directory name.now) }
{
    let mut first: Option<u64> = None;
    for element in elements {
        if is_earlier_entry(alloc, elements, pfs, directory, name, id, first, element)? {
            first = Some(element.key());
        }
    }
    let Some(key) = first else {
        return Ok(None);
    };
    let Some(entry) = entry_at(alloc, elements, pfs, directory, key, id)? else {
        return Ok(None);
    };
    Ok(Some(entry.obj))
}

// Whether an element is about an entry of this name, of which the key is below another one.
fn is_earlier_entry(
    alloc: Global,
    elements: &[FullElement],
    pfs: Pfs,
    directory: Obj,
    name: &Name,
    id: u64,
    first: Option<u64>,
    element: &FullElement,
) -> Result<bool, NoMemory>
    requires { HaveOwnKeys elements.now }
    ensures { IfOk result (λ earlier. IsTrue earlier ↔ IsEarlierEntry (Counts elements.now id)
        pfs.0 directory name.now first element.now) }
{
    let key = element.key();
    if !element.is_about(&entry_of(pfs, directory, key)) {
        return Ok(false);
    }
    if !is_less(key, first) {
        return Ok(false);
    }
    match entry_at(alloc, elements, pfs, directory, key, id)? {
        Some(entry) => Ok(entry.name == *name),
        None => Ok(false),
    }
}

// Whether a number is below another one, or there is no other.
fn is_less(number: u64, other: Option<u64>) -> bool
    ensures { IsTrue result ↔ IsLess number other }
{
    match other {
        Some(other) => number < other,
        None => true,
    }
}

// The entry that a directory has under a key, if it has one.
fn entry_at(
    alloc: Global,
    elements: &[FullElement],
    pfs: Pfs,
    directory: Obj,
    key: u64,
    id: u64,
) -> Result<Option<DirEntry>, NoMemory>
    requires { HaveOwnKeys elements.now }
    ensures { IfOk result (IsEntryAt (Counts elements.now id) pfs.0 directory key) }
{
    let Some(bytes) = counted(elements, &entry_of(pfs, directory, key), id) else {
        return Ok(None);
    };
    match decode_entry(alloc, HOff::default(), bytes) {
        Ok(entry) => Ok(Some(entry)),
        Err(fault) => unless_no_memory(fault),
    }
}

// No entry, where the fault is not that an allocation was refused.
fn unless_no_memory(fault: Fault) -> Result<Option<DirEntry>, NoMemory>
    ensures { IfOk result (λ entry. (entry ≡ None) × (fault ≢ Fault.NoMemory)) }
{
    match fault {
        Fault::NoMemory => Err(NoMemory),
        _ => Ok(None),
    }
}

// Whether one of the triples is this directory's of this name.
fn has_triple(triples: &[Triple], directory: Obj, name: &Name) -> bool
    ensures { IsTrue result ↔ HasTriple triples.now directory name.now }
{
    triples
        .iter()
        .any(|t| t.directory == directory && t.name == *name)
}

// Where the triple goes among those that rise by directory and name.
fn place_of_triple(triples: &[Triple], triple: &Triple) -> usize
    ensures within { result ≤ length triples.now }
    ensures place { insert triples.now result triple.now
        ≡ insert_by is_triple_before triple.now triples.now }
{
    for (i, other) in triples.iter().enumerate() {
        if is_before(triple, other) {
            return i;
        }
    }
    triples.len()
}

fn is_before(triple: &Triple, other: &Triple) -> bool
    ensures { result ≡ is_triple_before triple.now other.now }
{
    let order = triple
        .directory
        .cmp(&other.directory)
        .then(triple.name.cmp(&other.name));
    order == Ordering::Less
}
