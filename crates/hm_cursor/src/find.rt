// What counts about a subject, read from its payload.
ghost use Rattle.std.specs.Prelude.{◌≡◌, ◌≤◌, IfOk, IfSome, length};
ghost use Rattle.hm_key.specs.Counts.{subject_of};
ghost use Rattle.hm_key.specs.Key.{key_of};
ghost use Rattle.hm_key.specs.Members.{InBalance, IsSame, KeepsFrame};
ghost use Rattle.hm_cursor.specs.Told.{CountsBytes, HasSearchingCause, IsInodeThen, IsRecordNow, OnBalanced};
ghost use Rattle.hm_cursor.specs.Told.{ReadsWithCause};

use crate::payload::read_payload;
use crate::subject::{inode_base, record_base};
use crate::version::version_at;
use hm_key::{Base, Element, ElementStore, Extents, HasElements, HasRoom};
use hm_records::{Inode, PfsRecord, decode_inode, decode_pfs};
use hm_types::{BAD_PAYLOAD, Counted, Fault, Id, Obj, Pfs};
use std::alloc::Global;

/// The size of an inode's payload, in bytes.
const INODE_BYTES: usize = 32;

/// The size of the longest record of a pseudo file system, in bytes: one of 4,096 intervals.
const MOST_RECORD_BYTES: u32 = 65_568;

/// The element that counts about what `at` is about, as of an id, as `version_at` has it, and the
/// length of its payload, which is put at the front of a buffer. None exactly where nothing counts.
/// `Damaged` at the payload, of kind 6, where it is longer than the buffer: the caller's is as long
/// as what it asks for may be.
pub fn find_payload<T: ElementStore + Extents>(
    store: &mut T,
    at: &Base,
    as_of: Id,
    buffer: &mut [u8],
) -> Result<Option<(Element, usize)>, Fault>
    requires balanced { InBalance T.HasElements store.old }
    ensures fits { IfOk result (λ found. IfSome found (λ pair. pair.1 ≤ length buffer.new)) }
    ensures ok { IfOk result (λ found. OnBalanced (T.elements store.old) (T.extents store.old)
        (λ lists. CountsBytes lists as_of.0 (subject_of (key_of at.now)) buffer.new found)) }
    ensures keeps { IsSame T.HasElements store.old store.new }
    ensures borrowed { KeepsFrame T.Counted store.old store.new }
    ensures cause { HasSearchingCause (T.elements store.old) (T.extents store.old)
        (subject_of (key_of at.now)) (length buffer.old)
        (T.faults store.old) (T.faults store.new) result }
{
    let Some(element) = version_at(store, at, as_of)? else {
        return Ok(None);
    };
    let len = read_payload(store, &element, buffer)?;
    Ok(Some((element, len)))
}

/// The inode of an object as of an id, and None exactly where it has none. `Damaged` at its payload,
/// of kind 6, where that spells no inode. The other faults are those of the store. It takes no
/// memory of its own.
pub fn find_inode<T: ElementStore + Extents>(
    store: &mut T,
    pfs: Pfs,
    obj: Obj,
    as_of: Id,
) -> Result<Option<Inode>, Fault>
    requires balanced { InBalance T.HasElements store.old }
    ensures ok { IfOk result (λ found. OnBalanced (T.elements store.old) (T.extents store.old)
        (λ lists. IsInodeThen lists as_of.0 pfs.0 obj.0 found)) }
    ensures keeps { IsSame T.HasElements store.old store.new }
    ensures borrowed { KeepsFrame T.Counted store.old store.new }
    ensures cause { ReadsWithCause T.HasElements store.old store.new result }
{
    let mut bytes = [0; INODE_BYTES];
    match find_payload(store, &inode_base(pfs, obj), as_of, &mut bytes)? {
        Some((element, len)) => Ok(Some(decode_inode(element.payload, &bytes[..len])?)),
        None => Ok(None),
    }
}

/// The record of a pseudo file system, and None exactly where there is none. `Damaged` at its
/// payload, of kind 6, where that spells no record, and `NoMemory` where an allocation was refused.
/// The other faults are those of the store.
pub fn find_record<T: ElementStore + Extents>(
    alloc: Global,
    store: &mut T,
    pfs: Pfs,
) -> Result<Option<PfsRecord>, Fault>
    requires balanced { InBalance T.HasElements store.old }
    ensures ok { IfOk result (λ found. OnBalanced (T.elements store.old) (T.extents store.old)
        (λ lists. IsRecordNow lists pfs.0 found)) }
    ensures keeps { IsSame T.HasElements store.old store.new }
    ensures borrowed { KeepsFrame T.Counted store.old store.new }
    ensures cause { ReadsWithCause T.HasElements store.old store.new result }
{
    // A closed record is none: as of the greatest id the open ones are seen, and no others.
    let Some(element) = version_at(store, &record_base(pfs), Id(u64::MAX))? else {
        return Ok(None);
    };
    if element.len > MOST_RECORD_BYTES {
        return Err(Fault::Damaged {
            at: element.payload,
            kind: BAD_PAYLOAD,
        });
    }
    let mut bytes = Vec::from_elem(alloc, 0, element.len as usize)?;
    let len = read_payload(store, &element, &mut bytes)?;
    Ok(Some(decode_pfs(alloc, element.payload, &bytes[..len])?))
}
