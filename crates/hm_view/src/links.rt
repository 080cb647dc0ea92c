// Where links lead.
ghost use Rattle.std.specs.Prelude.{◌≡◌, IfOk};
ghost use Rattle.hm_key.specs.Counts.{Counts};
ghost use Rattle.hm_key.specs.Members.{InBalance, IsSame, KeepsFrame};
ghost use Rattle.hm_model.specs.Answer.{link_text};
ghost use Rattle.hm_records.specs.View.{IsTargetOf};
ghost use Rattle.hm_cursor.specs.Told.{OnBalanced, ReadsWithCause, fulls};
ghost use Rattle.hm_view.specs.Volumes.{IsTargetTold, OnVolumes, text_by};

use hm_cursor::{find_payload, find_record, target_base};
use hm_key::{ElementStore, Extents, HasElements, HasRoom};
use hm_records::{Inode, PFS_LINK, PfsRecord, SOFTLINK, decode_target};
use hm_types::{Counted, Fault, Id, MOST_TARGET_BYTES, NoMemory, Obj, Pfs, Text};
use std::alloc::Global;

/// The length of the longest text of a link to a pseudo file system, in bytes.
const MOST_LINK_BYTES: usize = 26;

/// The target of an object with this inode as of an id, as `readlink` tells it. A softlink's is its
/// bytes, none where it has no target. That of a link to a pseudo file system is told by the record
/// of now: `@@-1:NNNNN` for a master or where there is none, and `@@0x`, the 16 digits of the sync
/// end and `:NNNNN` for a slave. Other objects have an empty one.
///
/// `Damaged` at a target's payload, of kind 6, where that is not 1 to 1,023 bytes long, or at a
/// record's, where that spells none; `NoMemory` where an allocation was refused. The other faults
/// are those of the store.
pub fn target<T: ElementStore + Extents>(
    alloc: Global,
    store: &mut T,
    pfs: Pfs,
    object: Obj,
    inode: &Inode,
    as_of: Id,
) -> Result<Text, Fault>
    requires balanced { InBalance T.HasElements store.old }
    ensures ok { IfOk result (λ text. OnVolumes (T.elements store.old) (T.extents store.old)
        (IsTargetTold as_of.0 pfs.0 object inode.now text)) }
    ensures keeps { IsSame T.HasElements store.old store.new }
    ensures borrowed { KeepsFrame T.Counted store.old store.new }
    ensures cause { ReadsWithCause T.HasElements store.old store.new result }
{
    match inode.kind {
        SOFTLINK => softlink_target(alloc, store, pfs, object, as_of),
        PFS_LINK => pfs_link_text(alloc, store, inode.pfs),
        _ => Ok(Text::of(Vec::new(alloc))),
    }
}

/// The target of a softlink, which is empty where it has none.
pub(crate) fn softlink_target<T: ElementStore + Extents>(
    alloc: Global,
    store: &mut T,
    pfs: Pfs,
    object: Obj,
    as_of: Id,
) -> Result<Text, Fault>
    requires balanced { InBalance T.HasElements store.old }
    ensures ok { IfOk result (λ text. OnBalanced (T.elements store.old) (T.extents store.old)
        (λ lists. IsTargetOf (Counts (fulls lists) as_of.0) pfs.0 object.0 text)) }
    ensures keeps { IsSame T.HasElements store.old store.new }
    ensures borrowed { KeepsFrame T.Counted store.old store.new }
    ensures cause { ReadsWithCause T.HasElements store.old store.new result }
{
    let mut bytes = [0; MOST_TARGET_BYTES];
    match find_payload(store, &target_base(pfs, object), as_of, &mut bytes)? {
        Some((element, len)) => decode_target(alloc, element.payload, &bytes[..len]),
        None => Ok(Text::of(Vec::new(alloc))),
    }
}

// The text of a link to a pseudo file system.
fn pfs_link_text<T: ElementStore + Extents>(
    alloc: Global,
    store: &mut T,
    pfs: Pfs,
) -> Result<Text, Fault>
    requires balanced { InBalance T.HasElements store.old }
    ensures ok { IfOk result (λ text. OnVolumes (T.elements store.old) (T.extents store.old)
        (λ lists volume. text ≡ link_text volume pfs.0)) }
    ensures keeps { IsSame T.HasElements store.old store.new }
    ensures borrowed { KeepsFrame T.Counted store.old store.new }
    ensures cause { ReadsWithCause T.HasElements store.old store.new result }
{
    let found = find_record(alloc, store, pfs)?;
    Ok(text_by(alloc, &found, pfs)?)
}

// The text of a link to a pseudo file system with this record.
fn text_by(alloc: Global, found: &Option<PfsRecord>, pfs: Pfs) -> Result<Text, NoMemory>
    ensures { IfOk result (λ text. text ≡ text_by found.now pfs.0) }
{
    let number = pfs.0;
    let mut text = String::with_capacity(alloc, MOST_LINK_BYTES)?;
    match found {
        Some(slave) if !slave.master => {
            let sync_end = slave.sync_end;
            write!(text, "@@{sync_end}:{number:05}")?;
        }
        _ => write!(text, "@@-1:{number:05}")?,
    }
    Ok(Text::of(text.into_bytes()))
}
