// The bytes of one block that are put in place of what it had.
ghost use Rattle.std.specs.Prelude.{◌≡◌, ◌+◌, ◌*◌, ◌%◌, ◌^◌, ◌<◌, ◌≤◌, Some, OnOk, length};
ghost use Rattle.hm_key.specs.Counts.{bytes_subject, subject_of};
ghost use Rattle.hm_key.specs.Key.{key_of};
ghost use Rattle.hm_key.specs.Members.{HasContentCause, InBalance, KeepsFrame, KeepsTold, SpendsAtMost};
ghost use Rattle.hm_cursor.specs.Write.{FollowWith, HasRoomFor, IsFresh, IsNew, Rewrites, taken, WritesStore};
ghost use Rattle.hm_files.specs.Close.{AreOlderIn};
ghost use Rattle.hm_files.specs.Put.{HasBlockRoom, PutsBlock, block_space, zone_of};

use crate::block::bytes_base;
use crate::close::clear_block;
use hm_cursor::{add_version, renew_version, version_at};
use hm_key::{Base, ElementStore, Extents, HasElements, HasRoom};
use hm_types::{BLOCK_BYTES, Counted, Fault, Id, LARGE_ZONE, Obj, Pfs, SMALL_ZONE};

/// Lets a block of a file of a size have these bytes from an id on: at least one, at most a block.
/// What showed in it is closed. It takes at most 40,960 bytes of zone 8, and those of the bytes in zone 10 for a whole
/// block, and in zone 11 else. The faults are those of the store; after one nothing is known of the
/// content.
pub(crate) fn put_block<T: ElementStore + Extents>(
    store: &mut T,
    pfs: Pfs,
    obj: Obj,
    size: u64,
    begin: u64,
    bytes: &[u8],
    id: Id,
) -> Result<(), Fault>
    requires id { 1 ≤ id.0 }
    requires block { (begin % BLOCK_BYTES ≡ 0) × (begin + 2 * BLOCK_BYTES < 2 ^ 64) }
    requires sized { (1 ≤ length bytes.now) × (length bytes.now ≤ BLOCK_BYTES) }
    requires balanced { InBalance T.HasElements store.old }
    requires older { AreOlderIn (T.elements store.old) (T.extents store.old)
        pfs.0 obj.0 id.0 (begin + 1) }
    requires room { HasBlockRoom (T.room store.old) 1 }
    ensures ok { OnOk result (WritesStore T.HasElements
        (PutsBlock pfs.0 obj.0 id.0 begin bytes.now) store.old store.new) }
    ensures keeps { KeepsTold T.HasElements store.old store.new result }
    ensures space { SpendsAtMost T.HasElements (block_space 1) store.old store.new }
    ensures borrowed { KeepsFrame T.Counted store.old store.new }
    ensures cause { HasContentCause T.HasElements store.old store.new result }
{
    let end = begin + bytes.len() as u64;
    clear_block(store, pfs, obj, size, begin, end, id)?;
    let base = Base {
        create: id.0,
        ..bytes_base(pfs, obj, end)
    };
    put_version(store, &base, zone_of(bytes.len()), bytes)
}

// Adds an element and its payload, as `add_version` does, and closes the one that counted, so that
// versions which followed one another do so still.
fn put_version<T: ElementStore + Extents>(
    store: &mut T,
    base: &Base,
    zone: u8,
    bytes: &[u8],
) -> Result<(), Fault>
    requires new { IsNew base.now zone bytes.now }
    requires balanced { InBalance T.HasElements store.old }
    requires fresh { IsFresh (T.elements store.old) (T.extents store.old)
        (subject_of (key_of base.now)) base.now.create }
    requires room { HasRoomFor (T.room store.old) zone bytes.now }
    ensures ok { OnOk result (WritesStore T.HasElements
        (Rewrites (subject_of (key_of base.now)) (Some bytes.now) base.now.create)
        store.old store.new) }
    ensures follows { OnOk result (WritesStore T.HasElements
        (FollowWith (subject_of (key_of base.now)) bytes.now base.now.create)
        store.old store.new) }
    ensures keeps { KeepsTold T.HasElements store.old store.new result }
    ensures space { SpendsAtMost T.HasElements (taken zone bytes.now) store.old store.new }
    ensures borrowed { KeepsFrame T.Counted store.old store.new }
    ensures cause { HasContentCause T.HasElements store.old store.new result }
{
    match version_at(store, base, Id(base.create))? {
        Some(old) => renew_version(store, &old.base, base, zone, bytes),
        None => add_version(store, base, zone, bytes),
    }
}

// The zone of so many bytes.
fn zone_of(len: usize) -> u8
    ensures { result ≡ zone_of len }
{
    if len < BLOCK_BYTES {
        SMALL_ZONE
    } else {
        LARGE_ZONE
    }
}
