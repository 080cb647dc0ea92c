// Bytes that are cut off a file.
ghost use Rattle.std.specs.Prelude.{◌≡◌, ◌↔◌, ◌+◌, ◌*◌, ◌^◌, ◌<◌, ◌≤◌, IsSomeAnd, IsTrue, OnOk};
ghost use Rattle.hm_key.specs.Members.{HasContentCause, InBalance, KeepsFrame, KeepsTold, SpendsAtMost};
ghost use Rattle.hm_cursor.specs.Write.{WritesStore};
ghost use Rattle.hm_files.specs.Bytes.{block_end};
ghost use Rattle.hm_files.specs.Close.{AreOlderIn};
ghost use Rattle.hm_files.specs.Put.{CutsBytes, HasBlockRoom, ResizesBytes, block_space};

use crate::block::bytes_base;
use crate::close::close_between;
use crate::put::put_block;
use crate::read::read_all;
use crate::search::nearest_version;
use hm_key::{Element, ElementStore, Extents, HasElements, HasRoom};
use hm_types::{BLOCK_BYTES, Counted, Fault, Id, MOST_FILE_BYTES, Obj, Pfs};

/// Lets a file of a size have another one, at most 15,728,640, from an id of 1 or more on: what is
/// past the lesser of both is closed, so that it never shows again, and the block in which that lies
/// keeps what is before it. The inode, which says the size, is the caller's. It takes at most 40,960
/// bytes of zone 8 and a block of the zones 10 and 11, and from there on a search for each length that
/// its blocks had, and one more for each that it closes. The faults are those of the store; after one
/// nothing is known of the content.
pub fn resize_bytes<T: ElementStore + Extents>(
    store: &mut T,
    pfs: Pfs,
    obj: Obj,
    size: u64,
    new_size: u64,
    id: Id,
) -> Result<(), Fault>
    requires id { 1 ≤ id.0 }
    requires size { new_size ≤ MOST_FILE_BYTES }
    requires balanced { InBalance T.HasElements store.old }
    requires older { AreOlderIn (T.elements store.old) (T.extents store.old)
        pfs.0 obj.0 id.0 0 }
    requires room { HasBlockRoom (T.room store.old) 1 }
    ensures ok { OnOk result (WritesStore T.HasElements
        (ResizesBytes pfs.0 obj.0 id.0 size new_size) store.old store.new) }
    ensures keeps { KeepsTold T.HasElements store.old store.new result }
    ensures space { SpendsAtMost T.HasElements (block_space 1) store.old store.new }
    ensures borrowed { KeepsFrame T.Counted store.old store.new }
    ensures cause { HasContentCause T.HasElements store.old store.new result }
{
    cut_bytes(store, pfs, obj, size, size.min(new_size), u64::MAX, id)
}

/// Lets the bytes of a file of a size be zero from an offset on that is no greater, at most 15,728,640,
/// in each block that ends by `until`, from an id of 1 or more on. The offset's own block is one.
pub(crate) fn cut_bytes<T: ElementStore + Extents>(
    store: &mut T,
    pfs: Pfs,
    obj: Obj,
    size: u64,
    keep: u64,
    until: u64,
    id: Id,
) -> Result<(), Fault>
    requires id { 1 ≤ id.0 }
    requires keep { (keep ≤ size) × (keep ≤ MOST_FILE_BYTES) }
    requires until { block_end keep ≤ until }
    requires balanced { InBalance T.HasElements store.old }
    requires older { AreOlderIn (T.elements store.old) (T.extents store.old)
        pfs.0 obj.0 id.0 0 }
    requires room { HasBlockRoom (T.room store.old) 1 }
    ensures ok { OnOk result (WritesStore T.HasElements
        (CutsBytes pfs.0 obj.0 id.0 size keep until) store.old store.new) }
    ensures keeps { KeepsTold T.HasElements store.old store.new result }
    ensures space { SpendsAtMost T.HasElements (block_space 1) store.old store.new }
    ensures borrowed { KeepsFrame T.Counted store.old store.new }
    ensures cause { HasContentCause T.HasElements store.old store.new result }
{
    let block = BLOCK_BYTES as u64;
    let begin = keep / block * block;
    if begin == keep {
        return close_between(store, pfs, obj, keep + 1, until, id);
    }
    let last = begin + block;
    let at = bytes_base(pfs, obj, begin + 1);
    let shown = nearest_version(store, &at, size.min(last), last, id)?;
    if !ends_after(&shown, keep) {
        return close_between(store, pfs, obj, keep + 1, until, id);
    }
    let mut bytes = [0; BLOCK_BYTES];
    let front = &mut bytes[..(keep - begin) as usize];
    read_all(store, pfs, obj, size, begin, id, front)?;
    close_between(store, pfs, obj, keep + 1, until, id)?;
    put_block(store, pfs, obj, keep, begin, front, id)
}

// Whether an element was found, and ends after an offset.
fn ends_after(found: &Option<Element>, offset: u64) -> bool
    ensures { IsTrue result ↔ IsSomeAnd found.now (λ e. offset < e.base.key) }
{
    match found {
        Some(element) => offset < element.base.key,
        None => false,
    }
}
