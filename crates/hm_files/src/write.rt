// Bytes that are written into a file.
ghost use Rattle.std.specs.Prelude.{◌≡◌, ◌+◌, ◌*◌, ◌/◌, ◌^◌, ◌<◌, ◌≤◌, ◌++◌, ◌-◌, OnOk, drop, length, replicate};
ghost use Rattle.std.specs.Prelude.{take};
ghost use Rattle.hm_key.specs.Members.{HasContentCause, InBalance, KeepsFrame, KeepsTold, SpendsAtMost};
ghost use Rattle.hm_cursor.specs.Write.{WritesStore};
ghost use Rattle.hm_files.specs.Close.{AreOlderIn};
ghost use Rattle.hm_files.specs.Put.{HasBlockRoom, block_space};
ghost use Rattle.hm_files.specs.Source.{IsSource, bytes_of};
ghost use Rattle.hm_files.specs.Bytes.{block_start};
ghost use Rattle.hm_files.specs.Write.{ClearsWay, PutsBefore, PutsPiece, WritesBytes, block_count};

use crate::cut::cut_bytes;
use crate::put::put_block;
use crate::read::{read_all, shorter};
use crate::source::Source;
use hm_key::{ElementStore, Extents, HasElements, HasRoom};
use hm_types::{BLOCK_BYTES, Counted, Fault, Id, MOST_FILE_BYTES, Obj, Pfs};

/// Puts bytes into a file of a size, from an offset on, by an id of 1 or more: at least one, and none
/// past 15,728,640. What lies between the size and the offset is zero: of the blocks between them
/// none takes an element, and what they hid is closed. Each block that has some of the bytes keeps
/// what it has besides, up to the size. The inode, which says the size, is the caller's.
///
/// For each of these blocks, and one more, it takes at most 40,960 bytes of zone 8, and a block of
/// the zones 10 and 11. The faults are those of the store; after one nothing is known of the content.
pub fn write_bytes<T: ElementStore + Extents>(
    store: &mut T,
    pfs: Pfs,
    obj: Obj,
    size: u64,
    offset: u64,
    bytes: &[u8],
    id: Id,
) -> Result<(), Fault>
    requires id { 1 ≤ id.0 }
    requires some { 1 ≤ length bytes.now }
    requires few { offset + length bytes.now ≤ MOST_FILE_BYTES }
    requires balanced { InBalance T.HasElements store.old }
    requires older { AreOlderIn (T.elements store.old) (T.extents store.old)
        pfs.0 obj.0 id.0 0 }
    requires room { HasBlockRoom (T.room store.old)
        (block_count offset (offset + length bytes.now) + 1) }
    ensures ok { OnOk result (WritesStore T.HasElements
        (WritesBytes pfs.0 obj.0 id.0 size offset bytes.now) store.old store.new) }
    ensures keeps { KeepsTold T.HasElements store.old store.new result }
    ensures space { SpendsAtMost T.HasElements
        (block_space (block_count offset (offset + length bytes.now) + 1)) store.old store.new }
    ensures borrowed { KeepsFrame T.Counted store.old store.new }
    ensures cause { HasContentCause T.HasElements store.old store.new result }
{
    put_source(store, pfs, obj, size, offset, Source::Bytes(bytes), id)
}

/// Puts a byte into a file of a size, from an offset on, so many times, as `write_bytes` puts bytes.
/// It needs a block of memory on the stack.
pub fn fill_bytes<T: ElementStore + Extents>(
    store: &mut T,
    pfs: Pfs,
    obj: Obj,
    size: u64,
    offset: u64,
    count: u32,
    byte: u8,
    id: Id,
) -> Result<(), Fault>
    requires id { 1 ≤ id.0 }
    requires some { 1 ≤ count }
    requires few { offset + count ≤ MOST_FILE_BYTES }
    requires balanced { InBalance T.HasElements store.old }
    requires older { AreOlderIn (T.elements store.old) (T.extents store.old)
        pfs.0 obj.0 id.0 0 }
    requires room { HasBlockRoom (T.room store.old)
        (block_count offset (offset + count) + 1) }
    ensures ok { OnOk result (WritesStore T.HasElements
        (WritesBytes pfs.0 obj.0 id.0 size offset (replicate count byte)) store.old store.new) }
    ensures keeps { KeepsTold T.HasElements store.old store.new result }
    ensures space { SpendsAtMost T.HasElements
        (block_space (block_count offset (offset + count) + 1)) store.old store.new }
    ensures borrowed { KeepsFrame T.Counted store.old store.new }
    ensures cause { HasContentCause T.HasElements store.old store.new result }
{
    let block = [byte; BLOCK_BYTES];
    let source = Source::Filled(&block, count as usize);
    put_source(store, pfs, obj, size, offset, source, id)
}

// Puts what is written into a file of a size.
fn put_source<T: ElementStore + Extents>(
    store: &mut T,
    pfs: Pfs,
    obj: Obj,
    size: u64,
    offset: u64,
    source: Source,
    id: Id,
) -> Result<(), Fault>
    requires id { 1 ≤ id.0 }
    requires some { 1 ≤ length (bytes_of source) }
    requires few { offset + length (bytes_of source) ≤ MOST_FILE_BYTES }
    requires source { IsSource source }
    requires balanced { InBalance T.HasElements store.old }
    requires older { AreOlderIn (T.elements store.old) (T.extents store.old)
        pfs.0 obj.0 id.0 0 }
    requires room { HasBlockRoom (T.room store.old)
        (block_count offset (offset + length (bytes_of source)) + 1) }
    ensures ok { OnOk result (WritesStore T.HasElements
        (WritesBytes pfs.0 obj.0 id.0 size offset (bytes_of source.entry)) store.old store.new) }
    ensures keeps { KeepsTold T.HasElements store.old store.new result }
    ensures space { SpendsAtMost T.HasElements
        (block_space (block_count offset (offset + length (bytes_of source.entry)) + 1)) store.old store.new }
    ensures borrowed { KeepsFrame T.Counted store.old store.new }
    ensures cause { HasContentCause T.HasElements store.old store.new result }
{
    clear_way(store, pfs, obj, size, offset, id)?;
    let after = size.max(offset + source.len() as u64);
    put_pieces(store, pfs, obj, size, after, offset, source, id)
}

// Cuts a file off at its size where bytes are written from an offset on that lies in a later block:
// so nothing that its size hid shows between them. What is hidden in blocks that are written needs
// no look.
fn clear_way<T: ElementStore + Extents>(
    store: &mut T,
    pfs: Pfs,
    obj: Obj,
    size: u64,
    offset: u64,
    id: Id,
) -> Result<(), Fault>
    requires id { 1 ≤ id.0 }
    requires few { offset ≤ MOST_FILE_BYTES }
    requires balanced { InBalance T.HasElements store.old }
    requires older { AreOlderIn (T.elements store.old) (T.extents store.old)
        pfs.0 obj.0 id.0 0 }
    requires room { HasBlockRoom (T.room store.old) 1 }
    ensures ok { OnOk result (WritesStore T.HasElements
        (ClearsWay pfs.0 obj.0 id.0 size offset) store.old store.new) }
    ensures keeps { KeepsTold T.HasElements store.old store.new result }
    ensures space { SpendsAtMost T.HasElements (block_space 1) store.old store.new }
    ensures borrowed { KeepsFrame T.Counted store.old store.new }
    ensures cause { HasContentCause T.HasElements store.old store.new result }
{
    let block = BLOCK_BYTES as u64;
    if size < offset / block * block {
        return cut_bytes(store, pfs, obj, size, size, offset / block * block, id);
    }
    Ok(())
}

// Puts what is written into a file of a size, which has another one then, block by block.
fn put_pieces<T: ElementStore + Extents>(
    store: &mut T,
    pfs: Pfs,
    obj: Obj,
    size: u64,
    after: u64,
    offset: u64,
    source: Source,
    id: Id,
) -> Result<(), Fault>
    requires id { 1 ≤ id.0 }
    requires some { 1 ≤ length (bytes_of source) }
    requires few { offset + length (bytes_of source) ≤ MOST_FILE_BYTES }
    requires after { (size ≤ after) × (offset + length (bytes_of source) ≤ after) }
    requires source { IsSource source }
    requires balanced { InBalance T.HasElements store.old }
    requires older { AreOlderIn (T.elements store.old) (T.extents store.old)
        pfs.0 obj.0 id.0 (block_start offset + 1) }
    requires room { HasBlockRoom (T.room store.old)
        (block_count offset (offset + length (bytes_of source))) }
    ensures ok { OnOk result (WritesStore T.HasElements (PutsBefore pfs.0 obj.0 id.0 size after
        offset (bytes_of source.entry) ((offset + length (bytes_of source.entry) - 1) / BLOCK_BYTES + 1)) store.old store.new) }
    ensures keeps { KeepsTold T.HasElements store.old store.new result }
    ensures space { SpendsAtMost T.HasElements
        (block_space (block_count offset (offset + length (bytes_of source.entry)))) store.old store.new }
    ensures borrowed { KeepsFrame T.Counted store.old store.new }
    ensures cause { HasContentCause T.HasElements store.old store.new result }
{
    let block = BLOCK_BYTES as u64;
    let end = offset + source.len() as u64;
    let blocks = (end - 1) / block + 1;
    let mut next = offset / block;
    while next < blocks {
        let at = offset.max(next * block);
        let to = end.min(next * block + block);
        let piece = source.piece((at - offset) as usize, (to - offset) as usize);
        write_piece(store, pfs, obj, size, after, at, piece, id)?;
        next += 1;
    }
    Ok(())
}

/// Puts bytes into a file of a size, which has another one then, from an offset on, by an id of 1 or
/// more: at least one, all of one block, and none past 15,728,640. The block keeps what it has besides,
/// as far as the new size reaches; between the old size and the offset it is zero. A whole block is put
/// as it comes. The inode, which says the size, is the caller's, and so are the other blocks.
///
/// It takes at most 40,960 bytes of zone 8, and those of the block's bytes in zone 10 for a whole
/// block, and in zone 11 else. The faults are those of the store; after one nothing is known of the
/// content.
pub(crate) fn write_piece<T: ElementStore + Extents>(
    store: &mut T,
    pfs: Pfs,
    obj: Obj,
    size: u64,
    after: u64,
    at: u64,
    piece: &[u8],
    id: Id,
) -> Result<(), Fault>
    requires id { 1 ≤ id.0 }
    requires some { 1 ≤ length piece.now }
    requires within { at + length piece.now ≤ block_start at + BLOCK_BYTES }
    requires few { at + length piece.now ≤ MOST_FILE_BYTES }
    requires after { (size ≤ after) × (at + length piece.now ≤ after) }
    requires balanced { InBalance T.HasElements store.old }
    requires older { AreOlderIn (T.elements store.old) (T.extents store.old)
        pfs.0 obj.0 id.0 (block_start at + 1) }
    requires room { HasBlockRoom (T.room store.old) 1 }
    ensures ok { OnOk result (WritesStore T.HasElements
        (PutsPiece pfs.0 obj.0 id.0 size after at piece.now) store.old store.new) }
    ensures keeps { KeepsTold T.HasElements store.old store.new result }
    ensures space { SpendsAtMost T.HasElements (block_space 1) store.old store.new }
    ensures borrowed { KeepsFrame T.Counted store.old store.new }
    ensures cause { HasContentCause T.HasElements store.old store.new result }
{
    let begin = at / BLOCK_BYTES as u64 * BLOCK_BYTES as u64;
    if piece.len() == BLOCK_BYTES {
        return put_block(store, pfs, obj, size, begin, piece, id);
    }
    let inner = (at - begin) as usize;
    let end = after.min(begin + BLOCK_BYTES as u64);
    let mut bytes = [0; BLOCK_BYTES];
    let front = &mut bytes[..(end - begin) as usize];
    let shown = shorter(front.len(), size.saturating_sub(begin));
    read_all(store, pfs, obj, size, begin, id, &mut front[..shown])?;
    lay_over(front, inner, piece);
    put_block(store, pfs, obj, size, begin, front, id)
}

// Puts a piece over a part of a block.
fn lay_over(front: &mut [u8], inner: usize, piece: &[u8])
    requires { inner + length piece.now ≤ length front.old }
    ensures { front.new ≡ take inner front.old ++
        (piece.now ++ drop (inner + length piece.now) front.old) }
{
    front[inner..inner + piece.len()].copy_from_slice(piece);
}
