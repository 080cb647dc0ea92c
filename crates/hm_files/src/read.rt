// Bytes that are read.
ghost use Rattle.std.specs.Prelude.{◌≡◌, ◌+◌, ◌<◌, ◌≤◌, IfOk, IfSome, OnOk, drop, length, max, min, replicate, take};
ghost use Rattle.hm_types.specs.Faults.{HasStoreCause};
ghost use Rattle.hm_key.specs.Balance.{IsHeld, payload_of};
ghost use Rattle.hm_key.specs.Element.{IsInBlock};
ghost use Rattle.hm_key.specs.Members.{HasContentCause, InBalance, IsSame, KeepsFrame};
ghost use Rattle.hm_cursor.specs.Told.{OnBalanced};
ghost use Rattle.hm_files.specs.Bytes.{AreOf, AreBytesRead, AreShown, count_from};

use crate::block::{bytes_base, end_of_block};
use crate::search::nearest_version;
use hm_key::{Element, ElementStore, Extents, HasElements, HasRoom};
use hm_types::{BLOCK_BYTES, Counted, Fault, Id, Obj, Pfs};

/// Puts the bytes of a file as of an id, from an offset on, at the front of a buffer, and answers
/// how many these are: as many as the buffer has room for, up to the file's size, which its inode
/// tells. Bytes that no call wrote are zero.
///
/// Of each block those show that end last within the size, and where none do those that end first
/// past it: where a call wrote the block's last byte they are found by one search. The faults are
/// those of the store. It takes no memory of its own.
pub fn read_bytes<T: ElementStore + Extents>(
    store: &mut T,
    pfs: Pfs,
    obj: Obj,
    size: u64,
    offset: u64,
    as_of: Id,
    buffer: &mut [u8],
) -> Result<usize, Fault>
    requires balanced { InBalance T.HasElements store.old }
    ensures count { IfOk result (λ count. count ≡ count_from size offset (length buffer.new)) }
    ensures ok { IfOk result (λ count. OnBalanced (T.elements store.old) (T.extents store.old)
        (AreBytesRead as_of.0 pfs.0 obj.0 size offset (take count buffer.new))) }
    ensures shown { IfOk result (λ count. OnBalanced (T.elements store.old) (T.extents store.old)
        (AreShown as_of.0 pfs.0 obj.0 size offset (length buffer.new) (take count buffer.new))) }
    ensures keeps { IsSame T.HasElements store.old store.new }
    ensures borrowed { KeepsFrame T.Counted store.old store.new }
    ensures cause { HasContentCause T.HasElements store.old store.new result }
{
    let count = shorter(buffer.len(), size.saturating_sub(offset));
    read_all(store, pfs, obj, size, offset, as_of, &mut buffer[..count])?;
    Ok(count)
}

/// Fills a buffer with the bytes of a file of a size from an offset on, none of which is past its end.
pub(crate) fn read_all<T: ElementStore + Extents>(
    store: &mut T,
    pfs: Pfs,
    obj: Obj,
    size: u64,
    offset: u64,
    as_of: Id,
    buffer: &mut [u8],
) -> Result<(), Fault>
    requires fits { offset + length buffer.old ≤ max size offset }
    requires balanced { InBalance T.HasElements store.old }
    ensures ok { OnOk result (OnBalanced (T.elements store.old) (T.extents store.old)
        (AreBytesRead as_of.0 pfs.0 obj.0 size offset buffer.new)) }
    ensures keeps { IsSame T.HasElements store.old store.new }
    ensures borrowed { KeepsFrame T.Counted store.old store.new }
    ensures cause { HasContentCause T.HasElements store.old store.new result }
{
    let mut done = 0;
    while done < buffer.len() {
        let at = offset + done as u64;
        done += read_piece(store, pfs, obj, size, at, as_of, &mut buffer[done..])?;
    }
    Ok(())
}

// Puts the first bytes of a file from an offset on at the front of a buffer, and answers how many:
// those of the element that shows in the block, or the zeros up to where others may stand.
fn read_piece<T: ElementStore + Extents>(
    store: &mut T,
    pfs: Pfs,
    obj: Obj,
    size: u64,
    offset: u64,
    as_of: Id,
    buffer: &mut [u8],
) -> Result<usize, Fault>
    requires some { 1 ≤ length buffer.old }
    requires fits { offset + length buffer.old ≤ size }
    requires balanced { InBalance T.HasElements store.old }
    ensures some { IfOk result (λ count. 1 ≤ count) }
    ensures fits { IfOk result (λ count. count ≤ length buffer.new) }
    ensures ok { IfOk result (λ count. OnBalanced (T.elements store.old) (T.extents store.old)
        (AreBytesRead as_of.0 pfs.0 obj.0 size offset (take count buffer.new))) }
    ensures keeps { IsSame T.HasElements store.old store.new }
    ensures borrowed { KeepsFrame T.Counted store.old store.new }
    ensures cause { HasContentCause T.HasElements store.old store.new result }
{
    let block = BLOCK_BYTES as u64;
    let at = bytes_base(pfs, obj, offset / block * block + 1);
    let near = size.min(end_of_block(offset));
    let last = end_of_block(offset + (buffer.len() as u64 - 1));
    let Some(element) = nearest_version(store, &at, near, last, as_of)? else {
        return Ok(clear_to(offset, last, buffer));
    };
    let begin = element.base.key - u64::from(element.len);
    if offset < begin {
        return Ok(clear_to(offset, begin, buffer));
    }
    if element.base.key <= offset {
        return Ok(clear_to(offset, end_of_block(offset), buffer));
    }
    read_element(store, &element, offset, buffer)
}

// Puts zeros for the bytes from an offset on at the front of a buffer, up to another one after it,
// and answers how many.
fn clear_to(offset: u64, to: u64, buffer: &mut [u8]) -> usize
    requires some { 1 ≤ length buffer.old }
    requires after { offset < to }
    ensures some { 1 ≤ result }
    ensures fits { result ≤ length buffer.new }
    ensures until { offset + result ≤ to }
    ensures zeros { take result buffer.new ≡ replicate result 0 }
{
    let count = shorter(buffer.len(), to - offset);
    clear(&mut buffer[..count]);
    count
}

// Puts the first bytes from an offset on of the element that has them at the front of a buffer.
fn read_element<T: Extents>(
    store: &mut T,
    element: &Element,
    offset: u64,
    buffer: &mut [u8],
) -> Result<usize, Fault>
    requires some { 1 ≤ length buffer.old }
    requires after { offset < element.now.base.key }
    requires from { element.now.base.key ≤ offset + element.now.len }
    requires block { IsInBlock element.now.base.key element.now.len }
    requires held { IfSome (T.extents store.old) (λ xs. IsHeld xs element.now) }
    ensures some { IfOk result (λ count. 1 ≤ count) }
    ensures fits { IfOk result (λ count. count ≤ length buffer.new) }
    ensures ok { IfSome (T.extents store.old) (λ xs. IfOk result (λ count.
        AreOf element.now.base.key element.now.len (payload_of xs element.now) offset
        (take count buffer.new))) }
    ensures keeps { IsSame T.HasElements store.old store.new }
    ensures borrowed { KeepsFrame T.Counted store.old store.new }
    ensures cause { HasStoreCause (T.extents store.old)
        (T.faults store.old) (T.faults store.new) result }
{
    let begin = element.base.key - u64::from(element.len);
    let skip = (offset - begin) as usize;
    let count = shorter(buffer.len(), element.base.key - offset);
    read_payload_from(store, element, skip, &mut buffer[..count])?;
    Ok(count)
}

// Fills a buffer with the bytes of a payload from one of them on. From the first one on they come
// straight into it.
fn read_payload_from<T: Extents>(
    store: &mut T,
    element: &Element,
    skip: usize,
    buffer: &mut [u8],
) -> Result<(), Fault>
    requires inside { skip + length buffer.old ≤ element.now.len }
    requires few { element.now.len ≤ BLOCK_BYTES }
    requires held { IfSome (T.extents store.old) (λ xs. IsHeld xs element.now) }
    ensures ok { IfSome (T.extents store.old) (λ xs. OnOk result
        (buffer.new ≡ take (length buffer.old) (drop skip (payload_of xs element.now)))) }
    ensures keeps { IsSame T.HasElements store.old store.new }
    ensures borrowed { KeepsFrame T.Counted store.old store.new }
    ensures cause { HasStoreCause (T.extents store.old)
        (T.faults store.old) (T.faults store.new) result }
{
    if skip == 0 {
        return store.fetch(element.payload, buffer);
    }
    let mut block = [0; BLOCK_BYTES];
    let front = &mut block[..skip + buffer.len()];
    store.fetch(element.payload, front)?;
    copy_rest(front, skip, buffer);
    Ok(())
}

// Copies the bytes from a place on into a buffer as long as they are.
fn copy_rest(from: &[u8], skip: usize, into: &mut [u8])
    requires { skip + length into.old ≡ length from.now }
    ensures { into.new ≡ drop skip from.now }
{
    into.copy_from_slice(&from[skip..]);
}

/// The less of a length and a number.
pub(crate) fn shorter(len: usize, most: u64) -> usize
    ensures { result ≡ min len most }
{
    if most < len as u64 {
        most as usize
    } else {
        len
    }
}

// Fills a buffer with zeros.
fn clear(buffer: &mut [u8])
    ensures { buffer.new ≡ replicate (length buffer.old) 0 }
{
    buffer.fill(0);
}
