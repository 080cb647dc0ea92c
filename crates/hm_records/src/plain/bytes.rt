// The bytes of a file.
ghost use Rattle.std.specs.Prelude.{◌↔◌, IfOk, IsTrue};
ghost use Rattle.hm_key.specs.Counts.{Counts};
ghost use Rattle.hm_key.specs.Versions.{HaveOwnKeys};
ghost use Rattle.hm_records.specs.View.{
  AreFileBytes,
  EndsInBlock,
  IsFileByte,
  ShowsRather,
};
ghost use Rattle.hm_records.specs.PlainView.{
  HasSome,
  IsBetterEnd,
  IsShownEnd,
  ShowsFirst,
};

use crate::plain::element::{FullElement, counted};
use crate::plain::subject::{Subject, bytes_before};
use hm_types::{BLOCK_BYTES, NoMemory, Obj, Pfs};
use std::alloc::Global;

/// The bytes of a file of this size, in bytes.
pub(crate) fn file_bytes(
    alloc: Global,
    elements: &[FullElement],
    pfs: Pfs,
    obj: Obj,
    size: u64,
    id: u64,
) -> Result<Vec<u8>, NoMemory>
    requires { HaveOwnKeys elements.now }
    ensures { IfOk result (λ bytes.
        AreFileBytes (Counts elements.now id) pfs.0 obj.0 size bytes.items) }
{
    let mut bytes = Vec::new(alloc);
    for place in 0..size {
        bytes.push(byte_at(elements, pfs, obj, size, place, id))?;
    }
    Ok(bytes)
}

// One byte of a file of this size.
fn byte_at(elements: &[FullElement], pfs: Pfs, obj: Obj, size: u64, place: u64, id: u64) -> u8
    requires { HaveOwnKeys elements.now }
    ensures { IsFileByte (Counts elements.now id) pfs.0 obj.0 size place result }
{
    let block = place / BLOCK_BYTES as u64;
    let Some(end) = shown_end(elements, pfs, obj, size, block, id) else {
        return 0;
    };
    let Some(bytes) = counted(elements, &bytes_before(pfs, obj, end), id) else {
        return 0;
    };
    if end <= place {
        return 0;
    }
    let left = end - place;
    if left <= bytes.len() as u64 {
        bytes[bytes.len() - left as usize]
    } else {
        0
    }
}

// Where the bytes that show in a block of a file of this size end, if any count there.
fn shown_end(
    elements: &[FullElement],
    pfs: Pfs,
    obj: Obj,
    size: u64,
    block: u64,
    id: u64,
) -> Option<u64>
    requires { HaveOwnKeys elements.now }
    ensures { IsShownEnd (Counts elements.now id) pfs.0 obj.0 size block elements.now result }
{
    let mut best: Option<u64> = None;
    for element in elements {
        if is_better_end(elements, element, pfs, obj, size, block, id, best) {
            best = Some(element.key());
        }
    }
    best
}

// Whether an element is about bytes of the file that count and end in the block, and that show
// rather than the best ones so far.
fn is_better_end(
    elements: &[FullElement],
    element: &FullElement,
    pfs: Pfs,
    obj: Obj,
    size: u64,
    block: u64,
    id: u64,
    best: Option<u64>,
) -> bool
    requires { HaveOwnKeys elements.now }
    ensures { IsTrue result ↔ IsBetterEnd (Counts elements.now id)
        pfs.0 obj.0 size block best element.now }
{
    let end = element.key();
    let subject = bytes_before(pfs, obj, end);
    ends_in(block, end)
        && element.is_about(&subject)
        && shows_first(size, end, best)
        && is_counted(elements, &subject, id)
}

// Whether an offset ends bytes of this block of a file.
fn ends_in(block: u64, end: u64) -> bool
    ensures { IsTrue result ↔ EndsInBlock block end }
{
    end > 0 && (end - 1) / BLOCK_BYTES as u64 == block
}

// Whether bytes that end at `end` show rather than those that end at another place, or there is no
// other.
fn shows_first(size: u64, end: u64, best: Option<u64>) -> bool
    ensures { IsTrue result ↔ ShowsFirst size end best }
{
    match best {
        Some(other) => shows_rather(size, end, other),
        None => true,
    }
}

// Whether bytes of a file of this size that end at `a` show rather than bytes that end at `b`: of
// those that end within the file the last ones, and else the first ones past it.
fn shows_rather(size: u64, a: u64, b: u64) -> bool
    ensures { IsTrue result ↔ ShowsRather size a b }
{
    if a <= size {
        b <= a || size < b
    } else {
        a <= b
    }
}

// Whether any bytes count for a subject.
fn is_counted(elements: &[FullElement], subject: &Subject, id: u64) -> bool
    requires { HaveOwnKeys elements.now }
    ensures { IsTrue result ↔ HasSome (Counts elements.now id) subject.now }
{
    match counted(elements, subject, id) {
        Some(_) => true,
        None => false,
    }
}
