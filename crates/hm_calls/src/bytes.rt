// The bytes of files.
ghost use Rattle.std.specs.Prelude.{◌≡◌, IfOk};
ghost use Rattle.hm_cursor.specs.Told.{OnBalanced, ReadsWithCause};
ghost use Rattle.hm_calls.specs.Bytes.{AreAsked};
ghost use Rattle.hm_key.specs.Members.{InBalance, IsSame, KeepsFrame};

use hm_dirs::Stand;
use hm_files::read_bytes;
use hm_key::{ElementStore, Extents, HasElements, HasRoom};
use hm_types::{Bytes, Counted, Fault, MOST_FILE_BYTES};
use std::alloc::Global;

// The bytes of a file of a size from an offset on, at most so many, up to its end. No call makes a
// file that has bytes past 15,728,640: of those of such a one, want of memory is told.
pub(crate) fn bytes_at<T: ElementStore + Extents>(
    alloc: Global,
    store: &mut T,
    file: &Stand,
    size: u64,
    offset: u64,
    count: u32,
) -> Result<Bytes, Fault>
    requires balanced { InBalance T.HasElements store.old }
    ensures ok { IfOk result (λ bytes. OnBalanced (T.elements store.old) (T.extents store.old)
        (AreAsked file.now size offset count bytes)) }
    ensures keeps { IsSame T.HasElements store.old store.new }
    ensures borrowed { KeepsFrame T.Counted store.old store.new }
    ensures cause { ReadsWithCause T.HasElements store.old store.new result }
{
    if offset.min(size) > MOST_FILE_BYTES {
        return Err(Fault::NoMemory);
    }
    let len = size.saturating_sub(offset).min(u64::from(count)) as usize;
    let mut bytes = vec![in alloc; 0_u8; len]?;
    let (pfs, object) = (file.at.pfs, file.at.object);
    read_bytes(store, pfs, object, size, offset, file.as_of, &mut bytes)?;
    Ok(Bytes::of(bytes))
}
