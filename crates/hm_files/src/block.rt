// Where the bytes of a file stand among the elements: in blocks, each under the offset at which its
// bytes end.
ghost use Rattle.std.specs.Prelude.{◌≡◌, ◌-◌, ◌^◌, min};
ghost use Rattle.hm_key.specs.Counts.{bytes_subject, subject_of};
ghost use Rattle.hm_key.specs.Key.{key_of};
ghost use Rattle.hm_files.specs.Bytes.{block_end};

use hm_key::{Base, ELEMENT, FILE_BYTES, OTHER_PART};
use hm_records::FILE;
use hm_types::{BLOCK_BYTES, Obj, Pfs};

/// The base of the bytes of a file that end at `end`, but for the id that made it.
pub(crate) fn bytes_base(pfs: Pfs, obj: Obj, end: u64) -> Base
    ensures about { subject_of (key_of result) ≡ bytes_subject pfs.0 obj.0 end }
    ensures open { (result.delete ≡ 0) × (result.obj_type ≡ FILE) × (result.btype ≡ ELEMENT) }
{
    Base {
        obj,
        key: end,
        create: 0,
        delete: 0,
        rec_type: FILE_BYTES,
        obj_type: FILE,
        btype: ELEMENT,
        localization: u32::from(pfs.0) * 65_536 + OTHER_PART,
    }
}

/// Where the block ends that has a byte, or the greatest number where none is as great.
pub(crate) fn end_of_block(byte: u64) -> u64
    ensures { result ≡ min (block_end byte) (2 ^ 64 - 1) }
{
    let block = BLOCK_BYTES as u64;
    (byte / block * block).saturating_add(block)
}
