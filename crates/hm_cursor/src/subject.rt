// Where the elements about a subject stand.
ghost use Rattle.std.specs.Prelude.{◌≡◌, ◌≤◌, ◌+◌, ◌*◌, ◌^◌};
ghost use Rattle.hm_key.specs.Counts.{
  entry_subject,
  inode_subject,
  record_subject,
  subject_of,
  target_subject,
};
ghost use Rattle.hm_key.specs.Key.{key_of};

use hm_key::{
    Base, DIRECTORY_ENTRY, ELEMENT, INODE, INODE_PART, OTHER_PART, PFS_RECORD, SOFTLINK_TARGET,
};
use hm_types::{Obj, Pfs};

/// The base of an object's inode, but for the id that made it and the kind of the object.
pub fn inode_base(pfs: Pfs, obj: Obj) -> Base
    ensures { subject_of (key_of result) ≡ inode_subject pfs.0 obj.0 }
{
    base_of(pfs, INODE_PART, obj, INODE, 0)
}

/// The base of a softlink's target, but for the id that made it and the kind of the object.
pub fn target_base(pfs: Pfs, obj: Obj) -> Base
    ensures { subject_of (key_of result) ≡ target_subject pfs.0 obj.0 }
{
    base_of(pfs, OTHER_PART, obj, SOFTLINK_TARGET, 0)
}

/// The base of a directory's entry with a key, but for the id that made it and the kind of the
/// object that it leads to.
pub fn entry_base(pfs: Pfs, directory: Obj, key: u64) -> Base
    ensures { subject_of (key_of result) ≡ entry_subject pfs.0 directory.0 key }
{
    base_of(pfs, OTHER_PART, directory, DIRECTORY_ENTRY, key)
}

/// The base of the record of a pseudo file system, but for the id that made it.
pub fn record_base(pfs: Pfs) -> Base
    ensures { subject_of (key_of result) ≡ record_subject pfs.0 }
{
    base_of(pfs, OTHER_PART, Obj(1), PFS_RECORD, u64::from(pfs.0))
}

// A base with these fields, and with no id.
fn base_of(pfs: Pfs, part: u32, obj: Obj, rec_type: u16, key: u64) -> Base
    requires { part ≤ OTHER_PART }
    ensures { key_of result ≡ record {
      localization = pfs.0 * 2 ^ 16 + part;
      obj = obj.0;
      rec_type = rec_type;
      key = key;
      create = 0;
    } }
{
    Base {
        obj,
        key,
        create: 0,
        delete: 0,
        rec_type,
        obj_type: 1,
        btype: ELEMENT,
        localization: u32::from(pfs.0) * 65_536 + part,
    }
}
