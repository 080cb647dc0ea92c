// What an element is about.
ghost use Rattle.std.specs.Prelude.{◌≡◌};
ghost use Rattle.hm_key.specs.Counts.{
  bytes_subject,
  entry_subject,
  inode_subject,
  target_subject,
};

use hm_key::{DIRECTORY_ENTRY, FILE_BYTES, INODE, INODE_PART, OTHER_PART, SOFTLINK_TARGET};
use hm_types::{Obj, Pfs};
use std::marker::Model;

/// What an element is about: all of its key but the id that made it.
#[derive(Drop)]
pub(crate) struct Subject {
    pub(crate) localization: u32,
    pub(crate) obj: Obj,
    pub(crate) rec_type: u16,
    pub(crate) key: u64,
}

impl Model for Subject {
    ghost use Rattle.hm_key.specs.Counts.{Subject as Named};

    ghost Value = { Named };

    ghost view = { λ s. record { localization = s.localization; obj = s.obj.0; rec_type = s.rec_type; key = s.key } };
}

/// The inode of an object.
pub(crate) fn inode_of(pfs: Pfs, obj: Obj) -> Subject
    ensures { result ≡ inode_subject pfs.0 obj.0 }
{
    Subject {
        localization: u32::from(pfs.0) * 0x1_0000 + INODE_PART,
        obj,
        rec_type: INODE,
        key: 0,
    }
}

/// The bytes of a file that end before the byte `end`.
pub(crate) fn bytes_before(pfs: Pfs, obj: Obj, end: u64) -> Subject
    ensures { result ≡ bytes_subject pfs.0 obj.0 end }
{
    Subject {
        localization: u32::from(pfs.0) * 0x1_0000 + OTHER_PART,
        obj,
        rec_type: FILE_BYTES,
        key: end,
    }
}

/// The entry of a directory that has this key.
pub(crate) fn entry_of(pfs: Pfs, directory: Obj, key: u64) -> Subject
    ensures { result ≡ entry_subject pfs.0 directory.0 key }
{
    Subject {
        localization: u32::from(pfs.0) * 0x1_0000 + OTHER_PART,
        obj: directory,
        rec_type: DIRECTORY_ENTRY,
        key,
    }
}

/// The target of a softlink.
pub(crate) fn target_of(pfs: Pfs, obj: Obj) -> Subject
    ensures { result ≡ target_subject pfs.0 obj.0 }
{
    Subject {
        localization: u32::from(pfs.0) * 0x1_0000 + OTHER_PART,
        obj,
        rec_type: SOFTLINK_TARGET,
        key: 0,
    }
}
