// The elements of the tree.
ghost use Rattle.std.specs.Prelude.{◌≡◌, ◌↔◌, IsTrue};
ghost use Rattle.hm_key.specs.Element.{pfs_of, IsElement, FitsType, IsInBlock};

use crate::base::{Base, ELEMENT};
use crate::rec_type::{
    DIRECTORY_ENTRY, FILE_BYTES, INODE, INODE_PART, OTHER_PART, PFS_RECORD, SNAPSHOT,
    SOFTLINK_TARGET,
};
#[cfg(test)]
use hm_types::Obj;
use hm_types::{BLOCK_BYTES, HOff};

/// An element of the tree: its base, and where its payload stands.
#[derive(Clone, Copy, Debug, Default, PartialEq, Eq)]
pub struct Element {
    pub base: Base,
    /// The extent that the payload begins.
    pub payload: HOff,
    /// The payload's length in bytes.
    pub len: u32,
}

/// Whether this may stand in a leaf. What its payload holds is not looked at.
pub fn is_element(element: &Element) -> bool
    ensures { IsTrue result ↔ IsElement element.now }
{
    let base = &element.base;
    0 < base.create
        && (base.delete == 0 || base.create < base.delete)
        && matches!(base.obj_type, 1..=4)
        && base.btype == ELEMENT
        && fits_type(element)
}

// Whether its type is known, and it is what its type asks for.
fn fits_type(element: &Element) -> bool
    ensures { IsTrue result ↔ FitsType element.now }
{
    let base = &element.base;
    let part = base.localization % 65_536;
    match base.rec_type {
        INODE => part == INODE_PART && base.key == 0,
        SOFTLINK_TARGET => part == OTHER_PART && base.key == 0,
        FILE_BYTES => part == OTHER_PART && is_in_block(base.key, element.len),
        PFS_RECORD => part == OTHER_PART && is_pfs_record(base),
        SNAPSHOT => part == OTHER_PART && base.obj.0 == 1,
        DIRECTORY_ENTRY => part == OTHER_PART,
        _ => false,
    }
}

// Whether the base is at object 1, with the number of its pseudo file system as its key.
fn is_pfs_record(base: &Base) -> bool
    ensures { IsTrue result ↔
        ((base.now.obj.0 ≡ 1) × (base.now.key ≡ pfs_of base.now.localization)) }
{
    base.obj.0 == 1 && base.key == u64::from(base.localization / 65_536)
}

// Whether so many bytes of a file that end at `end` are the front of one block.
fn is_in_block(end: u64, len: u32) -> bool
    ensures { IsTrue result ↔ IsInBlock end len }
{
    let len = u64::from(len);
    let block = BLOCK_BYTES as u64;
    1 <= len && len <= block && len <= end && (end - len) % block == 0
}

#[cfg(test)]
mod tests {
    use super::*;

    // An element with these values, and with others that every type takes.
    fn of(rec_type: u16, localization: u32, obj: u64, key: u64, len: u32) -> Element {
        let base = Base {
            obj: Obj(obj),
            key,
            create: 5,
            delete: 0,
            rec_type,
            obj_type: 2,
            btype: ELEMENT,
            localization,
        };
        Element {
            base,
            payload: HOff::default(),
            len,
        }
    }

    #[test]
    fn takes_what_each_type_asks_for(rt: HostRuntime) {
        for (rec_type, localization, obj, key, len, wanted) in [
            (0x0001, 0x0003_0001, 7, 0, 32, true),
            (0x0001, 0x0003_0002, 7, 0, 32, false),
            (0x0001, 0x0003_0001, 7, 1, 32, false),
            (0x0010, 0x0000_0002, 7, 1, 1, true),
            (0x0010, 0x0000_0002, 7, 16_384, 16_384, true),
            (0x0010, 0x0000_0002, 7, 40_000, 7_232, true),
            (0x0010, 0x0000_0002, 7, 16_384, 1, false),
            (0x0010, 0x0000_0002, 7, 16_384, 0, false),
            (0x0010, 0x0000_0002, 7, 32_768, 32_768, false),
            (0x0010, 0x0000_0002, 7, 5, 6, false),
            (0x0010, 0x0000_0001, 7, 1, 1, false),
            (0x0011, 0xFFFF_0002, 1, 0x57B1_EE26_4300_0000, 9, true),
            (0x0014, 0x0000_0002, 9, 0, 1_023, true),
            (0x0014, 0x0000_0002, 9, 4, 1_023, false),
            (0x0015, 0x0003_0002, 1, 3, 48, true),
            (0x0015, 0x0003_0002, 1, 2, 48, false),
            (0x0015, 0x0003_0002, 2, 3, 48, false),
            (0x0016, 0x0003_0002, 1, 8, 8, true),
            (0x0016, 0x0003_0002, 2, 8, 8, false),
            (0x0016, 0x0003_0001, 1, 8, 8, false),
            (0x0017, 0x0000_0002, 1, 8, 8, false),
            (0x0000, 0x0000_0002, 1, 8, 8, false),
        ] {
            let element = of(rec_type, localization, obj, key, len);
            assert_eq!(rt; is_element(&element), wanted, "{element:?}");
        }
    }

    #[test]
    fn takes_ids_and_kinds_that_may_be(rt: HostRuntime) {
        for (create, delete, obj_type, btype, wanted) in [
            (1, 0, 1, 1, true),
            (5, 6, 4, 1, true),
            (5, u64::MAX, 3, 1, true),
            (0, 0, 1, 1, false),
            (0, 6, 1, 1, false),
            (5, 5, 1, 1, false),
            (5, 4, 1, 1, false),
            (5, 0, 0, 1, false),
            (5, 0, 5, 1, false),
            (5, 0, 1, 2, false),
            (5, 0, 1, 0, false),
        ] {
            let mut element = of(SNAPSHOT, OTHER_PART, 1, 8, 8);
            element.base.create = create;
            element.base.delete = delete;
            element.base.obj_type = obj_type;
            element.base.btype = btype;
            assert_eq!(rt; is_element(&element), wanted, "{element:?}");
        }
    }
}
