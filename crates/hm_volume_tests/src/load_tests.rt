// Volumes on disks in memory, whole and with a byte changed. Each damage was worked out by hand from the
// format.
use arrayvec::ArrayVec;
use hm_disk::Disk;
use hm_disk_forms::MemDisk;
use hm_fields::{Page, Pages};
use hm_header::read_header;
use hm_key::{BOUNDARY, Base, DIRECTORY_ENTRY, ELEMENT, Element, INODE, PFS_RECORD};
use hm_load::load;
use hm_newfs::write_volume;
use hm_node::{Child, Inner, Leaf, Node, encode};
use hm_pages::PageStore;
use hm_types::{Failed, Fault, HOff, Obj};
use std::alloc::Global;
use std::process::Abort;
use std::test::Fail;

// Where the first page of zone 8 is, and the first payload of zone 9, in bytes from the start of a
// volume of 24 big-blocks.
const ROOT: u64 = 92_274_688;

const PAYLOADS: u64 = 100_663_296;

// The pages of both leaves.
const FIRST: u64 = ROOT + 4_096;

const SECOND: u64 = ROOT + 8_192;

// A volume of 24 big-blocks.
fn fresh(rt: &impl Abort, alloc: Global) -> MemDisk {
    let mut disk = MemDisk::new(alloc, 24, Vec::new(alloc));
    assert_eq!(rt; write_volume(&mut disk, 24), Ok(()));
    disk
}

// Puts bytes at a place, where the disk has it.
fn put(disk: &mut MemDisk, place: u64, bytes: &[u8]) -> Result<(), Failed> {
    let size = disk.size()?;
    let len = bytes.len() as u64;
    if bytes.len() > 4_096 || size < len || size - len < place {
        return Err(Failed);
    }
    disk.write_at(place, bytes)
}

fn offset(zone: u8, byte: u64) -> HOff {
    HOff::make(zone, byte).unwrap_or_default()
}

// What mounting's reading finds.
fn found(alloc: Global, disk: &mut MemDisk) -> Result<Result<PageStore, Fault>, Failed> {
    match read_header(disk)? {
        Ok((header, _)) => Ok(load(alloc, disk, &header)),
        Err(_) => Err(Failed),
    }
}

// The fault that is found, if there is one.
fn damage(alloc: Global, disk: &mut MemDisk) -> Result<Option<Fault>, Failed> {
    Ok(found(alloc, disk)?.err())
}

// Damage of this kind at a raw offset, and none for kind 0.
fn want(raw: u64, kind: u8) -> Option<Fault> {
    if kind == 0 {
        return None;
    }
    let at = HOff::from_raw(raw).unwrap_or_default();
    Some(Fault::Damaged { at, kind })
}

// Puts a byte at a place, and gives the one that stood there.
fn swap(disk: &mut MemDisk, place: u64, byte: u8) -> Result<u8, Failed> {
    let size = disk.size()?;
    if size <= place {
        return Err(Failed);
    }
    let mut old = [0];
    disk.read_at(place, &mut old)?;
    disk.write_at(place, &[byte])?;
    Ok(old[0])
}

// The damage that is found where a byte is another one. The disk is as before then.
fn damage_by(
    alloc: Global,
    disk: &mut MemDisk,
    place: u64,
    byte: u8,
) -> Result<Option<Fault>, Failed> {
    let old = swap(disk, place, byte)?;
    let damage = damage(alloc, disk)?;
    swap(disk, place, old)?;
    Ok(damage)
}

fn base(localization: u32, obj: u64, rec_type: u16, key: u64, create: u64) -> Base {
    Base {
        obj: Obj(obj),
        key,
        create,
        delete: 0,
        rec_type,
        obj_type: 1,
        btype: ELEMENT,
        localization,
    }
}

fn boundary(localization: u32) -> Base {
    Base {
        obj_type: 0,
        btype: BOUNDARY,
        ..base(localization, 0, 0, 0, 0)
    }
}

fn element(base: Base, byte: u32, len: u32) -> Element {
    Element {
        base,
        payload: offset(9, PAYLOADS + u64::from(byte)),
        len,
    }
}

fn leaf(mirror: u64, first: Element, second: Element) -> Node {
    let mut places = ArrayVec::new();
    places.push(first);
    places.push(second);
    Node::Leaf(Leaf { mirror, places })
}

fn root() -> Node {
    let mut places = ArrayVec::new();
    places.push(Child {
        left: boundary(0),
        child: offset(8, FIRST),
        mirror: 5,
    });
    places.push(Child {
        left: boundary(2),
        child: offset(8, SECOND),
        mirror: 7,
    });
    Node::Inner(Inner {
        level: 2,
        mirror: 7,
        places,
        right: Base::greatest(),
    })
}

fn put_node(disk: &mut MemDisk, place: u64, node: Node) -> Result<(), Failed> {
    let mut page = Page::zero();
    encode(&node, &mut page);
    put(disk, place, page.bytes())
}

// The same, with a tree of two leaves: in the first the inodes of the objects 1 and 2, and in the second
// the entry of object 2 under the name `a`, and the record of PFS 0.
fn grown(rt: &impl Abort, alloc: Global) -> Result<MemDisk, Failed> {
    let mut disk = fresh(rt, alloc);
    put_node(&mut disk, ROOT, root())?;
    let first = element(base(1, 1, INODE, 0, 1), 0, 32);
    let second = element(base(1, 2, INODE, 0, 5), 80, 32);
    put_node(&mut disk, FIRST, leaf(5, first, second))?;
    let key = 0x57b1_ee26_4300_0000;
    let first = element(base(2, 1, DIRECTORY_ENTRY, key, 5), 112, 9);
    let second = element(base(2, 1, PFS_RECORD, 0, 1), 32, 48);
    put_node(&mut disk, SECOND, leaf(7, first, second))?;
    put(&mut disk, PAYLOADS + 80, &[2])?;
    put(&mut disk, PAYLOADS + 96, &[1])?;
    put(&mut disk, PAYLOADS + 112, &[2, 0, 0, 0, 0, 0, 0, 0, b'a'])?;
    Ok(disk)
}

#[test]
fn whole_volumes_are_loaded(rt: HostRuntime) -> Result<(), Fail> {
    let alloc = rt.alloc();
    // As it was made.
    let mut disk = fresh(&rt, alloc);
    let mut store = found(alloc, &mut disk)??;
    let mut page = Page::zero();
    for (at, want) in [
        (offset(8, ROOT), [1, 1, 2, 0]),
        (offset(4, 16_777_216), [1, 0, 0, 0]),
        (offset(4, 16_781_312), [0, 0, 0, 0]),
    ] {
        store.page(at, &mut page)?;
        assert_eq!(rt; page.bytes()[..4], want[..], "{at:?}");
    }
    for (at, want) in [
        (offset(8, ROOT), true),
        (offset(4, 16_777_216), true),
        (offset(4, 16_781_312), false),
        (offset(8, FIRST), false),
    ] {
        assert_eq!(rt; store.has_page(at), want, "{at:?}");
    }
    // With a tree of two leaves.
    let mut disk = grown(&rt, alloc)?;
    let store = found(alloc, &mut disk)??;
    for place in [ROOT, FIRST, SECOND] {
        assert!(rt; store.has_page(offset(8, place)), "{place}");
    }
    assert!(rt; !store.has_page(offset(8, SECOND + 4_096)));
    // With two big-blocks of layer 2.
    let mut disk = MemDisk::new(alloc, 524_289, Vec::new(alloc));
    assert_eq!(rt; write_volume(&mut disk, 524_289), Ok(()));
    let store = found(alloc, &mut disk)??;
    assert!(rt; store.has_page(offset(4, 16_777_216)));
    assert!(rt; store.has_page(offset(4, 25_161_728)));
    assert!(rt; store.has_page(offset(4, 25_165_824)));
    assert!(rt; !store.has_page(offset(4, 25_169_920)));
    Ok(())
}

#[test]
fn damage_of_the_freemap_is_told(rt: HostRuntime) -> Result<(), Fail> {
    let mut disk = fresh(&rt, rt.alloc());
    for (place, byte, at, kind) in [
        // Layer 1.
        (8_388_608, 1, 0x4000_0000_0080_0000, 7),
        (8_388_615, 0xF0, 0x4000_0000_0080_0000, 7),
        (8_388_616, 1, 0x4000_0000_0080_0000, 7),
        (8_388_639, 1, 0x4000_0000_0080_0000, 7),
        (8_388_647, 0x40, 0x4000_0000_0080_0000, 7),
        (8_392_704, 1, 0x4000_0000_0080_1000, 7),
        (16_777_215, 1, 0x4000_0000_00FF_F000, 7),
        // Layer 2: the headers, the freemap, the log, the pool, and past the end.
        (16_777_216, 4, 0x4000_0000_0100_0000, 7),
        (16_777_217, 1, 0x4000_0000_0100_0000, 7),
        (16_777_220, 16, 0x4000_0000_0100_0000, 7),
        (16_777_224, 16, 0x4000_0000_0100_0000, 7),
        (16_777_228, 1, 0x4000_0000_0100_0000, 7),
        (16_777_232, 3, 0x4000_0000_0100_0000, 7),
        (16_777_264, 4, 0x4000_0000_0100_0000, 7),
        (16_777_392, 9, 0x4000_0000_0100_0000, 7),
        (16_777_396, 1, 0x4000_0000_0100_0000, 7),
        (16_777_408, 8, 0x4000_0000_0100_0000, 7),
        (16_777_412, 81, 0x4000_0000_0100_0000, 7),
        (16_777_424, 0, 0x4000_0000_0100_0000, 7),
        (16_777_440, 10, 0x4000_0000_0100_0000, 7),
        (16_777_456, 1, 0x4000_0000_0100_0000, 7),
        (16_777_460, 16, 0x4000_0000_0100_0000, 7),
        (16_777_600, 0, 0x4000_0000_0100_0000, 7),
        (16_781_312, 0, 0x4000_0000_0100_1000, 7),
        (25_165_808, 1, 0x4000_0000_017F_F000, 7),
        // A big-block of the pool that was begun once, and free bytes, which another part counts.
        (16_777_456, 11, 0, 0),
        (16_777_400, 1, 0, 0),
        // What no entry is of.
        (25_165_824, 1, 0, 0),
    ] {
        let damage = damage_by(rt.alloc(), &mut disk, place, byte)?;
        assert_eq!(rt; damage, want(at, kind), "{place} {byte}");
    }
    Ok(())
}

#[test]
fn damage_of_the_tree_is_told(rt: HostRuntime) -> Result<(), Fail> {
    let mut disk = grown(&rt, rt.alloc())?;
    for (place, byte, at, kind) in [
        // An inner node.
        (ROOT, 3, 0x8000_0000_0580_0000, 1),
        (ROOT + 1, 10, 0x8000_0000_0580_0000, 1),
        (ROOT + 1, 3, 0x8000_0000_0580_1000, 1),
        (ROOT + 2, 0, 0x8000_0000_0580_0000, 2),
        (ROOT + 2, 63, 0x8000_0000_0580_0000, 2),
        (ROOT + 4, 1, 0x8000_0000_0580_0000, 5),
        (ROOT + 8, 6, 0x8000_0000_0580_0000, 9),
        (ROOT + 8, 8, 0, 0),
        (ROOT + 16, 1, 0x8000_0000_0580_0000, 5),
        (ROOT + 63, 1, 0x8000_0000_0580_0000, 5),
        // The first child.
        (ROOT + 64 + 24, 1, 0x8000_0000_0580_0000, 5),
        (ROOT + 64 + 34, 1, 0x8000_0000_0580_0000, 5),
        (ROOT + 64 + 35, 1, 0x8000_0000_0580_0000, 5),
        (ROOT + 64 + 36, 1, 0x8000_0000_0580_0000, 4),
        (ROOT + 64 + 36, 3, 0x8000_0000_0580_0000, 3),
        (ROOT + 64 + 40, 1, 0x8000_0000_0580_0000, 5),
        (ROOT + 64 + 41, 0x20, 0x8000_0000_0580_2000, 4),
        (ROOT + 64 + 41, 0x30, 0x8000_0000_0580_3000, 1),
        (ROOT + 64 + 41, 0x00, 0x8000_0000_0580_0000, 1),
        (ROOT + 64 + 44, 1, 0x8000_0001_0580_1000, 1),
        (ROOT + 64 + 46, 0x10, 0x8000_0000_0580_0000, 5),
        (ROOT + 64 + 47, 0x90, 0x8000_0000_0580_0000, 5),
        (ROOT + 64 + 48, 4, 0x8000_0000_0580_1000, 9),
        (ROOT + 64 + 56, 1, 0x8000_0000_0580_0000, 5),
        // The second one.
        (ROOT + 128, 2, 0x8000_0000_0580_2000, 4),
        (ROOT + 128 + 8, 1, 0, 0),
        (ROOT + 128 + 36, 0, 0x8000_0000_0580_0000, 3),
        (ROOT + 128 + 41, 0x10, 0x8000_0000_0580_1000, 4),
        // The right boundary, and what follows it.
        (ROOT + 192, 1, 0x8000_0000_0580_0000, 4),
        (ROOT + 192 + 35, 1, 0x8000_0000_0580_0000, 5),
        (ROOT + 192 + 40, 1, 0x8000_0000_0580_0000, 5),
        (ROOT + 256, 1, 0x8000_0000_0580_0000, 5),
        (ROOT + 4_095, 1, 0x8000_0000_0580_0000, 5),
        // A leaf.
        (FIRST, 2, 0x8000_0000_0580_1000, 1),
        (FIRST + 1, 2, 0x8000_0000_0580_1000, 1),
        (FIRST + 2, 0, 0x8000_0000_0580_1000, 2),
        (FIRST + 2, 64, 0x8000_0000_0580_1000, 2),
        (FIRST + 2, 1, 0x8000_0000_0580_1000, 5),
        (FIRST + 7, 1, 0x8000_0000_0580_1000, 5),
        (FIRST + 8, 4, 0x8000_0000_0580_1000, 9),
        (FIRST + 8, 6, 0x8000_0000_0580_1000, 9),
        (FIRST + 64, 3, 0x8000_0000_0580_1000, 3),
        (FIRST + 64 + 8, 1, 0x8000_0000_0580_1000, 5),
        (FIRST + 64 + 16, 0, 0x8000_0000_0580_1000, 5),
        (FIRST + 64 + 24, 1, 0x8000_0000_0580_1000, 5),
        (FIRST + 64 + 24, 6, 0x8000_0000_0580_1000, 9),
        (FIRST + 64 + 24, 2, 0, 0),
        (FIRST + 64 + 32, 2, 0x8000_0000_0580_1000, 5),
        (FIRST + 64 + 34, 5, 0x8000_0000_0580_1000, 5),
        (FIRST + 64 + 34, 4, 0, 0),
        (FIRST + 64 + 35, 2, 0x8000_0000_0580_1000, 5),
        (FIRST + 64 + 36, 0, 0x8000_0000_0580_1000, 5),
        (FIRST + 64 + 47, 0x50, 0x8000_0000_0580_1000, 5),
        (FIRST + 64 + 48, 31, 0x9000_0000_0600_0000, 6),
        (FIRST + 64 + 48, 33, 0x9000_0000_0600_0000, 6),
        (FIRST + 64 + 51, 1, 0x9000_0000_0600_0000, 6),
        (FIRST + 64 + 52, 1, 0x8000_0000_0580_1000, 5),
        (FIRST + 128 + 36, 2, 0x8000_0000_0580_1000, 4),
        (FIRST + 192, 1, 0x8000_0000_0580_1000, 5),
        // The second leaf: the key of the entry fits its name but in its lowest 16 bits.
        (FIRST + 4_096 + 64 + 8, 1, 0, 0),
        (FIRST + 4_096 + 64 + 9, 1, 0, 0),
        (FIRST + 4_096 + 64 + 10, 1, 0x9000_0000_0600_0070, 6),
        (FIRST + 4_096 + 64 + 15, 0x58, 0x9000_0000_0600_0070, 6),
        (FIRST + 4_096 + 64 + 36, 1, 0x8000_0000_0580_2000, 4),
        // A snapshot has no payload that may be.
        (FIRST + 4_096 + 128 + 32, 0x16, 0x9000_0000_0600_0020, 6),
        // Payloads.
        (PAYLOADS, 5, 0x9000_0000_0600_0000, 6),
        (PAYLOADS + 1, 1, 0x9000_0000_0600_0000, 6),
        (PAYLOADS + 8, 1, 0x9000_0000_0600_0000, 6),
        (PAYLOADS + 20, 1, 0x9000_0000_0600_0000, 6),
        (PAYLOADS + 31, 1, 0x9000_0000_0600_0000, 6),
        (PAYLOADS + 16, 9, 0, 0),
        (PAYLOADS + 32, 3, 0x9000_0000_0600_0020, 6),
        (PAYLOADS + 32 + 16, 1, 0x9000_0000_0600_0020, 6),
        (PAYLOADS + 32 + 24, 2, 0x9000_0000_0600_0020, 6),
        (PAYLOADS + 32 + 40, 0, 0x9000_0000_0600_0020, 6),
        (PAYLOADS + 80 + 1, 1, 0x9000_0000_0600_0050, 6),
        (PAYLOADS + 80 + 8, 1, 0, 0),
        (PAYLOADS + 112 + 8, b'b', 0x9000_0000_0600_0070, 6),
        (PAYLOADS + 112 + 8, b'/', 0x9000_0000_0600_0070, 6),
        (PAYLOADS + 112, 3, 0, 0),
        (PAYLOADS + 121, 1, 0, 0),
    ] {
        let damage = damage_by(rt.alloc(), &mut disk, place, byte)?;
        assert_eq!(rt; damage, want(at, kind), "{place} {byte}");
    }
    Ok(())
}

#[test]
fn the_first_of_two_damages_is_told(rt: HostRuntime) -> Result<(), Fail> {
    let mut disk = grown(&rt, rt.alloc())?;
    for (one, other, at, kind) in [
        (8_392_704, 16_777_217, 0x4000_0000_0080_1000, 7),
        (8_392_704, 8_388_616, 0x4000_0000_0080_0000, 7),
        (16_781_329, 16_777_217, 0x4000_0000_0100_0000, 7),
        (16_781_329, ROOT + 4, 0x4000_0000_0100_1000, 7),
        (ROOT + 4, FIRST + 4, 0x8000_0000_0580_0000, 5),
        (SECOND + 4, FIRST + 4, 0x8000_0000_0580_1000, 5),
        (SECOND + 4, PAYLOADS + 81, 0x9000_0000_0600_0050, 6),
        (PAYLOADS + 81, PAYLOADS + 1, 0x9000_0000_0600_0000, 6),
        (PAYLOADS + 33, PAYLOADS + 112 + 8, 0x9000_0000_0600_0070, 6),
        (FIRST + 4, PAYLOADS + 1, 0x8000_0000_0580_1000, 5),
        (FIRST + 4, FIRST + 2, 0x8000_0000_0580_1000, 5),
    ] {
        let old = swap(&mut disk, one, 1)?;
        let damage = damage_by(rt.alloc(), &mut disk, other, 1)?;
        assert_eq!(rt; damage, want(at, kind), "{one} {other}");
        swap(&mut disk, one, old)?;
    }
    Ok(())
}

#[test]
fn each_read_that_fails_is_told(rt: HostRuntime) -> Result<(), Fail> {
    let alloc = rt.alloc();
    // Two calls of the disk read the header. Then 64 read each layer, one the root, and one each
    // payload.
    for call in [3, 66, 67, 130, 131, 132, 133] {
        let mut disk = fresh(&rt, alloc).failing(vec![in alloc; call]?);
        let want = Some(Fault::Media {
            before: 0,
            after: 1,
        });
        assert_eq!(rt; damage(alloc, &mut disk)?, want, "{call}");
    }
    let mut disk = fresh(&rt, alloc).failing(vec![in alloc; 134]?);
    assert_eq!(rt; damage(alloc, &mut disk)?, None);
    Ok(())
}
