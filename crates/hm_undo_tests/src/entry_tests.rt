// Entries that were laid out by hand, and what is made of each change of their first 32 bytes.
use hm_fields::Page;
use hm_types::{HOff, PAGE_BYTES, UNDO_ENTRY_BYTES};
use hm_undo::{decode, encode};
use std::process::Abort;

type Entry = [u8; UNDO_ENTRY_BYTES];

// An offset, a generation, and the first 32 bytes of the entry with them.
type Row = (u64, u64, [u8; 32]);

// The root node of a fresh volume of 24 big-blocks, at the start of big-block 11.
const TREE: Row = (
    0x8000_0000_0580_0000,
    1,
    [
        0x48, 0x4D, 0x52, 0x55, 0x4E, 0x44, 0x4F, 0x31, // entry_signature
        0x00, 0x00, 0x80, 0x05, 0x00, 0x00, 0x00, 0x80, // offset
        0x01, 0x00, 0x00, 0x00, 0x00, 0x00, 0x00, 0x00, // generation
        0x00, 0x00, 0x00, 0x00, 0x00, 0x00, 0x00, 0x00, // zeros
    ],
);

// The second page of big-block 2, which is one of layer 2, and the greatest generation.
const LAYER2: Row = (
    0x4000_0000_0100_1000,
    u64::MAX,
    [
        0x48, 0x4D, 0x52, 0x55, 0x4E, 0x44, 0x4F, 0x31, // entry_signature
        0x00, 0x10, 0x00, 0x01, 0x00, 0x00, 0x00, 0x40, // offset
        0xFF, 0xFF, 0xFF, 0xFF, 0xFF, 0xFF, 0xFF, 0xFF, // generation
        0x00, 0x00, 0x00, 0x00, 0x00, 0x00, 0x00, 0x00, // zeros
    ],
);

// The last page of big-block 3, the second one of layer 2 where a volume has two.
const LAST: Row = (
    0x4000_0000_01FF_F000,
    0x0102_0304_0506_0708,
    [
        0x48, 0x4D, 0x52, 0x55, 0x4E, 0x44, 0x4F, 0x31, // entry_signature
        0x00, 0xF0, 0xFF, 0x01, 0x00, 0x00, 0x00, 0x40, // offset
        0x08, 0x07, 0x06, 0x05, 0x04, 0x03, 0x02, 0x01, // generation
        0x00, 0x00, 0x00, 0x00, 0x00, 0x00, 0x00, 0x00, // zeros
    ],
);

// The bytes of a page that was there before.
fn old_bytes() -> [u8; PAGE_BYTES] {
    let mut bytes = [0; PAGE_BYTES];
    for (k, byte) in bytes.iter_mut().enumerate() {
        *byte = (k % 251) as u8;
    }
    bytes
}

fn old_page() -> Page {
    let mut page = Page::zero();
    page.copy_from(&old_bytes());
    page
}

// An entry that was laid out by hand: these 32 bytes, and that page.
fn laid_out(head: &[u8; 32]) -> Entry {
    let mut entry = [0; UNDO_ENTRY_BYTES];
    entry[..32].copy_from_slice(head);
    entry[32..].copy_from_slice(&old_bytes());
    entry
}

fn offset(raw: u64) -> HOff {
    HOff::from_raw(raw).unwrap_or_default()
}

// Whether an entry is decoded, and then whether its parts are written as the same bytes again.
fn is_decoded(rt: &impl Abort, entry: &Entry) -> bool {
    match decode(entry) {
        Some((at, generation, old)) => {
            let mut again = [0xEE; UNDO_ENTRY_BYTES];
            encode(at, generation, &old, &mut again);
            assert!(rt; again == *entry);
            true
        }
        None => false,
    }
}

#[test]
fn entries_of_both_zones_are_written_as_laid_out(rt: HostRuntime) {
    for (raw, generation, head) in [TREE, LAYER2, LAST] {
        let mut entry = [0xEE; UNDO_ENTRY_BYTES];
        encode(offset(raw), generation, &old_page(), &mut entry);
        assert!(rt; entry == laid_out(&head), "{raw:x}");
    }
}

#[test]
fn entries_that_were_laid_out_are_read(rt: HostRuntime) {
    for (raw, generation, head) in [TREE, LAYER2, LAST] {
        match decode(&laid_out(&head)) {
            Some((at, read, old)) => {
                assert_eq!(rt; (at.raw(), read), (raw, generation));
                assert!(rt; *old.bytes() == old_bytes(), "{raw:x}");
            }
            None => panic!(rt; "no entry"),
        }
    }
}

// Whether the entry of the tree may have this value in this byte of the first 32, beside its other
// bytes. The offset is a multiple of 4,096 in zone 8 of volume 0, and its volume stands in bits 52 to 59.
fn tree_takes(at: usize, value: u8) -> bool {
    match at {
        9 => value % 16 == 0,
        10..=13 | 16..=23 => true,
        14 => value < 16,
        15 => value == 0x80,
        8 | 24..=31 => value == 0,
        _ => false,
    }
}

// The same of the entry of layer 2. Its big-block is twice the byte at 11, and one more from 128 on in
// the byte at 10: 2 or 3, unless the zone is 8.
fn layer2_takes(at: usize, value: u8) -> bool {
    match at {
        9 => value % 16 == 0,
        10 | 16..=23 => true,
        11 => value == 1,
        15 => value == 0x40 || value == 0x80,
        8 | 12..=14 | 24..=31 => value == 0,
        _ => false,
    }
}

#[test]
fn each_byte_of_the_head_of_a_page_of_the_tree_is_checked(rt: HostRuntime) {
    let whole = laid_out(&TREE.2);
    assert!(rt; is_decoded(&rt, &whole));
    for at in 0..32usize {
        for value in 0..=255u8 {
            let mut entry = whole;
            entry[at] = value;
            let want = entry == whole || tree_takes(at, value);
            assert_eq!(rt; is_decoded(&rt, &entry), want, "{at} {value}");
        }
    }
}

#[test]
fn each_byte_of_the_head_of_a_page_of_layer_2_is_checked(rt: HostRuntime) {
    let whole = laid_out(&LAYER2.2);
    assert!(rt; is_decoded(&rt, &whole));
    for at in 0..32usize {
        for value in 0..=255u8 {
            let mut entry = whole;
            entry[at] = value;
            let want = entry == whole || layer2_takes(at, value);
            assert_eq!(rt; is_decoded(&rt, &entry), want, "{at} {value}");
        }
    }
}

#[test]
fn offsets_are_those_of_pages_of_both_zones(rt: HostRuntime) {
    for (raw, want) in [
        // Zone 8: each multiple of 4,096.
        (0x8000_0000_0000_0000, true),
        (0x8000_0000_0580_1000, true),
        (0x800F_FFFF_FFFF_F000, true),
        (0x8000_0000_0580_0800, false),
        (0x8000_0000_0580_0001, false),
        // Zone 4: those in big-blocks 2 and 3.
        (0x4000_0000_00FF_F000, false),
        (0x4000_0000_0100_0000, true),
        (0x4000_0000_017F_F000, true),
        (0x4000_0000_0180_0000, true),
        (0x4000_0000_01FF_F000, true),
        (0x4000_0000_0200_0000, false),
        (0x4000_0000_0180_0800, false),
        (0x4000_0000_0000_0000, false),
        // Each other zone, and one without a name.
        (0x1000_0000_0180_0000, false),
        (0x2000_0000_0180_0000, false),
        (0x3000_0000_0180_0000, false),
        (0x9000_0000_0580_0000, false),
        (0xA000_0000_0580_0000, false),
        (0xB000_0000_0580_0000, false),
        (0xF000_0000_0000_0000, false),
        (0x0000_0000_0580_0000, false),
        (0x7000_0000_0580_0000, false),
        // Another volume.
        (0x8010_0000_0580_0000, false),
        (0x8FF0_0000_0580_0000, false),
        (0x4010_0000_0180_0000, false),
    ] {
        let mut entry = laid_out(&TREE.2);
        entry[8..16].copy_from_slice(&u64::to_le_bytes(raw));
        assert_eq!(rt; is_decoded(&rt, &entry), want, "{raw:x}");
    }
}

#[test]
fn any_page_is_taken_and_zeros_are_no_entry(rt: HostRuntime) {
    for value in [0, 1, 0x7F, 0xFF] {
        let mut entry = laid_out(&TREE.2);
        entry[32..].fill(value);
        assert!(rt; is_decoded(&rt, &entry), "{value}");
    }
    assert!(rt; !is_decoded(&rt, &[0; UNDO_ENTRY_BYTES]));
    assert!(rt; !is_decoded(&rt, &[0xFF; UNDO_ENTRY_BYTES]));
}
