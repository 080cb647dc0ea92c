// Slots that were laid out by hand, and what the rules for header slots make of them.
ghost use Rattle.std.specs.Prelude.{◌+◌, ◌≤◌, length};
ghost use Rattle.hm_header.specs.declared.header.TheConstants.{SLOT_BYTES};

use hm_header::{
    BODY_BYTES, GATE_OPEN, GATE_PLACE, Header, HeaderFault, SECOND_SLOT, SLOT_BYTES, VERSION,
    choose, encode,
};
use hm_types::{HOff, Id};

// The size of a disk of 24 big-blocks, in bytes.
const DISK: u64 = 201_326_592;

// The first 72 bytes of the slot of a fresh volume of 24 big-blocks: the root node stands at the
// start of big-block 11, and big-blocks 11 to 14 are the first to be filled.
const FRESH: [u8; 72] = [
    0x48, 0x4D, 0x52, 0x50, 0x52, 0x4F, 0x46, 0x31, // signature
    0x02, 0x00, 0x00, 0x00, 0x18, 0x00, 0x00, 0x00, // version, big-blocks
    0x01, 0x00, 0x00, 0x00, 0x00, 0x00, 0x00, 0x00, // generation
    0x01, 0x00, 0x00, 0x00, 0x00, 0x00, 0x00, 0x00, // last id
    0x00, 0x00, 0x80, 0x05, 0x00, 0x00, 0x00, 0x80, // root
    0x00, 0x00, 0x00, 0x00, 0x00, 0x00, 0x00, 0x00, // first entry, number of entries
    0x00, 0x00, 0x00, 0x00, 0x00, 0x00, 0x00, 0x00, // next entry, zeros
    0x0B, 0x00, 0x00, 0x00, 0x0C, 0x00, 0x00, 0x00, // append big-blocks
    0x0D, 0x00, 0x00, 0x00, 0x0E, 0x00, 0x00, 0x00,
];

// The header that those bytes spell.
fn fresh() -> Header {
    Header {
        version: VERSION,
        bigblocks: 24,
        generation: 1,
        last: Id(1),
        root: offset(8, 92_274_688),
        undo_first: 0,
        undo_count: 0,
        undo_next: 0,
        append: [11, 12, 13, 14],
    }
}

fn offset(zone: u8, byte: u64) -> HOff {
    HOff::make(zone, byte).unwrap_or_default()
}

// The slot of a fresh volume, laid out by hand, with its gate open.
fn fresh_slot() -> [u8; SLOT_BYTES] {
    let mut slot = [0; SLOT_BYTES];
    slot[..72].copy_from_slice(&FRESH);
    slot[GATE_PLACE] = GATE_OPEN;
    slot
}

// The same with other bytes at a place.
fn patched(at: usize, bytes: &[u8]) -> [u8; SLOT_BYTES]
    requires { at + length bytes.now ≤ SLOT_BYTES }
{
    let mut slot = fresh_slot();
    slot[at..at + bytes.len()].copy_from_slice(bytes);
    slot
}

// The slot of a fresh volume with this generation and this gate.
fn slot_with(generation: u64, gate: u8) -> [u8; SLOT_BYTES] {
    let mut slot = patched(16, &generation.to_le_bytes());
    slot[GATE_PLACE] = gate;
    slot
}

fn number_of(slot0: &[u8], slot1: &[u8]) -> Result<u8, HeaderFault> {
    choose(slot0, slot1, DISK).map(|answer| answer.1)
}

#[test]
fn the_next_generation_counts_where_its_slot_is_whole(rt: HostRuntime) {
    for (first, first_gate, second, second_gate, want) in [
        (1, 0xA5, 2, 0xA4, Ok(0)),
        (1, 0xA5, 2, 0x00, Ok(0)),
        (1, 0xA5, 2, 0xFF, Ok(0)),
        (1, 0xA5, 2, 0xA5, Ok(1)),
        (1, 0x00, 2, 0xA5, Ok(1)),
        (1, 0xA7, 2, 0xA5, Ok(1)),
        (9, 0x00, 5, 0xA5, Ok(1)),
        (1, 0x00, 2, 0x00, Err(HeaderFault::NotVolume)),
        (1, 0x5A, 2, 0x25, Err(HeaderFault::NotVolume)),
        (u64::MAX, 0xA5, 0, 0xA5, Ok(1)),
        (0, 0xA5, u64::MAX, 0xA5, Ok(0)),
        (5, 0xA5, 9, 0xA5, Ok(0)),
        (9, 0xA5, 5, 0xA5, Ok(0)),
        (6, 0xA5, 5, 0xA5, Ok(0)),
        (5, 0xA5, 5, 0xA5, Ok(0)),
    ] {
        let slot0 = slot_with(first, first_gate);
        let slot1 = slot_with(second, second_gate);
        assert_eq!(rt;
            number_of(&slot0, &slot1),
            want,
            "{first} {second} {second_gate:x}"
        );
    }
    // One without the signature does not count.
    let whole = fresh_slot();
    for at in 0..8usize {
        let slot = patched(at, &[0x00]);
        assert_eq!(rt;
            number_of(&slot, &slot),
            Err(HeaderFault::NotVolume),
            "{at}"
        );
        assert_eq!(rt; number_of(&slot, &whole), Ok(1), "{at}");
    }
    // Where a disk ends early, zeros stand.
    let zeros = [0; SLOT_BYTES];
    let none = Err(HeaderFault::NotVolume);
    assert_eq!(rt; number_of(&zeros, &zeros), none);
    assert_eq!(rt; number_of(&[], &[]), none);
    assert_eq!(rt; number_of(&FRESH, &[]), none);
    assert_eq!(rt; number_of(&whole[..GATE_PLACE], &[]), none);
    assert_eq!(rt; number_of(&whole, &[]), Ok(0));
    assert_eq!(rt; number_of(&whole[..1], &whole), Ok(1));
}

#[test]
fn the_first_field_out_of_range_is_told_by_its_place(rt: HostRuntime) {
    for (at, value, want) in [
        (8, 0, 8),
        (8, 1, 8),
        (8, 3, 8),
        (12, 23, 12),
        (12, 25, 12),
        (12, 1_048_577, 12),
        (12, u32::MAX, 12),
        (40, 16_256, 40),
        (40, u32::MAX, 40),
        (44, 16_129, 44),
        (44, 16_256, 44),
        (48, 16_256, 48),
        (48, u32::MAX, 48),
        (52, 1, 52),
        (52, 0x0100_0000, 52),
        (56, 10, 56),
        (56, 24, 56),
        (60, 10, 60),
        (60, 24, 60),
        (60, 11, 60),
        (64, 10, 64),
        (64, 24, 64),
        (64, 11, 64),
        (64, 12, 64),
        (68, 10, 68),
        (68, 24, 68),
        (68, 11, 68),
        (68, 12, 68),
        (68, 13, 68),
        (72, 1, 72),
        (4_092, 0x0100_0000, 72),
        (4_096, 1, 72),
        (16_379, 0x0100_0000, 72),
    ] {
        assert!(rt; at <= SLOT_BYTES - 4);
        let slot = patched(at, &value.to_le_bytes());
        let fault = Err(HeaderFault::BadField { place: want });
        assert_eq!(rt; choose(&slot, &[], DISK), fault, "{at} {value}");
    }
    // The last id, and the root.
    for (at, value, want) in [
        (24, 0, 24),
        (24, 0x8000_0000_0000_0000, 24),
        (24, u64::MAX, 24),
        // In zone 9, in zone 0, in zone 7, in volume 1.
        (32, 0x9000_0000_0580_0000, 32),
        (32, 0x0000_0000_0580_0000, 32),
        (32, 0x7000_0000_0580_0000, 32),
        (32, 0x8010_0000_0580_0000, 32),
        // Not at a multiple of 4,096.
        (32, 0x8000_0000_0580_0010, 32),
        (32, 0x8000_0000_0580_0800, 32),
        // In big-block 10, in big-block 24, at the end of what an offset may name.
        (32, 0x8000_0000_057F_F000, 32),
        (32, 0x8000_0000_0C00_0000, 32),
        (32, 0x800F_FFFF_FFFF_F000, 32),
    ] {
        assert!(rt; at <= SLOT_BYTES - 8);
        let slot = patched(at, &value.to_le_bytes());
        let fault = Err(HeaderFault::BadField { place: want });
        assert_eq!(rt; choose(&slot, &[], DISK), fault, "{at} {value:x}");
    }
    // A disk of less than its big-blocks.
    let slot = fresh_slot();
    let fault = Err(HeaderFault::BadField { place: 12 });
    assert_eq!(rt; choose(&slot, &[], DISK - 1), fault);
    assert_eq!(rt; choose(&slot, &[], 0), fault);
    assert_eq!(rt; choose(&slot, &[], DISK), Ok((fresh(), 0)));
    assert_eq!(rt; choose(&slot, &[], u64::MAX), Ok((fresh(), 0)));
    // The first of two bad fields.
    for (at, other, want) in [
        (8, 12, 8),
        (12, 24, 12),
        (24, 40, 24),
        (44, 52, 44),
        (52, 56, 52),
        (68, 72, 68),
    ] {
        assert!(rt; at <= 72);
        assert!(rt; other <= 72);
        let mut slot = patched(at, &[0xFF; 8]);
        slot[other..other + 8].copy_from_slice(&[0xFF; 8]);
        let fault = Err(HeaderFault::BadField { place: want });
        assert_eq!(rt; choose(&slot, &[], DISK), fault, "{at} {other}");
    }
}

#[test]
fn a_header_is_written_as_laid_out_and_read_again(rt: HostRuntime) {
    let mut body = [0xFF; BODY_BYTES];
    encode(&fresh(), &mut body);
    assert!(rt; fresh_slot().starts_with(&body));
    assert_eq!(rt; SECOND_SLOT, 16_384);
    assert_eq!(rt; BODY_BYTES, GATE_PLACE);
    // Also one at the ends of its ranges.
    let low = fresh();
    let high = Header {
        generation: u64::MAX,
        last: Id(0x7FFF_FFFF_FFFF_FFFF),
        root: offset(8, 201_322_496),
        undo_first: 16_255,
        undo_count: 16_128,
        undo_next: 16_255,
        append: [23, 22, 21, 20],
        ..fresh()
    };
    let largest = Header {
        bigblocks: 1_048_576,
        generation: 0x0102_0304_0506_0708,
        last: Id(0x1112_1314_1516_1718),
        root: offset(8, 100_663_296),
        undo_first: 0x1234,
        undo_count: 0x2345,
        undo_next: 0x3456,
        append: [12, 1_048_575, 0x0F_EDCB, 0x01_2345],
        ..fresh()
    };
    for header in [low, high, largest] {
        let mut body = [0xFF; BODY_BYTES];
        encode(&header, &mut body);
        let mut slot = [GATE_OPEN; SLOT_BYTES];
        slot[..BODY_BYTES].copy_from_slice(&body);
        assert_eq!(rt; choose(&slot, &[], 8_796_093_022_208), Ok((header, 0)));
        assert_eq!(rt; choose(&[], &slot, 8_796_093_022_208), Ok((header, 1)));
    }
}
