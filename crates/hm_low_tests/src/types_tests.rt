// What a caller gives and reads back, values of the layout worked out by hand, and the faults that a
// refused allocation becomes.
use bitflags::Flags;
use hm_types::{
    BAD_BOUNDS, BAD_COUNT, BAD_EXTENT, BAD_FIELD, BAD_FREE_BYTES, BAD_FREEMAP, BAD_LEVEL,
    BAD_MIRROR, BAD_ORDER, BAD_OVERLAP, BAD_PAYLOAD, BAD_REFERENCES, BAD_UNDO, BIGBLOCK_BYTES,
    BLOCK_BYTES, Bytes, FREEMAP_ZONE, FULL_GROUP_PAGES, Fault, GREATEST_ID, HOff, INSERT_ROOM, Id,
    Ids, LARGE_ZONE, LEAST_BIGBLOCKS, LEAST_PLACES, META_ZONE, MOST_BIGBLOCKS, MOST_CAT_BYTES,
    MOST_FILE_BYTES, MOST_GROUP_PAGES, MOST_INNER_CHILDREN, MOST_INTERVALS, MOST_LANES,
    MOST_LEAF_ELEMENTS, MOST_LEVELS, MOST_NAME_BYTES, MOST_PATH_BYTES, MOST_PATH_PARTS, MOST_PFS,
    MOST_REFERENCES, MOST_SCRIPT_BYTES, MOST_SCRIPT_LINES, MOST_TARGET_BYTES, MOST_WRITE_BYTES,
    Name, Names, NoMemory, PAGE_BYTES, PAYLOAD_RESERVE, RAW_ZONE, SMALL_ZONE, SpaceFault,
    TREE_RESERVE, TREE_ZONE, Text, UNAVAILABLE_ZONE, UNDO_BIGBLOCKS, UNDO_ENTRIES,
    UNDO_ENTRY_BYTES, UNDO_ZONE, VOLUME_ZONE, Zones, first_pool, first_undo, is_layer2, is_name,
    is_pool, layer2_blocks, name_hash, rounded,
};
use std::alloc::{AllocError, AllocFailed};
use std::test::Fail;

#[test]
fn keeps_bytes_and_lists(rt: HostRuntime) -> Result<(), Fail> {
    let alloc = rt.alloc();

    let text = Text::of(vec![in alloc; b'/', b'a']?);
    assert_eq!(rt; text.bytes(), b"/a".as_slice());
    assert!(rt; text.clone()? == text);

    let bytes = Bytes::of(vec![in alloc; 0, 255]?);
    assert_eq!(rt; bytes.bytes(), [0, 255].as_slice());
    assert!(rt; bytes.clone()? == bytes);

    let name = Name::of(vec![in alloc; b'a']?);
    assert_eq!(rt; name.bytes(), b"a".as_slice());

    let ids = Ids::of(vec![in alloc; Id(2), Id(5)]?);
    assert_eq!(rt; ids.list(), [Id(2), Id(5)].as_slice());
    assert!(rt; ids.clone()? == ids);

    let names = Names::of(vec![in alloc; (1, name)]?);
    assert_eq!(rt; names.list().len(), 1);
    assert!(rt; names.clone()? == names);
    Ok(())
}

#[test]
fn makes_no_memory_of_a_refused_allocation(rt: HostRuntime) {
    let fault = SpaceFault::Fault(Fault::NoMemory);
    assert_eq!(rt; NoMemory::from(AllocError), NoMemory);
    assert_eq!(rt; NoMemory::from(AllocFailed { value: 1u8 }), NoMemory);
    assert_eq!(rt; Fault::from(NoMemory), Fault::NoMemory);
    assert_eq!(rt; Fault::from(AllocError), Fault::NoMemory);
    assert_eq!(rt; Fault::from(AllocFailed { value: 1u8 }), Fault::NoMemory);
    assert_eq!(rt; SpaceFault::from(NoMemory), fault);
    assert_eq!(rt; SpaceFault::from(AllocError), fault);
    assert_eq!(rt; SpaceFault::from(AllocFailed { value: 1u8 }), fault);
}

#[test]
fn kinds_zones_and_limits_are_those_of_the_format(rt: HostRuntime) {
    for (number, want) in [
        // The kinds of damage.
        (u64::from(BAD_LEVEL), 1),
        (u64::from(BAD_COUNT), 2),
        (u64::from(BAD_ORDER), 3),
        (u64::from(BAD_BOUNDS), 4),
        (u64::from(BAD_FIELD), 5),
        (u64::from(BAD_PAYLOAD), 6),
        (u64::from(BAD_FREEMAP), 7),
        (u64::from(BAD_UNDO), 8),
        (u64::from(BAD_MIRROR), 9),
        (u64::from(BAD_EXTENT), 10),
        (u64::from(BAD_OVERLAP), 11),
        (u64::from(BAD_FREE_BYTES), 12),
        (u64::from(BAD_REFERENCES), 13),
        // The zones, which have HAMMER's numbers.
        (u64::from(VOLUME_ZONE), 1),
        (u64::from(RAW_ZONE), 2),
        (u64::from(UNDO_ZONE), 3),
        (u64::from(FREEMAP_ZONE), 4),
        (u64::from(TREE_ZONE), 8),
        (u64::from(META_ZONE), 9),
        (u64::from(LARGE_ZONE), 10),
        (u64::from(SMALL_ZONE), 11),
        (u64::from(UNAVAILABLE_ZONE), 15),
        // The limits of space.
        (BIGBLOCK_BYTES, 8_388_608),
        (u64::from(LEAST_BIGBLOCKS), 24),
        (u64::from(MOST_BIGBLOCKS), 1_048_576),
        (u64::from(TREE_RESERVE), 1_048_576),
        (u64::from(PAYLOAD_RESERVE), 131_072),
        (u64::from(INSERT_ROOM), 40_960),
        (u64::from(MOST_REFERENCES), 64),
        (u64::from(MOST_GROUP_PAGES), 16_128),
        (u64::from(FULL_GROUP_PAGES), 1_024),
        (u64::from(UNDO_BIGBLOCKS), 8),
        (u64::from(UNDO_ENTRIES), 16_256),
        (UNDO_ENTRY_BYTES as u64, 4_128),
        (PAGE_BYTES as u64, 4_096),
        // The limits of calls.
        (GREATEST_ID, 9_223_372_036_854_775_807),
        (BLOCK_BYTES as u64, 16_384),
        (MOST_FILE_BYTES, 15_728_640),
        (u64::from(MOST_WRITE_BYTES), 65_536),
        (u64::from(MOST_CAT_BYTES), 16_384),
        (MOST_NAME_BYTES as u64, 255),
        (MOST_PATH_BYTES as u64, 1_023),
        (MOST_PATH_PARTS as u64, 64),
        (MOST_TARGET_BYTES as u64, 1_023),
        (u64::from(MOST_LEVELS), 9),
        (MOST_LEAF_ELEMENTS as u64, 63),
        (MOST_INNER_CHILDREN as u64, 62),
        (LEAST_PLACES as u64, 16),
        (u64::from(MOST_LANES), 8),
        (MOST_SCRIPT_BYTES as u64, 67_108_864),
        (u64::from(MOST_SCRIPT_LINES), 65_536),
        (u64::from(MOST_PFS), 65_536),
        (MOST_INTERVALS as u64, 4_096),
    ] {
        assert_eq!(rt; number, want);
    }
}

#[test]
fn lays_volumes_out(rt: HostRuntime) {
    for (bigblocks, layer2, undo, pool) in [
        (24, 1, 3, 11),
        (524_288, 1, 3, 11),
        (524_289, 2, 4, 12),
        (1_048_576, 2, 4, 12),
    ] {
        assert_eq!(rt; layer2_blocks(bigblocks), layer2, "{bigblocks}");
        assert_eq!(rt; first_undo(bigblocks), undo, "{bigblocks}");
        assert_eq!(rt; first_pool(bigblocks), pool, "{bigblocks}");
    }
    // Lengths are rounded up to extents.
    for (len, want) in [
        (0, 0),
        (1, 16),
        (16, 16),
        (17, 32),
        (16_384, 16_384),
        (65_568, 65_568),
    ] {
        assert_eq!(rt; rounded(len), want, "{len}");
    }
}

#[test]
fn tells_layer_2(rt: HostRuntime) {
    for (bigblocks, block, want) in [
        (24, 1, false),
        (24, 2, true),
        (24, 3, false),
        (524_288, 3, false),
        (524_289, 3, true),
        (1_048_576, 3, true),
        (1_048_576, 4, false),
    ] {
        assert_eq!(rt; is_layer2(bigblocks, block), want, "{bigblocks} {block}");
    }
}

#[test]
fn tells_the_pool(rt: HostRuntime) {
    for (bigblocks, block, want) in [
        (24, 10, false),
        (24, 11, true),
        (24, 23, true),
        (24, 24, false),
        (524_289, 11, false),
        (524_289, 12, true),
    ] {
        assert_eq!(rt; is_pool(bigblocks, block), want, "{bigblocks} {block}");
    }
}

#[test]
fn names_are_told_from_other_words_and_hashed(rt: HostRuntime) {
    let longest = [b'a'; 255];
    let too_long = [b'a'; 256];
    assert!(rt; is_name(&longest));
    assert!(rt; !is_name(&too_long));
    for (word, want) in [
        ("a", true),
        ("...", true),
        ("a@b@", true),
        ("\u{e9}", true),
        ("", false),
        (".", false),
        ("..", false),
        ("a@@b", false),
        ("@@", false),
        ("a/b", false),
        ("a b", false),
        ("a\t", false),
        ("\u{7f}", false),
    ] {
        assert_eq!(rt; is_name(word.as_bytes()), want, "{word:?}");
    }
    // The hashes are the published ones of 64-bit FNV-1a.
    for (name, want) in [
        ("", 0xcbf2_9ce4_8422_2325),
        ("a", 0xaf63_dc4c_8601_ec8c),
        ("foobar", 0x8594_4171_f739_67e8),
    ] {
        assert_eq!(rt; name_hash(name.as_bytes()), want, "{name}");
    }
}

#[test]
fn offsets_are_made_and_read(rt: HostRuntime) {
    for (zone, byte, want) in [
        // The root node of a fresh volume of 24 big-blocks stands at the start of big-block 11.
        (8, 92_274_688, Some(0x8000_0000_0580_0000)),
        (1, 0, Some(0x1000_0000_0000_0000)),
        (4, 16, Some(0x4000_0000_0000_0010)),
        (15, 0, Some(0xF000_0000_0000_0000)),
        (11, 0xF_FFFF_FFFF_FFFF, Some(0xB00F_FFFF_FFFF_FFFF)),
        (11, 0x10_0000_0000_0000, None),
        (0, 0, None),
        (5, 0, None),
        (7, 0, None),
        (12, 0, None),
        (14, 0, None),
        (16, 0, None),
        (24, 0, None),
    ] {
        assert_eq!(rt;
            HOff::make(zone, byte).map(HOff::raw),
            want,
            "{zone} {byte}"
        );
    }
    // The default is the start of the volume.
    assert_eq!(rt; Some(HOff::default()), HOff::make(1, 0));
    for (raw, want) in [
        (0x8000_0000_0580_0000, Some((8, 92_274_688))),
        (0xF000_0000_0000_0000, Some((15, 0))),
        (0x8010_0000_0580_0000, None),
        (0x8FF0_0000_0580_0000, None),
        (0x0000_0000_0580_0000, None),
        (0xC000_0000_0580_0000, None),
    ] {
        let parts = HOff::from_raw(raw).map(|at| (at.zone(), at.byte()));
        assert_eq!(rt; parts, want, "{raw:x}");
    }
}

#[test]
fn joins_sets_of_zones_and_looks_into_them(rt: HostRuntime) {
    let records = Zones::TREE.union(Zones::META);
    let all = records.union(Zones::LARGE).union(Zones::SMALL);
    for (zones, tree, meta, large, small) in [
        (Zones::TREE, true, false, false, false),
        (Zones::META, false, true, false, false),
        (Zones::LARGE, false, false, true, false),
        (Zones::SMALL, false, false, false, true),
        (records, true, true, false, false),
        (all, true, true, true, true),
    ] {
        assert_eq!(rt; zones.contains(Zones::TREE), tree);
        assert_eq!(rt; zones.contains(Zones::META), meta);
        assert_eq!(rt; zones.contains(Zones::LARGE), large);
        assert_eq!(rt; zones.contains(Zones::SMALL), small);
    }
    assert_eq!(rt; all.bits(), 15);
}
