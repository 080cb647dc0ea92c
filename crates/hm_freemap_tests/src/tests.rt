// Entries, places and calls on small volumes, which were reckoned by hand.
ghost use Rattle.std.specs.Prelude.{◌≤◌, ◌<◌};

use crate::made::Made;
use crate::one_page::OnePage;
use bitflags::Flags;
use hm_fields::{Page, State, put_u8, put_u64};
use hm_freemap::{
    Entry, Freemap, fresh_page, layer1_offset, page_of, place_of, read_layer1, write_layer1,
};
use hm_types::{Fault, HOff, SpaceFault, Zones, first_pool};
use std::process::Abort;
use std::test::Fail;

// A volume of 24 big-blocks as it was made.
fn volume() -> Freemap<OnePage> {
    let mut page = Page::zero();
    fresh_page(24, &[4_096, 80, 0, 0], 0, &mut page);
    again(OnePage {
        committed: page,
        frozen: page,
        current: page,
        reads: 0,
        changes: 0,
    })
}

// The entry of a big-block of the pool that belongs to a zone.
fn owned(zone: u8, append_off: u32, bytes_free: i32) -> Entry {
    Entry {
        zone,
        append_off,
        bytes_free,
    }
}

// Puts an entry of a big-block into the current page of a small volume.
fn put(freemap: Freemap<OnePage>, block: u64, entry: &Entry) -> Freemap<OnePage> {
    let (mut pages, _) = freemap.into_parts();
    entry.write(&mut pages.current, place_of(block));
    again(pages)
}

// A freemap over the pages of a small volume.
fn again(pages: OnePage) -> Freemap<OnePage> {
    Freemap::over(pages, 24, [11, 12, 13, 14])
}

// The same, where zone 10 appends to big-block 15.
fn moved(pages: OnePage) -> Freemap<OnePage> {
    Freemap::over(pages, 24, [11, 12, 15, 14])
}

#[test]
fn entries_out_of_range_are_not_read(rt: HostRuntime) {
    for (zone, append_off, bytes_free, want) in [
        (0u8, 0u32, 8_388_608i32, true),
        (0, 16, 8_388_608, false),
        (0, 0, 8_388_592, false),
        (1, 0, 0, true),
        (1, 0, 16, false),
        (2, 0, 0, false),
        (3, 16, 0, false),
        (4, 0, 0, true),
        (7, 0, 0, false),
        (8, 4_096, -1, true),
        (8, 16, 0, false),
        (9, 16, -2_147_483_648, true),
        (10, 8_388_608, 0, true),
        (10, 8_388_624, 0, false),
        (11, 8, 0, false),
        (12, 0, 0, false),
        (15, 0, 0, true),
        (16, 0, 0, false),
    ] {
        let mut page = Page::zero();
        let entry = owned(zone, append_off, bytes_free);
        entry.write(&mut page, 32);
        let wanted = if want { Some(entry) } else { None };
        assert_eq!(rt;
            Entry::read(&page, 32),
            wanted,
            "{zone} {append_off} {bytes_free}"
        );
        assert!(rt; Entry::read(&page, 48).is_none());
        for place in [33usize, 34, 35, 44, 45, 46, 47] {
            let mut bad = page;
            assert!(rt; place <= 47);
            put_u8(&mut bad, place, 1);
            assert!(rt; Entry::read(&bad, 32).is_none(), "{place}");
        }
    }
}

#[test]
fn an_entry_stands_with_its_lowest_bytes_first(rt: HostRuntime) {
    let mut page = Page::zero();
    owned(9, 0x0001_0250, -2).write(&mut page, 16);
    assert_eq!(rt;
        &page.bytes()[16..32],
        [
            9, 0, 0, 0, 0x50, 2, 1, 0, 0xFE, 0xFF, 0xFF, 0xFF, 0, 0, 0, 0
        ]
        .as_slice()
    );
}

#[test]
fn layer_1_tells_where_layer_2_is(rt: HostRuntime) {
    for (bigblocks, i, want) in [
        (24, 0, 0x4000_0000_0100_0000u64),
        (24, 1, 0xF000_0000_0000_0000),
        (524_288, 1, 0xF000_0000_0000_0000),
        (524_289, 1, 0x4000_0000_0180_0000),
        (1_048_576, 2, 0xF000_0000_0000_0000),
    ] {
        let offset = layer1_offset(bigblocks, i);
        assert_eq!(rt; offset.raw(), want);
        let mut page = Page::zero();
        write_layer1(&mut page, 64, offset);
        assert_eq!(rt; read_layer1(&page, 64), Some(offset));
        for place in 72..96usize {
            let mut bad = page;
            put_u8(&mut bad, place, 1);
            assert!(rt; read_layer1(&bad, 64).is_none(), "{place}");
        }
    }
    for raw in [
        // No zone, another zone, and none that there is.
        0u64,
        0x3000_0000_0100_0000,
        0x5000_0000_0100_0000,
        // Another volume, no big-block's beginning, and more than byte 0 of zone 15.
        0x4010_0000_0100_0000,
        0x4000_0000_0100_1000,
        0xF000_0000_0000_0010,
    ] {
        let mut page = Page::zero();
        put_u64(&mut page, 0, raw);
        assert!(rt; read_layer1(&page, 0).is_none(), "{raw:x}");
    }
}

#[test]
fn entries_stand_in_order_of_their_big_blocks(rt: HostRuntime) {
    for (block, page, place) in [
        (0u64, 16_777_216u64, 0usize),
        (255, 16_777_216, 4_080),
        (256, 16_781_312, 0),
        (524_287, 25_161_728, 4_080),
        (524_288, 25_165_824, 0),
        (1_048_575, 33_550_336, 4_080),
    ] {
        assert_eq!(rt; Some(page_of(block)), HOff::make(4, page), "{block}");
        assert_eq!(rt; place_of(block), place, "{block}");
    }
}

#[test]
fn a_small_volume_has_nine_free_big_blocks(rt: HostRuntime) -> Result<(), Fail> {
    let mut freemap = volume();
    assert_eq!(rt; freemap.free_blocks()?, 9);
    assert_eq!(rt; freemap.live_bytes(11)?, 4_096);
    assert_eq!(rt; freemap.live_bytes(12)?, 80);
    assert_eq!(rt; freemap.live_bytes(23)?, 0);
    let (pages, _) = freemap.into_parts();
    assert_eq!(rt; (pages.reads, pages.changes), (6, 0));
    Ok(())
}

#[test]
fn the_smallest_and_the_largest_layout_have_their_free_big_blocks(
    rt: HostRuntime,
) -> Result<(), Fail> {
    for (bigblocks, first, pool, free, pages, last) in [
        (24u32, 11u32, 13u32, 9u32, 1u64, 16_777_216u64),
        (524_289, 12, 524_277, 524_273, 2_049, 25_165_824),
    ] {
        assert!(rt; (24..=1_048_576).contains(&bigblocks));
        let mut freemap = made(bigblocks, 4_096);
        assert_eq!(rt; freemap.free_blocks()?, free);
        let (read, append) = freemap.into_parts();
        assert_eq!(rt; (read.reads, read.last), (3 * pages, last));
        assert_eq!(rt; append[0], first);
        assert_eq!(rt; bigblocks - first_pool(bigblocks), pool);
    }
    Ok(())
}

// A volume as it was made, but that zone 8 has taken so many bytes.
fn made(bigblocks: u32, taken: u32) -> Freemap<Made>
    requires least { 24 ≤ bigblocks }
    requires most { bigblocks ≤ 1048576 }
    requires taken { taken ≤ 8388608 }
{
    let pages = Made {
        bigblocks,
        taken,
        reads: 0,
        changes: 0,
        last: 0,
    };
    let first = first_pool(bigblocks);
    Freemap::over(pages, bigblocks, [first, first + 1, first + 2, first + 3])
}

#[test]
fn admit_looks_no_further_than_it_needs(rt: HostRuntime) {
    for (taken, held, free, reads) in [
        // The zone has room.
        (4_096u32, 4u32, None, 1u64),
        // The first page of layer 2 has 240 free big-blocks, and one is needed.
        (8_388_608, 239, None, 1 + 3 + 1),
        (8_388_608, 240, None, 1 + 6 + 1),
        // All of them are not enough.
        (8_388_608, 524_273, Some(524_273), 1 + 3 * 2_049),
    ] {
        assert!(rt; taken <= 8_388_608);
        let mut freemap = made(524_289, taken);
        let want = match free {
            Some(free) => Err(SpaceFault::NoSpace { free, needed: 1 }),
            None => Ok(()),
        };
        assert_eq!(rt; freemap.admit(Zones::TREE, held), want, "{held}");
        let (pages, _) = freemap.into_parts();
        assert_eq!(rt; pages.reads, reads, "{held}");
    }
}

// The first page of layer 2, in bytes from the start of the volume.
const FIRST_PAGE: u64 = 16_777_216;

// What is told of a page with a bad entry.
fn damage_at(page: u64) -> Fault {
    Fault::Damaged {
        at: HOff::make(4, page).unwrap_or_default(),
        kind: 7,
    }
}

// A small volume where one byte of the entry of a big-block is another one, in one of the states.
fn with_byte(state: State, block: u64, place: usize, value: u8) -> Freemap<OnePage>
    requires { place < 16 }
{
    let (mut pages, _) = volume().into_parts();
    let page = match state {
        State::Committed => &mut pages.committed,
        State::Frozen => &mut pages.frozen,
        State::Current => &mut pages.current,
    };
    put_u8(page, place_of(block) + place, value);
    again(pages)
}

#[test]
fn each_field_of_a_bad_entry_is_told_at_its_page(rt: HostRuntime) {
    for (block, place, value) in [
        // The zone: of the headers, the log, the freemap and the volume's end, none that there is,
        // and a second byte.
        (16u32, 0usize, 1u8),
        (16, 0, 3),
        (16, 0, 4),
        (16, 0, 15),
        (16, 0, 2),
        (16, 0, 5),
        (16, 0, 7),
        (16, 0, 12),
        (16, 0, 14),
        (16, 0, 16),
        (16, 0, 255),
        (16, 1, 1),
        (12, 2, 1),
        (16, 3, 1),
        // The offset: of an unused big-block, no whole page, no multiple of 16, and past the end.
        (16, 4, 16),
        (23, 7, 1),
        (11, 4, 16),
        (11, 5, 8),
        (12, 4, 88),
        (13, 4, 8),
        (14, 4, 1),
        (11, 6, 128),
        (12, 6, 128),
        (13, 7, 1),
        (14, 7, 128),
        // The free bytes of an unused one.
        (16, 8, 16),
        (16, 9, 1),
        (16, 10, 0),
        (23, 11, 128),
        // What must be zero.
        (16, 12, 1),
        (11, 13, 1),
        (12, 14, 1),
        (23, 15, 1),
    ] {
        assert!(rt; place < 16);
        for state in [State::Committed, State::Frozen, State::Current] {
            let mut freemap = with_byte(state, u64::from(block), place, value);
            assert_eq!(rt;
                freemap.free_blocks(),
                Err(damage_at(FIRST_PAGE)),
                "{block} {place} {state:?}"
            );
        }
        let mut freemap = with_byte(State::Current, u64::from(block), place, value);
        assert_eq!(rt;
            freemap.live_bytes(block),
            Err(damage_at(FIRST_PAGE)),
            "{block} {place}"
        );
    }
}

#[test]
fn calls_on_a_bad_entry_tell_it(rt: HostRuntime) {
    let mut freemap = with_byte(State::Current, 12, 0, 10);
    assert_eq!(rt; take(&mut freemap, 9, 16), Err(damage_at(FIRST_PAGE)));
    assert_eq!(rt;
        freemap.admit(Zones::META, 0),
        Err(SpaceFault::Fault(damage_at(FIRST_PAGE)))
    );
    let mut freemap = with_byte(State::Current, 12, 4, 88);
    let at = HOff::make(9, 12 * 8_388_608).unwrap_or_default();
    assert_eq!(rt; take(&mut freemap, 9, 16), Err(damage_at(FIRST_PAGE)));
    assert_eq!(rt; freemap.share_extent(at, 80), Err(damage_at(FIRST_PAGE)));
    assert_eq!(rt; freemap.give_extent(at, 80), Err(damage_at(FIRST_PAGE)));
    assert_eq!(rt; freemap.live_bytes(12), Err(damage_at(FIRST_PAGE)));
    assert_eq!(rt; freemap.live_bytes(11), Ok(4_096));
}

#[test]
fn an_entry_that_tells_more_free_bytes_than_an_extent_leaves_is_damage(
    rt: HostRuntime,
) -> Result<(), Fail> {
    for (bytes_free, len, live) in [
        // As many bytes are live as the extent has, or some more.
        (8_388_528i32, 80u32, Some((0i64, 160i64))),
        (8_388_592, 1, Some((0, 32))),
        (-1, 16, Some((8_388_593, 8_388_625))),
        // One fewer, none, and fewer than none.
        (8_388_528, 81, None),
        (8_388_593, 1, None),
        (8_388_608, 16, None),
        (2_147_483_647, 1, None),
        (-2_147_483_648, 4_294_967_295, None),
    ] {
        let entry = owned(9, 80, bytes_free);
        let at = HOff::make(9, 12 * 8_388_608).unwrap_or_default();
        let mut giving = put(volume(), 12, &entry);
        let mut sharing = put(volume(), 12, &entry);
        let given = giving.give_extent(at, len);
        let shared = sharing.share_extent(at, len);
        if let Some((after_giving, after_sharing)) = live {
            assert_eq!(rt; given, Ok(()), "{bytes_free} {len}");
            assert_eq!(rt; shared, Ok(()), "{bytes_free} {len}");
            assert_eq!(rt; giving.live_bytes(12)?, after_giving, "{bytes_free} {len}");
            assert_eq!(rt;
                sharing.live_bytes(12)?,
                after_sharing,
                "{bytes_free} {len}"
            );
        } else {
            assert_eq!(rt; given, Err(damage_at(FIRST_PAGE)), "{bytes_free} {len}");
            assert_eq!(rt; shared, Err(damage_at(FIRST_PAGE)), "{bytes_free} {len}");
            let (given, _) = giving.into_parts();
            let (shared, _) = sharing.into_parts();
            assert_eq!(rt; (given.changes, shared.changes), (0, 0));
        }
    }
    Ok(())
}

#[test]
fn offsets_outside_the_pool_are_damage_at_the_page_of_their_entry(rt: HostRuntime) {
    for (zone, block, page) in [
        (8u8, 0u32, FIRST_PAGE),
        (4, 1, FIRST_PAGE),
        (3, 10, FIRST_PAGE),
        (9, 24, FIRST_PAGE),
        (11, 256, 16_781_312),
        (15, 536_870_911, 8_606_707_712),
    ] {
        let mut freemap = volume();
        let at = HOff::make(zone, u64::from(block) * 8_388_608).unwrap_or_default();
        assert_eq!(rt;
            freemap.give_extent(at, 16),
            Err(damage_at(page)),
            "{block}"
        );
        assert_eq!(rt;
            freemap.share_extent(at, 16),
            Err(damage_at(page)),
            "{block}"
        );
        assert_eq!(rt; freemap.live_bytes(block), Err(damage_at(page)), "{block}");
        let (pages, _) = freemap.into_parts();
        assert_eq!(rt; (pages.reads, pages.changes), (0, 0));
    }
}

// Takes an extent.
fn take(freemap: &mut Freemap<OnePage>, zone: u8, len: u32) -> Result<HOff, Fault>
    requires some { 1 ≤ len }
    requires few { len ≤ 65536 }
    requires zone { (8 ≤ zone) × (zone ≤ 11) }
{
    freemap.take_extent(zone, len)
}

#[test]
fn extents_follow_one_another_and_are_given_back(rt: HostRuntime) -> Result<(), Fail> {
    let mut freemap = volume();
    let first = take(&mut freemap, 9, 33)?;
    let second = take(&mut freemap, 9, 100)?;
    let node = take(&mut freemap, 8, 4_096)?;
    assert_eq!(rt; Some(first), HOff::make(9, 12 * 8_388_608 + 80));
    assert_eq!(rt; Some(second), HOff::make(9, 12 * 8_388_608 + 128));
    assert_eq!(rt; Some(node), HOff::make(8, 11 * 8_388_608 + 4_096));
    assert_eq!(rt; freemap.live_bytes(12)?, 240);
    freemap.share_extent(second, 100)?;
    assert_eq!(rt; freemap.live_bytes(12)?, 352);
    freemap.give_extent(second, 100)?;
    assert_eq!(rt; freemap.live_bytes(12)?, 240);
    freemap.give_extent(second, 100)?;
    freemap.give_extent(first, 33)?;
    assert_eq!(rt; freemap.live_bytes(12)?, 80);
    Ok(())
}

#[test]
fn taking_and_giving_touch_one_page_of_any_volume(rt: HostRuntime) -> Result<(), Fail> {
    for bigblocks in [24u32, 524_289, 1_048_576] {
        assert!(rt; (24..=1_048_576).contains(&bigblocks));
        let mut taking = made(bigblocks, 4_096);
        let at = taking.take_extent(8, 4_096)?;
        let (pages, _) = taking.into_parts();
        assert_eq!(rt;
            (pages.reads, pages.changes, pages.last),
            (1, 1, FIRST_PAGE)
        );
        let mut giving = made(bigblocks, 4_096);
        giving.give_extent(at, 4_096)?;
        let (pages, _) = giving.into_parts();
        assert_eq!(rt;
            (pages.reads, pages.changes, pages.last),
            (1, 1, FIRST_PAGE)
        );
    }
    Ok(())
}

#[test]
fn a_change_where_the_store_has_no_page_is_refused(rt: HostRuntime) {
    // The entries of these big-blocks stand in the second page of layer 2.
    let append = [267, 268, 269, 270];
    let (pages, _) = volume().into_parts();
    let mut freemap = Freemap::over(pages, 300, append);
    let at = HOff::make(9, 268 * 8_388_608).unwrap_or_default();
    assert_eq!(rt; take(&mut freemap, 8, 4_096), Err(Fault::NoMemory));
    assert_eq!(rt; freemap.share_extent(at, 80), Err(Fault::NoMemory));
    assert_eq!(rt; freemap.give_extent(at, 80), Err(Fault::NoMemory));
    let (pages, kept) = freemap.into_parts();
    assert_eq!(rt; (pages.changes, kept), (0, append));
}

#[test]
fn a_zone_that_lacks_room_begins_the_lowest_free_big_block(rt: HostRuntime) -> Result<(), Fail> {
    let all = Zones::TREE
        .union(Zones::META)
        .union(Zones::LARGE)
        .union(Zones::SMALL);
    let mut freemap = volume();
    assert!(rt; freemap.admit(all, 4).is_ok());
    let full = owned(10, 8_257_552, 131_056);
    let mut freemap = put(freemap, 13, &full);
    assert!(rt; freemap.admit(Zones::TREE, 4).is_ok());
    assert!(rt; freemap.admit(all, 9).is_err());
    assert_eq!(rt;
        freemap.admit(all, 9),
        Err(SpaceFault::NoSpace { free: 9, needed: 1 })
    );
    assert!(rt; freemap.admit(all, 8).is_ok());
    let (pages, append) = freemap.into_parts();
    assert_eq!(rt; append, [11, 12, 15, 14]);
    let mut freemap = moved(pages);
    let at = take(&mut freemap, 10, 16)?;
    assert_eq!(rt; Some(at), HOff::make(10, 15 * 8_388_608));
    assert_eq!(rt; freemap.free_blocks()?, 8);
    Ok(())
}

#[test]
fn a_big_block_that_is_live_in_the_frozen_state_alone_is_kept(rt: HostRuntime) -> Result<(), Fail> {
    let full = owned(10, 8_388_608, 0);
    let freemap = put(volume(), 13, &full);
    let (mut pages, _) = freemap.into_parts();
    owned(9, 16, 8_388_592).write(&mut pages.frozen, place_of(15));
    owned(9, 16, 8_388_592).write(&mut pages.committed, place_of(16));
    let mut freemap = again(pages);
    assert_eq!(rt; freemap.free_blocks()?, 7);
    assert!(rt; freemap.admit(Zones::LARGE, 4).is_ok());
    let (_, append) = freemap.into_parts();
    assert_eq!(rt; append, [11, 12, 17, 14]);
    Ok(())
}
