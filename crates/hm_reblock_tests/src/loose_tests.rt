// Reblocks over a store that tells nothing: what moves and what stays, sharers, changes between two
// units, forged elements and faults.
ghost use Rattle.std.specs.Prelude.{◌≡◌, IfOk, vec_len};

use crate::loose_store::LooseStore;
use crate::roomy::{Roomy, entry, run, step};
use hm_key::{Base, Element, ElementStore, Extents, Progress};
use hm_reblock::Reblock;
use hm_types::{
    BIGBLOCK_BYTES, Fault, HOff, LARGE_ZONE, META_ZONE, SMALL_ZONE, TREE_ZONE, rounded,
};
use std::alloc::Global;
use std::test::Fail;

// A reblock of these big-blocks, whose numbers rise.
fn reblock(alloc: Global, chosen: &[u32]) -> Result<Reblock, Fail> {
    let blocks = Vec::from_slice(alloc, chosen)?;
    if !chosen.is_sorted() {
        return Err("big-blocks out of order")?;
    }
    Ok(Reblock::new(blocks))
}

// The bytes of the payload of a key, of which there are `len`.
fn bytes_of(alloc: Global, key: u64, len: u32) -> Result<Vec<u8>, Fail>
    ensures { IfOk result (λ bytes. vec_len bytes ≡ len) }
{
    Ok(vec![in alloc; (key % 251) as u8; len as usize]?)
}

// Adds an element with an extent of its own in a zone and a big-block.
fn add(
    alloc: Global,
    store: &mut LooseStore,
    key: u64,
    zone: u8,
    block: u32,
    len: u32,
) -> Result<HOff, Fail> {
    if len == 0 || !matches!(zone, META_ZONE..=SMALL_ZONE) {
        return Err("no payload")?;
    }
    let bytes = bytes_of(alloc, key, len)?;
    if store.zone_room(zone) < rounded(u64::from(len)) {
        return Err("no room")?;
    }
    let within = key.wrapping_mul(131_072) % BIGBLOCK_BYTES;
    let next = store.next;
    store.next = u64::from(block) * BIGBLOCK_BYTES + within;
    let at = store.place(zone, &bytes)?;
    store.next = next;
    store.add(&entry(key), at, len)?;
    Ok(at)
}

// The element of a key.
fn element(store: &mut LooseStore, key: u64) -> Result<Element, Fail> {
    match store.first_at_or_after(&entry(key))? {
        Some(element) if element.base.key == key => Ok(element),
        _ => Err("no such element")?,
    }
}

// The big-block where the payload of a key stands.
fn block(store: &mut LooseStore, key: u64) -> Result<u64, Fail> {
    Ok(element(store, key)?.payload.byte() / BIGBLOCK_BYTES)
}

// How many extents have references, and how many references these are.
fn counts(store: &LooseStore) -> (u64, u64) {
    let mut extents = 0u64;
    let mut references = 0u64;
    for piece in store.pieces.iter() {
        if piece.refs > 0 {
            extents = extents.saturating_add(1);
            references = references.saturating_add(u64::from(piece.refs));
        }
    }
    (extents, references)
}

// The keys of a table with the zones, big-blocks and lengths of their payloads.
const TABLE: [(u64, u8, u32, u32); 9] = [
    (1, META_ZONE, 30, 1),
    (2, META_ZONE, 31, 16),
    (3, LARGE_ZONE, 32, 16_384),
    (4, LARGE_ZONE, 33, 16_384),
    (5, SMALL_ZONE, 34, 15),
    (6, SMALL_ZONE, 31, 17),
    (7, META_ZONE, 35, 65_568),
    (8, META_ZONE, 36, 131_072),
    (9, SMALL_ZONE, 33, 4_000),
];

fn filled(alloc: Global) -> Result<LooseStore, Fail> {
    let mut store = LooseStore::new(alloc)?;
    for (key, zone, block, len) in TABLE {
        let _at = add(alloc, &mut store, key, zone, block, len)?;
    }
    store.next = 90 * BIGBLOCK_BYTES;
    Ok(store)
}

#[test]
fn what_lies_in_the_choice_moves(rt: HostRuntime) -> Result<(), Fail> {
    let alloc = rt.alloc();
    let choices: [(&[u32], u32); 6] = [
        (&[], 0),
        (&[29, 37, 90], 0),
        (&[31], 4),
        (&[30, 33, 35, 36], 7),
        (&[30, 31, 32, 33, 34, 35, 36], 11),
        (&[0, 31, 31, 40], 4),
    ];
    for (chosen, units) in choices {
        let mut store = filled(alloc)?;
        let mut job = reblock(alloc, chosen)?;
        assert_eq!(rt; run(&mut job, &mut store)?, units, "{chosen:?}");
        assert_eq!(rt; job.next_zone(&mut store)?, None);
        assert_eq!(rt; job.choice(), chosen);
        assert_eq!(rt; counts(&store), (9, 9));
        for (key, zone, block, len) in TABLE {
            let element = element(&mut store, key)?;
            assert_eq!(rt; element.len, len);
            assert_eq!(rt; element.payload.zone(), zone);
            let wanted = if chosen.contains(&block) { 90 } else { block };
            let stands = element.payload.byte() / BIGBLOCK_BYTES;
            assert_eq!(rt; stands, u64::from(wanted), "{chosen:?} {key}");
            let Some(piece) = store.piece(element.payload) else {
                return Err("no extent")?;
            };
            let bytes = bytes_of(alloc, key, len)?;
            assert!(rt; piece.bytes.starts_with(&bytes), "{chosen:?} {key}");
        }
    }
    Ok(())
}

#[test]
fn sharers_stay_sharers(rt: HostRuntime) -> Result<(), Fail> {
    let alloc = rt.alloc();
    let mut store = LooseStore::new(alloc)?;
    // One extent of 64 references with lengths of one rounding, one of two, one alone.
    let shared = add(alloc, &mut store, 1, META_ZONE, 40, 32)?;
    for key in 2..65u64 {
        store.share(shared, 17 + key as u32 % 16)?;
        store.add(&entry(key * 3), shared, 17 + key as u32 % 16)?;
    }
    let two = add(alloc, &mut store, 7, SMALL_ZONE, 40, 100)?;
    store.share(two, 99)?;
    store.add(&entry(8), two, 99)?;
    let _alone = add(alloc, &mut store, 10, SMALL_ZONE, 40, 100)?;
    let _stays = add(alloc, &mut store, 11, SMALL_ZONE, 41, 100)?;
    assert_eq!(rt; counts(&store), (4, 68));
    store.next = 90 * BIGBLOCK_BYTES;
    let mut job = reblock(alloc, &[40])?;
    // One unit collects, one sorts, and one moves each extent.
    for units in 0..5u32 {
        let progress = if units < 4 {
            Progress::More
        } else {
            Progress::Done
        };
        assert_eq!(rt; step(&mut job, &mut store)?, Some(progress));
        assert_eq!(rt; counts(&store), (4, 68));
    }
    let now = element(&mut store, 1)?.payload;
    assert_eq!(rt; now.byte() / BIGBLOCK_BYTES, 90);
    for key in 2..65u64 {
        assert_eq!(rt; element(&mut store, key * 3)?.payload, now);
    }
    match store.piece(now) {
        Some(piece) => {
            assert_eq!(rt; piece.refs, 64);
            assert_eq!(rt; piece.bytes.as_slice(), bytes_of(alloc, 1, 32)?.as_slice());
        }
        None => return Err("no extent")?,
    }
    let two = element(&mut store, 7)?.payload;
    assert_eq!(rt; element(&mut store, 8)?.payload, two);
    assert_eq!(rt; block(&mut store, 10)?, 90);
    assert_eq!(rt; block(&mut store, 11)?, 41);
    Ok(())
}

#[test]
fn a_reblock_goes_on_over_a_store_that_changed(rt: HostRuntime) -> Result<(), Fail> {
    let alloc = rt.alloc();
    let mut store = LooseStore::new(alloc)?;
    for key in 1..7u64 {
        let _at = add(
            alloc,
            &mut store,
            key * 10,
            META_ZONE,
            40 + (key % 2) as u32,
            100,
        )?;
    }
    store.next = 90 * BIGBLOCK_BYTES;
    let mut job = reblock(alloc, &[40, 41])?;
    assert_eq!(rt; step(&mut job, &mut store)?, Some(Progress::More));
    // Of what was collected one element is gone, one has another payload, one is closed, and two
    // more share its extent.
    let gone = element(&mut store, 20)?;
    store.remove(&gone.base)?;
    store.give_back(gone.payload, gone.len)?;
    let moved = element(&mut store, 40)?;
    store.remove(&moved.base)?;
    store.give_back(moved.payload, moved.len)?;
    let _at = add(alloc, &mut store, 40, META_ZONE, 50, 7)?;
    store.set_delete(&entry(60), 9)?;
    let closed = element(&mut store, 60)?;
    store.share(closed.payload, 100)?;
    store.add(&entry(61), closed.payload, 100)?;
    store.share(closed.payload, 100)?;
    store.add(&entry(5), closed.payload, 100)?;
    store.next = 90 * BIGBLOCK_BYTES;
    // No extent is in big-block 41 for the reblock any more.
    job.leave(41);
    job.leave(77);
    assert_eq!(rt; job.choice(), [40].as_slice());
    // It sorts, moves the closed element, finds its new sharers by a look through the whole,
    // collects them, sorts, and moves them.
    for units in 0..5u32 {
        let progress = if units < 4 {
            Progress::More
        } else {
            Progress::Done
        };
        assert_eq!(rt; step(&mut job, &mut store)?, Some(progress));
    }
    for (key, wanted) in [
        (10, 41),
        (30, 41),
        (40, 50),
        (50, 41),
        (60, 90),
        (61, 90),
        (5, 90),
    ] {
        assert_eq!(rt; block(&mut store, key)?, wanted, "{key}");
    }
    assert_eq!(rt; element(&mut store, 60)?.base.delete, 9);
    let new = element(&mut store, 61)?.payload;
    assert_eq!(rt; element(&mut store, 5)?.payload, new);
    // Something comes to lie in the choice after it was done.
    let _at = add(alloc, &mut store, 1, LARGE_ZONE, 40, 20_000)?;
    store.next = 91 * BIGBLOCK_BYTES;
    assert_eq!(rt; job.next_zone(&mut store)?, Some(LARGE_ZONE));
    assert_eq!(rt; run(&mut job, &mut store)?, 3);
    assert_eq!(rt; block(&mut store, 1)?, 91);
    Ok(())
}

#[test]
fn elements_are_looked_at_while_collecting_and_in_the_end(rt: HostRuntime) -> Result<(), Fail> {
    let alloc = rt.alloc();
    let mut store = LooseStore::new(alloc)?;
    for key in 0..10_000u64 {
        let block = if key % 2_500 == 2_499 { 40 } else { 41 };
        let _at = add(alloc, &mut store, key, META_ZONE, block, 16)?;
    }
    store.next = 90 * BIGBLOCK_BYTES;
    store.searches = 0;
    let mut job = reblock(alloc, &[40])?;
    // The first look goes to key 2,499, so that two units collect; one sorts, and four move.
    assert_eq!(rt; run(&mut job, &mut store)?, 7);
    // Two circles, and a few looks for each unit.
    assert_eq!(rt; store.searches / 100, 200);
    Ok(())
}

#[test]
fn forged_elements_are_passed_over_or_refused(rt: HostRuntime) -> Result<(), Fail> {
    let alloc = rt.alloc();
    for (zone, len, wanted) in [
        (META_ZONE, 0, Ok(0)),
        (TREE_ZONE, 16, Ok(0)),
        (15, 16, Ok(0)),
        (1, 16, Ok(0)),
        (META_ZONE, 131_073, Err(Fault::NoMemory)),
        (SMALL_ZONE, u32::MAX, Err(Fault::NoMemory)),
    ] {
        let mut store = filled(alloc)?;
        let Some(at) = HOff::make(zone, 40 * BIGBLOCK_BYTES) else {
            return Err("no offset")?;
        };
        store.add(&entry(77), at, len)?;
        let mut job = reblock(alloc, &[40])?;
        assert_eq!(rt; run(&mut job, &mut store), wanted, "{zone} {len}");
    }
    Ok(())
}

// Does units until the reblock is done or one fails, and says how many were whole before that one.
fn whole_units(job: &mut Reblock, store: &mut LooseStore) -> Option<u32> {
    for units in 0..20u32 {
        match step(job, store) {
            Ok(Some(Progress::More)) => {}
            Ok(_) => return None,
            Err(_) => return Some(units),
        }
    }
    None
}

// Eight elements, two of which share, in the choice and outside.
fn shared(alloc: Global) -> Result<LooseStore, Fail> {
    let mut store = LooseStore::new(alloc)?;
    for key in 1..8u64 {
        let _at = add(
            alloc,
            &mut store,
            key,
            META_ZONE,
            40 + (key % 2) as u32,
            100,
        )?;
    }
    let at = element(&mut store, 4)?.payload;
    store.share(at, 97)?;
    store.add(&entry(9), at, 97)?;
    store.next = 90 * BIGBLOCK_BYTES;
    Ok(store)
}

#[test]
fn a_reblock_goes_on_after_each_call_that_fails(rt: HostRuntime) -> Result<(), Fail> {
    let alloc = rt.alloc();
    for left in 0..200u64 {
        let mut store = shared(alloc)?;
        let mut job = reblock(alloc, &[40])?;
        store.left = left;
        let whole = whole_units(&mut job, &mut store);
        // What a unit that failed did of the store is dropped by its owner.
        store = shared(alloc)?;
        let _units = run(&mut job, &mut store)?;
        assert_eq!(rt; counts(&store), (7, 8), "{left}");
        for key in 1..8u64 {
            let wanted = if key % 2 == 0 { 90 } else { 41 };
            assert_eq!(rt; block(&mut store, key)?, wanted, "{left} {key}");
        }
        let one = element(&mut store, 4)?.payload;
        assert_eq!(rt; element(&mut store, 9)?.payload, one, "{left}");
        if whole.is_none() {
            // Collecting makes 11 searches, and sorting 2. Then units make 7, 11 and 15 calls, the
            // last one with a look at the eight elements.
            assert_eq!(rt; left, 11 + 2 + 7 + 11 + 15);
            return Ok(());
        }
    }
    Err("more calls than there may be")?
}
