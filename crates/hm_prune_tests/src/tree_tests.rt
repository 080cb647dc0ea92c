// Prunes over a tree: their stretches, shared extents, changes between two units, and faults.
use crate::spans::{LAST, SPANS, entry, kept, run};
use crate::tree_store::TreeStore;
use hm_key::{Base, ElementStore, Job, Progress};
use hm_prune::Prune;
use hm_retain::Retention;
use hm_types::{Id, Pfs};
use std::alloc::Global;
use std::test::Fail;

// A store with so many elements in PFS 7, whose spans come in turn, and one before and after it.
fn filled(alloc: Global, elements: u64) -> Result<TreeStore, Fail> {
    let mut store = TreeStore::new(alloc)?;
    let _outside = store.add(&entry(6, 1), None)?;
    let _outside = store.add(&entry(8, 1), None)?;
    for key in 0..elements {
        let _at = store.add(&entry(7, key), None)?;
    }
    Ok(store)
}

// How many elements stand in the store, and how many references its extents have.
fn counts(store: &mut TreeStore) -> Result<(u64, u64), Fail> {
    let mut references = 0u64;
    for count in store.references.iter() {
        references = references.saturating_add(u64::from(*count));
    }
    let mut at = Base::least();
    for elements in 0..10_000u64 {
        let Some(element) = store.first_at_or_after(&at)? else {
            return Ok((elements, references));
        };
        at = match element.base.key_after() {
            Some(next) => next,
            None => return Ok((elements + 1, references)),
        };
    }
    Err("too many elements")?
}

#[test]
fn a_prune_of_many_elements_takes_bounded_units(rt: HostRuntime) -> Result<(), Fail> {
    // Of 4,400 elements none is dead, and then 2,800 are: 4,096 looks or 64 removals a stretch.
    for (from, stay, wanted) in [(1, 4_400, 3), (12, 1_600, 45)] {
        let mut store = filled(rt.alloc(), 400 * SPANS)?;
        let mut prune = Prune::new(Pfs(7), kept(rt.alloc(), Some((from, LAST)), None)?);
        assert_eq!(rt; run(&mut prune, &mut store)?, wanted, "{from}");
        assert_eq!(rt; counts(&mut store)?, (stay + 2, stay + 2), "{from}");
    }
    Ok(())
}

#[test]
fn prunes_go_on_over_a_store_that_changed(rt: HostRuntime) -> Result<(), Fail> {
    let mut store = TreeStore::new(rt.alloc())?;
    let shared = store.add(&entry(7, 300 * SPANS + 6), None)?;
    let gone = store.add(&entry(7, 400 * SPANS + 2), None)?;
    let _at = store.add(&entry(7, 401 * SPANS + 3), Some(gone))?;
    for key in 0..63u64 {
        // One of two is closed at 3, and the other one stays open.
        let index = if key % 2 == 0 { 6 } else { 1 };
        let _at = store.add(&entry(7, (200 + key) * SPANS + index), Some(shared))?;
    }
    for key in 0..80u64 {
        let _at = store.add(&entry(7, key * SPANS + 1), None)?;
    }
    let mut one = Prune::new(Pfs(7), kept(rt.alloc(), Some((5, LAST)), None)?);
    let mut other = Prune::new(Pfs(7), kept(rt.alloc(), Some((12, LAST)), None)?);
    assert_eq!(rt; other.unit(&mut store)?, Progress::More);
    assert_eq!(rt; counts(&mut store)?, (82, 82));
    assert_eq!(rt; one.unit(&mut store)?, Progress::More);
    assert_eq!(rt; counts(&mut store)?, (33, 33));
    // Behind both comes a dead element, and one whose only kept id is 5 to 11.
    let _at = store.add(&entry(7, 3), None)?;
    let open = Base {
        create: 5,
        ..entry(7, 6)
    };
    let _at = store.add(&open, None)?;
    store.set_delete(&open, 12)?;
    assert_eq!(rt; run(&mut one, &mut store)?, 3);
    assert_eq!(rt; counts(&mut store)?, (34, 34));
    assert_eq!(rt; run(&mut other, &mut store)?, 4);
    assert_eq!(rt; counts(&mut store)?, (33, 33));
    assert_eq!(rt; store.references.get(0), Some(&33));
    assert_eq!(rt; store.references.get(1), Some(&0));
    Ok(())
}

#[test]
fn an_extent_of_64_references_goes_with_the_last(rt: HostRuntime) -> Result<(), Fail> {
    // One unit removes them all, one comes to the end of the walk, and one looks through the whole.
    let mut store = TreeStore::new(rt.alloc())?;
    let shared = store.add(&entry(7, 1), None)?;
    for key in 1..64u64 {
        let _at = store.add(&entry(7, key * SPANS + 1), Some(shared))?;
    }
    assert_eq!(rt; counts(&mut store)?, (64, 64));
    let mut prune = Prune::new(Pfs(7), kept(rt.alloc(), Some((5, LAST)), None)?);
    assert_eq!(rt; prune.unit(&mut store)?, Progress::More);
    assert_eq!(rt; counts(&mut store)?, (0, 0));
    assert_eq!(rt; run(&mut prune, &mut store)?, 2);
    Ok(())
}

// A retention of as many intervals as there may be: 2 and 3, 6 and 7, and so on up to 16,383.
fn many_kept(alloc: Global) -> Result<Retention, Fail> {
    let mut list = Vec::with_capacity(alloc, 4_096)?;
    for interval in 0..4_096u64 {
        list.push((Id(4 * interval + 2), Id(4 * interval + 3)))?;
    }
    match Retention::of(list) {
        Some(retention) => Ok(retention),
        None => Err("no retention")?,
    }
}

// An element by the number of an interval, made and closed so many ids after four times that.
fn spanned(interval: u32, from: u32, to: u32) -> Base {
    let first = u64::from(interval) * 4;
    Base {
        create: first + u64::from(from),
        delete: first + u64::from(to),
        ..entry(7, first * 16 + u64::from(from) * 8 + u64::from(to))
    }
}

// Of some intervals: spans before, within and after them, and which of them one sees.
const OF_INTERVALS: [(u32, u32, u32, bool); 15] = [
    (0, 1, 2, false),
    (0, 1, 3, true),
    (0, 3, 4, true),
    (0, 4, 5, false),
    (1, 1, 2, false),
    (1, 2, 3, true),
    (2_047, 3, 4, true),
    (2_047, 4, 6, false),
    (2_048, 2, 4, true),
    (4_094, 3, 6, true),
    (4_094, 4, 6, false),
    (4_095, 1, 2, false),
    (4_095, 1, 3, true),
    (4_095, 3, 5, true),
    // No later id is kept, so it stays.
    (4_095, 4, 5, true),
];

#[test]
fn each_of_4096_intervals_is_kept(rt: HostRuntime) -> Result<(), Fail> {
    let mut store = TreeStore::new(rt.alloc())?;
    for (interval, from, to, _) in OF_INTERVALS {
        let _at = store.add(&spanned(interval, from, to), None)?;
    }
    let mut prune = Prune::new(Pfs(7), many_kept(rt.alloc())?);
    assert_eq!(rt; run(&mut prune, &mut store)?, 2);
    assert_eq!(rt; counts(&mut store)?, (9, 9));
    for (interval, from, to, stays) in OF_INTERVALS {
        let base = spanned(interval, from, to);
        let found = store.first_at_or_after(&base)?;
        let is_there = matches!(found, Some(element) if element.base == base);
        assert_eq!(rt; is_there, stays, "{interval} {from} {to}");
    }
    Ok(())
}

// Does units until the prune is done or one fails, and says how many were whole before that one.
fn whole_units(prune: &mut Prune, store: &mut TreeStore) -> Option<u32> {
    for units in 0..10u32 {
        match prune.unit(store) {
            Ok(Progress::Done) => return None,
            Ok(Progress::More) => {}
            Err(_) => return Some(units),
        }
    }
    None
}

// Of 22 elements 14 are dead. Of two extents that two of them share, one stays with its other element.
fn shared(alloc: Global) -> Result<TreeStore, Fail> {
    let mut store = TreeStore::new(alloc)?;
    let _outside = store.add(&entry(6, 1), None)?;
    let _outside = store.add(&entry(8, 1), None)?;
    let goes = store.add(&entry(7, 1), None)?;
    let stays = store.add(&entry(7, 2), None)?;
    let _at = store.add(&entry(7, SPANS + 1), Some(goes))?;
    let _at = store.add(&entry(7, SPANS + 6), Some(stays))?;
    for key in 0..2 * SPANS {
        if ![1, 2, SPANS + 1, SPANS + 6].contains(&key) {
            let _at = store.add(&entry(7, key), None)?;
        }
    }
    Ok(store)
}

#[test]
fn a_prune_goes_on_after_each_call_that_fails(rt: HostRuntime) -> Result<(), Fail> {
    // The stretch makes 23 searches and 28 writes, the look 9 searches.
    for left in 0..61u64 {
        let mut store = shared(rt.alloc())?;
        let mut prune = Prune::new(Pfs(7), kept(rt.alloc(), Some((12, LAST)), None)?);
        store.left = left;
        let whole = whole_units(&mut prune, &mut store);
        let wanted = match left {
            0..=50 => Some(0),
            51..=59 => Some(1),
            _ => None,
        };
        assert_eq!(rt; whole, wanted, "{left}");
        // What a unit that failed did of the store is dropped by its owner.
        if whole == Some(0) {
            store = shared(rt.alloc())?;
        }
        store.left = u64::MAX;
        let units = run(&mut prune, &mut store)?;
        assert_eq!(rt; units, if whole == Some(0) { 2 } else { 1 }, "{left}");
        assert_eq!(rt; counts(&mut store)?, (10, 10), "{left}");
        assert_eq!(rt; store.references.get(2), Some(&0), "{left}");
        assert_eq!(rt; store.references.get(3), Some(&1), "{left}");
    }
    Ok(())
}
