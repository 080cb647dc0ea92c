// The store against three plain maps.

use super::PageStore;
use hm_fields::{Page, Pages, State, States, get_u64, put_u64};
use hm_types::{FREEMAP_ZONE, Fault, HOff, Id, TREE_ZONE, UNAVAILABLE_ZONE};
use std::process::Abort;
use std::test::Fail;

// How many offsets the steps speak of. Two are of the freemap, and the last is no page's.
const PLACES: usize = 9;

// What stands at each offset: 0 for no page, and else the number in it.
type Map = [u8; PLACES];

// The three maps, and the current one at the beginning of a call.
#[derive(Drop)]
struct Plain {
    committed: Map,
    frozen: Map,
    current: Map,
    begin: Map,
}

#[derive(Clone, Copy, Debug)]
enum Step {
    Load(usize, u8),
    Begin,
    Change(usize, u8),
    Remove(usize),
    Keep,
    Undo,
    Freeze,
    Commit,
}

fn place(rt: &impl Abort, i: usize) -> HOff {
    let (zone, byte) = match i {
        8 => (UNAVAILABLE_ZONE, 0xF_FFFF_FFFF_FFFF),
        6 | 7 => (FREEMAP_ZONE, 4096 * i as u64),
        _ => (TREE_ZONE, 4096 * (i % 6) as u64),
    };
    HOff::make(zone, byte).expect(rt, "an offset")
}

fn numbered(number: u8) -> Page {
    let mut page = Page::zero();
    put_u64(&mut page, 8, u64::from(number));
    page
}

// Does a step, where its condition holds.
#[tactic(auto, unfolding(crate::specs::Store::contents))]
fn take(rt: &impl Abort, store: &mut PageStore, step: Step) -> Result<(), Fault> {
    match step {
        Step::Load(i, number) => {
            let at = place(rt, i);
            assert!(rt; !store.is_open);
            assert!(rt; store.page_at(State::Committed, at).is_none());
            assert!(rt; store.page_at(State::Frozen, at).is_none());
            assert!(rt; store.page_at(State::Current, at).is_none());
            store.load(at, &numbered(number))?;
        }
        Step::Begin => {
            assert!(rt; !store.is_open);
            store.begin();
        }
        Step::Change(i, number) => store.change(place(rt, i), &numbered(number))?,
        Step::Remove(i) => {
            let at = place(rt, i);
            assert!(rt; at.zone() != FREEMAP_ZONE);
            store.remove(at)?;
        }
        Step::Keep => {
            assert!(rt; store.is_open);
            store.keep();
        }
        Step::Undo => {
            assert!(rt; store.is_open);
            store.undo();
        }
        Step::Freeze => {
            assert!(rt; !store.is_open && store.boundary.is_none());
            store.freeze(Id(7))?;
        }
        Step::Commit => {
            assert!(rt; store.boundary.is_some());
            store.commit();
        }
    }
    Ok(())
}

impl Plain {
    // Does the same in plain maps.
    fn take(&mut self, rt: &impl Abort, step: Step) {
        match step {
            Step::Load(i, number) => {
                assert!(rt; i < PLACES);
                self.committed[i] = number;
                self.frozen[i] = number;
                self.current[i] = number;
            }
            Step::Begin => self.begin = self.current,
            Step::Change(i, number) => {
                assert!(rt; i < PLACES);
                self.current[i] = number;
            }
            Step::Remove(i) => {
                assert!(rt; i < PLACES);
                self.current[i] = 0;
            }
            Step::Keep => {}
            Step::Undo => self.current = self.begin,
            Step::Freeze => self.frozen = self.current,
            Step::Commit => self.committed = self.frozen,
        }
    }
}

// The numbers that the store has in one of the states.
fn numbers_in(rt: &impl Abort, store: &mut PageStore, state: State) -> Result<Map, Fault> {
    let mut map = [0; PLACES];
    for i in 0..PLACES {
        let mut page = Page::zero();
        store.page_in(state, place(rt, i), &mut page)?;
        let number = get_u64(&page, 8);
        assert!(rt; number < 256);
        map[i] = number as u8;
    }
    Ok(map)
}

// The numbers that it has in all three.
fn all_numbers(rt: &impl Abort, store: &mut PageStore) -> Result<[Map; 3], Fault> {
    Ok([
        numbers_in(rt, store, State::Committed)?,
        numbers_in(rt, store, State::Frozen)?,
        numbers_in(rt, store, State::Current)?,
    ])
}

#[test]
fn steps_do_what_they_do_to_three_plain_maps(rt: HostRuntime) -> Result<(), Fail> {
    let mut store = PageStore::new(rt.alloc());
    let mut plain = Plain {
        committed: [0; PLACES],
        frozen: [0; PLACES],
        current: [0; PLACES],
        begin: [0; PLACES],
    };
    for step in [
        // Two pages of the tree and one of the freemap are read from the disk.
        Step::Load(0, 10),
        Step::Load(1, 11),
        Step::Load(6, 16),
        // A call that changed nothing is kept, and another one dropped.
        Step::Begin,
        Step::Keep,
        Step::Begin,
        Step::Undo,
        // A call that is dropped: a page removed, one changed, and new ones where the store has none:
        // of the tree, of the freemap, and at the greatest offset.
        Step::Begin,
        Step::Remove(0),
        Step::Change(1, 21),
        Step::Change(2, 22),
        Step::Change(6, 26),
        Step::Change(7, 27),
        Step::Change(8, 28),
        Step::Undo,
        // The same call, kept.
        Step::Begin,
        Step::Change(1, 30),
        Step::Change(1, 31),
        Step::Remove(0),
        Step::Change(2, 32),
        Step::Change(3, 33),
        Step::Remove(3),
        Step::Change(6, 36),
        Step::Change(8, 38),
        Step::Keep,
        Step::Freeze,
        // Three different numbers at one offset, and one removed that is frozen.
        Step::Begin,
        Step::Change(1, 41),
        Step::Remove(2),
        Step::Change(6, 46),
        Step::Change(0, 40),
        Step::Undo,
        Step::Begin,
        Step::Change(1, 51),
        Step::Remove(2),
        Step::Change(6, 56),
        Step::Keep,
        Step::Load(7, 57),
        Step::Load(3, 53),
        Step::Change(4, 54),
        Step::Commit,
        // Outside of a call a change goes straight into the group.
        Step::Remove(4),
        Step::Change(5, 65),
        Step::Freeze,
        Step::Change(5, 75),
        Step::Commit,
        Step::Freeze,
        Step::Commit,
    ] {
        take(&rt, &mut store, step)?;
        plain.take(&rt, step);
        for (state, want) in [
            (State::Committed, plain.committed),
            (State::Frozen, plain.frozen),
            (State::Current, plain.current),
        ] {
            assert_eq!(rt;
                numbers_in(&rt, &mut store, state)?,
                want,
                "{step:?} {state:?}"
            );
        }
    }
    Ok(())
}

// The offsets to place, each with the number in its page and whether it was committed.
fn listed(rt: &impl Abort, store: &PageStore) -> [(u8, u8, bool); 3] {
    let mut list = [(0, 0, false); 3];
    assert!(rt; store.frozen_len() == 3);
    for i in 0..3u32 {
        let place = store.frozen_place(i).byte() / 4096;
        let number = get_u64(store.frozen_page(i), 8);
        assert!(rt; place < 256 && number < 256);
        list[i as usize] = (place as u8, number as u8, store.was_live(i));
    }
    list
}

#[test]
fn frozen_pages_are_listed_by_their_offsets(rt: HostRuntime) -> Result<(), Fail> {
    let mut store = PageStore::new(rt.alloc());
    for step in [
        Step::Load(1, 11),
        Step::Load(4, 14),
        Step::Begin,
        Step::Change(5, 25),
        Step::Change(3, 23),
        Step::Change(1, 21),
        Step::Change(2, 22),
        Step::Remove(2),
        Step::Remove(4),
    ] {
        take(&rt, &mut store, step)?;
    }
    assert_eq!(rt; (store.group_len(), store.frozen_len()), (0, 0));
    take(&rt, &mut store, Step::Keep)?;
    assert_eq!(rt; (store.group_len(), store.frozen_len()), (3, 0));
    take(&rt, &mut store, Step::Freeze)?;
    assert_eq!(rt; (store.group_len(), store.frozen_len()), (0, 3));
    take(&rt, &mut store, Step::Change(3, 33))?;
    assert_eq!(rt;
        listed(&rt, &store),
        [(1, 21, true), (3, 23, false), (5, 25, false)]
    );
    take(&rt, &mut store, Step::Commit)?;
    assert_eq!(rt; (store.group_len(), store.frozen_len()), (1, 0));
    Ok(())
}

// Fills the group but for three pages, at offsets that no step speaks of.
fn fill_but_for_three(rt: &impl Abort, store: &mut PageStore) -> Result<(), Fault> {
    let page = numbered(99);
    for i in 0..16_125u64 {
        let at = HOff::make(TREE_ZONE, 4096 * (PLACES as u64 + i)).expect(rt, "an offset");
        store.change(at, &page)?;
    }
    Ok(())
}

#[test]
fn a_group_has_no_more_pages_than_it_may(rt: HostRuntime) -> Result<(), Fail> {
    let mut store = PageStore::new(rt.alloc());
    take(&rt, &mut store, Step::Load(4, 44))?;
    fill_but_for_three(&rt, &mut store)?;
    take(&rt, &mut store, Step::Change(0, 10))?;
    assert_eq!(rt; store.group_len(), 16_126);
    let before = all_numbers(&rt, &mut store)?;
    // A call that is full at its third page is dropped, and all of the next one kept.
    for is_kept in [false, true] {
        take(&rt, &mut store, Step::Begin)?;
        take(&rt, &mut store, Step::Change(1, 11))?;
        take(&rt, &mut store, Step::Change(2, 12))?;
        assert_eq!(rt;
            take(&rt, &mut store, Step::Change(3, 13)),
            Err(Fault::NoMemory)
        );
        take(&rt, &mut store, Step::Change(2, 22))?;
        take(&rt, &mut store, Step::Remove(1))?;
        take(&rt, &mut store, Step::Change(3, 23))?;
        assert_eq!(rt;
            take(&rt, &mut store, Step::Change(4, 24)),
            Err(Fault::NoMemory)
        );
        assert_eq!(rt;
            numbers_in(&rt, &mut store, State::Current)?,
            [10, 0, 22, 23, 44, 0, 0, 0, 0]
        );
        if is_kept {
            take(&rt, &mut store, Step::Keep)?;
        } else {
            take(&rt, &mut store, Step::Undo)?;
            assert_eq!(rt; all_numbers(&rt, &mut store)?, before);
            assert_eq!(rt; store.group_len(), 16_126);
        }
    }
    assert_eq!(rt; store.group_len(), 16_128);
    assert_eq!(rt;
        take(&rt, &mut store, Step::Change(5, 25)),
        Err(Fault::NoMemory)
    );
    take(&rt, &mut store, Step::Freeze)?;
    take(&rt, &mut store, Step::Change(5, 25))?;
    assert_eq!(rt; (store.group_len(), store.frozen_len()), (1, 16_128));
    Ok(())
}
