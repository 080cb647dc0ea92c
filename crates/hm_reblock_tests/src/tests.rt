// What a reblock leaves of a store in memory, which tells its content.
ghost use Rattle.std.specs.Prelude.{IfOk};
ghost use Rattle.hm_key.specs.Balance.{Balanced};

use crate::roomy::{Roomy, entry, run, step};
use hm_key::{
    Base, Element, ElementStore, Extents, HasElements, HasRoom, MemStore, Progress, is_element,
};
use hm_reblock::Reblock;
use hm_types::{HOff, INSERT_ROOM, META_ZONE, TREE_ZONE};
use std::test::Fail;

impl Roomy for MemStore {
    fn zone_room(&self, zone: u8) -> u64 {
        self.room(zone)
    }
}

// Adds an element with an extent of its own.
fn add(store: &mut MemStore, base: &Base) -> Result<HOff, Fail>
    requires { Balanced (⟦<MemStore as HasElements>⟧.elements store.old)
        (⟦<MemStore as HasRoom>⟧.extents store.old) }
    ensures { IfOk result (λ _. Balanced (⟦<MemStore as HasElements>⟧.elements store.new)
        (⟦<MemStore as HasRoom>⟧.extents store.new)) }
{
    let mut element = Element {
        base: *base,
        payload: HOff::default(),
        len: 16,
    };
    if !is_element(&element) || store.has(base) {
        return Err("no new element")?;
    }
    if store.room(TREE_ZONE) < u64::from(INSERT_ROOM) || store.room(META_ZONE) < 16 {
        return Err("no room")?;
    }
    element.payload = store.place(META_ZONE, b"0123456789abcdef")?;
    store.insert(&element)?;
    Ok(element.payload)
}

// How many elements have their payload where none was at first, in an extent of its own.
fn moved(store: &MemStore) -> u64 {
    let mut moved = 0u64;
    for element in store.elements() {
        if element.payload.byte() >= 320 && store.extent(element.payload) == Some((16, 1)) {
            moved = moved.saturating_add(1);
        }
    }
    moved
}

#[test]
fn each_unit_moves_an_extent_of_a_store_in_memory(rt: HostRuntime) -> Result<(), Fail> {
    let mut store = MemStore::new(rt.alloc(), 0);
    for key in 0..20u64 {
        let _at = add(&mut store, &entry(key))?;
    }
    // All extents of such a store come into big-block 0, one after another: 20, and 20 more.
    let mut nothing = Reblock::new(vec![in rt.alloc(); 1; 1]?);
    assert_eq!(rt; run(&mut nothing, &mut store)?, 0);
    let mut job = Reblock::new(vec![in rt.alloc(); 0; 1]?);
    // One unit collects, one sorts, and 20 move.
    for units in 0..22u64 {
        assert_eq!(rt; step(&mut job, &mut store)?, Some(Progress::More));
        assert_eq!(rt; moved(&store), units.saturating_sub(1), "{units}");
    }
    Ok(())
}
