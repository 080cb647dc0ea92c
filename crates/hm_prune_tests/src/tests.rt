// What a prune leaves of a store in memory.
ghost use Rattle.std.specs.Prelude.{IfOk};
ghost use Rattle.hm_key.specs.Balance.{Balanced};

use crate::spans::{SPANS, entry, kept, rows, run};
use hm_key::{Base, Element, ElementStore, Extents, HasElements, HasRoom, MemStore, is_element};
use hm_prune::Prune;
use hm_types::{HOff, INSERT_ROOM, META_ZONE, Pfs, TREE_ZONE};
use std::alloc::Global;
use std::test::Fail;

// Adds an element with an extent of its own.
fn add(store: &mut MemStore, base: &Base) -> Result<(), Fail>
    requires { Balanced (⟦<MemStore as HasElements>⟧.elements store.old)
        (⟦<MemStore as HasRoom>⟧.extents store.old) }
    ensures { IfOk result (λ _. Balanced (⟦<MemStore as HasElements>⟧.elements store.new)
        (⟦<MemStore as HasRoom>⟧.extents store.new)) }
{
    let mut element = Element {
        base: *base,
        payload: HOff::default(),
        len: 16,
    };
    if !is_element(&element) || store.has(base) {
        return Err("no new element")?;
    }
    if store.room(TREE_ZONE) < u64::from(INSERT_ROOM) || store.room(META_ZONE) < 16 {
        return Err("no room")?;
    }
    element.payload = store.place(META_ZONE, b"0123456789abcdef")?;
    store.insert(&element)?;
    Ok(())
}

// A store with each span in three pseudo file systems.
fn filled(alloc: Global) -> Result<MemStore, Fail>
    ensures { IfOk result (λ store. Balanced (⟦<MemStore as HasElements>⟧.elements store)
        (⟦<MemStore as HasRoom>⟧.extents store)) }
{
    let mut store = MemStore::new(alloc, 0);
    for key in 0..SPANS {
        add(&mut store, &entry(0, key))?;
        add(&mut store, &entry(7, key))?;
        add(&mut store, &entry(65_535, key))?;
    }
    Ok(store)
}

// Which spans stand in a pseudo file system: a digit for each in turn.
fn standing(store: &MemStore, pfs: u16) -> u32 {
    let mut standing = 0u32;
    for key in 0..SPANS {
        standing = standing.wrapping_mul(2) | u32::from(store.has(&entry(pfs, key)));
    }
    standing
}

#[test]
fn a_prune_leaves_what_a_kept_id_sees(rt: HostRuntime) -> Result<(), Fail> {
    const WHOLE: u32 = 0b_1111_1111_111;
    for (first, second, left) in rows() {
        let mut store = filled(rt.alloc())?;
        for (pfs, wanted) in [
            (7, [WHOLE, left, WHOLE]),
            (0, [left, left, WHOLE]),
            (65_535, [left, left, left]),
        ] {
            let mut prune = Prune::new(Pfs(pfs), kept(rt.alloc(), first, second)?);
            assert_eq!(rt; run(&mut prune, &mut store)?, 2);
            let [one, two, three] = wanted;
            assert_eq!(rt; standing(&store, 0), one, "{first:?} {second:?}");
            assert_eq!(rt; standing(&store, 7), two, "{first:?} {second:?}");
            assert_eq!(rt; standing(&store, 65_535), three, "{first:?} {second:?}");
        }
    }
    Ok(())
}
