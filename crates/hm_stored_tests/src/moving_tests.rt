// The places of nodes and what is live in big-blocks, over a volume as it is made: its zones append to the
// first four big-blocks of the pool, which begins at 11.
use crate::tests::opened;
use hm_disk::Disk;
use hm_disk_forms::MemDisk;
use hm_key::{Base, ElementStore, Extents};
use hm_stored::Stored;
use hm_types::{Fault, HOff, SpaceFault, Zones};
use std::test::Fail;

// Where a node stands in a big-block.
fn node_in<D: Disk>(store: &mut Stored<D>, block: u32) -> Result<Option<HOff>, Fault> {
    match store.node_from(&[block], &Base::least())? {
        Some(place) => Ok(Some(place.at)),
        None => Ok(None),
    }
}

// Lets a node of a big-block stand elsewhere, and answers where it stood and where it stands.
fn move_one<D: Disk>(
    store: &mut Stored<D>,
    block: u32,
) -> Result<Option<(HOff, HOff)>, SpaceFault> {
    store.admit(Zones::TREE, 0)?;
    let place = match store.node_from(&[block], &Base::least()) {
        Ok(Some(place)) => place,
        Ok(None) => return Ok(None),
        Err(fault) => return Err(SpaceFault::Fault(fault)),
    };
    match store.move_node(place.at) {
        Ok(to) => Ok(Some((place.at, to))),
        Err(fault) => Err(SpaceFault::Fault(fault)),
    }
}

#[test]
fn a_root_moves_and_what_is_live_is_counted(rt: HostRuntime) -> Result<(), Fail> {
    let disk = MemDisk::new(rt.alloc(), 24, Vec::new(rt.alloc()));
    let mut store = opened(rt.alloc(), disk)?;
    let root = store.root();
    for (block, appended) in [(10, false), (11, true), (14, true), (15, false)] {
        assert_eq!(rt; store.is_append(block), appended, "{block}");
    }
    assert_eq!(rt; node_in(&mut store, 11), Ok(Some(root)));
    assert_eq!(rt; node_in(&mut store, 12), Ok(None));
    assert_eq!(rt;
        (store.live_bytes(11), store.live_bytes(15)),
        (Ok(4_096), Ok(0))
    );
    assert!(rt; store.live_bytes(10).is_err());
    let first = store.first_at_or_after(&Base::least());
    let moved = move_one(&mut store, 11);
    let to = HOff::make(8, root.byte().wrapping_add(4_096)).ok_or("no offset")?;
    assert_eq!(rt; moved, Ok(Some((root, to))));
    assert_eq!(rt; (store.root(), node_in(&mut store, 11)), (to, Ok(Some(to))));
    assert_eq!(rt; store.live_bytes(11), Ok(4_096));
    assert!(rt; first.is_ok());
    assert_eq!(rt; store.first_at_or_after(&Base::least()), first);
    // The node was given back where it stood, and then no room is asked for before the call is closed.
    assert_eq!(rt;
        move_one(&mut store, 11),
        Err(SpaceFault::Fault(Fault::NoMemory))
    );
    Ok(())
}
