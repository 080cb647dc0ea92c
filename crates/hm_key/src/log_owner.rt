// The owner of a small store: what it knows after generic code ran on a `&mut` to its own.
ghost use Rattle.std.specs.Prelude.{◌≡◌, ◌≤◌};
ghost use Rattle.hm_types.specs.Told.{BothTell};
ghost use Rattle.hm_key.specs.Element.{IsElement};
ghost use Rattle.hm_key.specs.LogStore.{StillSafe};
ghost use Rattle.hm_key.specs.Memory.{room_of};

use crate::base::{Base, ELEMENT};
use crate::callers::{insert_and_find, renew_from};
use crate::element::{Element, is_element};
use crate::log_store::LogStore;
use crate::rec_type::{DIRECTORY_ENTRY, OTHER_PART};
use crate::toy_disk::{ByteDisk, Disk};
use hm_types::{Failed, Fault, HOff, INSERT_ROOM, Obj, SpaceFault, TREE_ZONE};
use std::alloc::Global;
use std::test::Fail;

/// A small store with a count of the calls on it.
#[derive(Drop)]
pub struct Owner<D: Disk> {
    store: LogStore<D>,
    calls: u64,
}

/// Whatever a call answers: what was committed stays, and since the moment before each crash leaves
/// it.
impl<D: Disk> Owner<D> {
    #[tactic(auto, unfolding(crate::specs::LogStore::log_frame))]
    pub fn insert_and_find(&mut self, e: &Element) -> Result<Option<Element>, Fault>
        requires element { IsElement e.now }
        requires room { INSERT_ROOM ≤ room_of self.old.store.rooms TREE_ZONE }
        ensures committed { self.new.store.committed.items ≡ self.old.store.committed.items }
        ensures safe { BothTell (D.told self.old.store.disk) (D.told self.new.store.disk)
            (StillSafe self.old.store.committed.items (D.left_since self.new.store.disk)) }
    {
        self.calls = self.calls.saturating_add(1);
        insert_and_find(&mut self.store, e)
    }

    #[tactic(auto, unfolding(crate::specs::LogStore::log_frame))]
    pub fn renew_from(&mut self, from: &Base, id: u64, most: u32) -> Result<u32, SpaceFault>
        ensures committed { self.new.store.committed.items ≡ self.old.store.committed.items }
        ensures safe { BothTell (D.told self.old.store.disk) (D.told self.new.store.disk)
            (StillSafe self.old.store.committed.items (D.left_since self.new.store.disk)) }
    {
        self.calls = self.calls.saturating_add(1);
        renew_from(&mut self.store, from, id, most)
    }
}

// The owner of a store on a disk of 64 bytes, of which these are committed.
fn owner_of(alloc: Global, committed: &[u8], is_worn: bool) -> Result<Owner<ByteDisk>, Fail> {
    if committed.len() > 64 {
        return Err("more than the disk holds")?;
    }
    let mut held = Vec::new(alloc);
    held.extend_from_slice(committed)?;
    let mut bytes = Vec::new(alloc);
    bytes.extend_from_slice(committed)?;
    bytes.resize(64, 0)?;
    let disk = ByteDisk {
        bytes,
        unsettled: Vec::new(alloc),
        moment: 0,
        faults: 0,
        is_worn,
    };
    match LogStore::over(disk, held, 64) {
        Ok(store) => Ok(Owner { store, calls: 0 }),
        Err((_, Failed)) => Err("the sync failed")?,
    }
}

#[test]
fn what_is_committed_stays_before_the_log(rt: HostRuntime) -> Result<(), Fail> {
    let element = Element {
        base: Base {
            obj: Obj(2),
            key: 20,
            create: 9,
            delete: 0,
            rec_type: DIRECTORY_ENTRY,
            obj_type: 1,
            btype: ELEMENT,
            localization: OTHER_PART,
        },
        payload: HOff::default(),
        len: 16,
    };
    for (is_worn, wanted) in [
        (false, Ok(None)),
        (
            true,
            Err(Fault::Media {
                before: 0,
                after: 1,
            }),
        ),
    ] {
        let mut owner = owner_of(rt.alloc(), b"committed", is_worn)?;
        assert!(rt; is_element(&element));
        assert!(rt; owner.store.rooms.of(TREE_ZONE) >= u64::from(INSERT_ROOM));
        assert_eq!(rt; owner.insert_and_find(&element), wanted, "{is_worn}");
        assert_eq!(rt; owner.renew_from(&element.base, 9, 3), Ok(0));
        assert_eq!(rt; owner.store.committed.as_slice(), b"committed".as_slice());
        assert_eq!(rt;
            owner.store.disk.bytes.get(..11),
            Some(b"committedi\0".as_slice())
        );
        assert_eq!(rt; owner.store.disk.moment, 1);
    }
    Ok(())
}
