// A plain job, written from the traits alone: it shows that `Job` can be met.
ghost use Rattle.std.specs.Prelude.{◌≡◌, ◌↔◌, IfSome, IfOk, OnOk, IsTrue, false, None, Some};
ghost use Rattle.hm_types.specs.Space.{nothing};
ghost use Rattle.hm_key.specs.Balance.{Balanced};
ghost use Rattle.hm_key.specs.Elements.{element_at};
ghost use Rattle.hm_key.specs.Key.{key_of};
ghost use Rattle.hm_key.specs.Sweep.{carried, keeps_one, place_from, IsOver, Clears, NoneFrom};
ghost use Rattle.hm_key.specs.Members.{HasContentCause, InBalance, KeepsTold, SpendsAtMost};

use crate::base::{Base, ELEMENT};
use crate::element::{Element, is_element};
use crate::extents::Extents;
use crate::job::{Job, Progress};
use crate::memory::MemStore;
use crate::rec_type::{DIRECTORY_ENTRY, OTHER_PART};
use crate::room::HasRoom;
use crate::store::{ElementStore, HasElements};
use hm_types::{Counted, Fault, HOff, INSERT_ROOM, META_ZONE, Obj, TREE_ZONE};
use std::alloc::Global;
use std::test::Fail;

/// Removes the elements of one pseudo file system that were closed by an id. A unit looks at one
/// element.
#[derive(Drop)]
pub struct Sweep {
    pub pfs: u16,
    pub id: u64,
    /// The key from which on it looks, and None where it has come to the end.
    pub from: Option<Base>,
}

impl Sweep {
    fn is_over(&self, base: &Base) -> bool
        ensures { IsTrue result ↔ IsOver self.now.pfs self.now.id base.now }
    {
        base.localization / 65_536 == u32::from(self.pfs)
            && base.delete != 0
            && base.delete <= self.id
    }
}

impl<T: ElementStore + Extents> Job<T> for Sweep {
    ghost fits = { λ _ s. InBalance T.HasElements s };

    ghost goes = { λ _ s. InBalance T.HasElements s };

    ghost ends = { λ j s. IfSome (T.elements s) (NoneFrom j.from) };

    ghost kept = { λ j. keeps_one j.pfs j.id };

    ghost places = { λ _. false };

    ghost place = { λ j. place_from j.from };

    ghost looks = { λ j s t same. carried j.from (T.elements s) (T.elements t) (T.extents s)
        (T.extents t) same.elements same.extents };

    fn unit(&mut self, store: &mut T) -> Result<Progress, Fault> {
        let Some(from) = self.from else {
            return Ok(Progress::Done);
        };
        let Some(element) = store.first_at_or_after(&from)? else {
            return Ok(Progress::Done);
        };
        clear(store, &element, self.is_over(&element.base))?;
        self.from = element.base.key_after();
        Ok(Progress::More)
    }
}

// Removes an element and gives its reference back, if it is over.
fn clear<T: ElementStore + Extents>(
    store: &mut T,
    element: &Element,
    is_over: bool,
) -> Result<(), Fault>
    requires balanced { InBalance T.HasElements store.old }
    requires there { IfSome (T.elements store.old) (λ es.
        element_at (key_of element.now.base) es ≡ Some element.now) }
    ensures ok { OnOk result (Clears T.elements T.mark T.extents is_over element.now
        store.old store.new) }
    ensures keeps { KeepsTold T.HasElements store.old store.new result }
    ensures name { T.name store.new ≡ T.name store.old }
    ensures frame { T.frame store.new ≡ T.frame store.old }
    ensures space { SpendsAtMost T.HasElements nothing store.old store.new }
    ensures cause { HasContentCause T.HasElements store.old store.new result }
{
    if !is_over {
        return Ok(());
    }
    store.remove(&element.base)?;
    store.give_back(element.payload, element.len)
}

// Adds an element with these bytes in an extent of its own, where nothing is in the way.
fn add(store: &mut MemStore, base: &Base, bytes: &[u8]) -> Result<bool, Fault>
    requires { Balanced (⟦<MemStore as HasElements>⟧.elements store.old)
        (⟦<MemStore as HasRoom>⟧.extents store.old) }
    ensures { IfOk result (λ _. Balanced (⟦<MemStore as HasElements>⟧.elements store.new)
        (⟦<MemStore as HasRoom>⟧.extents store.new)) }
{
    let mut element = Element {
        base: *base,
        payload: HOff::default(),
        len: 16,
    };
    if bytes.len() != 16 || !is_element(&element) || store.has(base) {
        return Ok(false);
    }
    if store.room(TREE_ZONE) < u64::from(INSERT_ROOM) || store.room(META_ZONE) < 16 {
        return Ok(false);
    }
    element.payload = store.place(META_ZONE, bytes)?;
    store.insert(&element)?;
    Ok(true)
}

// Does units until the job is done, at most `most` of them.
fn sweep_all(sweep: &mut Sweep, store: &mut MemStore, most: u32) -> Result<bool, Fault>
    requires { Balanced (⟦<MemStore as HasElements>⟧.elements store.old)
        (⟦<MemStore as HasRoom>⟧.extents store.old) }
    ensures { IfOk result (λ _. Balanced (⟦<MemStore as HasElements>⟧.elements store.new)
        (⟦<MemStore as HasRoom>⟧.extents store.new)) }
{
    for _ in 0..most {
        match sweep.unit(store)? {
            Progress::More => {}
            Progress::Done => return Ok(true),
        }
    }
    Ok(false)
}

// A store with three entries: one open, one closed at id 9 and one at id 12.
fn closed_at_9_and_12(alloc: Global) -> Result<MemStore, Fault>
    ensures { IfOk result (λ store. Balanced (⟦<MemStore as HasElements>⟧.elements store)
        (⟦<MemStore as HasRoom>⟧.extents store)) }
{
    let mut store = MemStore::new(alloc, 0);
    let _added = add(&mut store, &entry(10, 5, 0), b"0123456789abcdef")?;
    let _added = add(&mut store, &entry(20, 6, 9), b"ABCDEFGHIJKLMNOP")?;
    let _added = add(&mut store, &entry(30, 7, 12), b"abcdefghijklmnop")?;
    Ok(store)
}

// A directory's entry in PFS 0.
fn entry(key: u64, create: u64, delete: u64) -> Base {
    Base {
        obj: Obj(2),
        key,
        create,
        delete,
        rec_type: DIRECTORY_ENTRY,
        obj_type: 1,
        btype: ELEMENT,
        localization: OTHER_PART,
    }
}

#[test]
fn a_job_removes_what_was_closed_by_an_id(rt: HostRuntime) -> Result<(), Fail> {
    let mut store = closed_at_9_and_12(rt.alloc())?;
    let [first, second, third] = store.elements() else {
        return Err("not three elements")?;
    };
    let (first, second, third) = (*first, *second, *third);
    let mut sweep = Sweep {
        pfs: 0,
        id: 10,
        from: Some(Base::least()),
    };
    assert!(rt; sweep_all(&mut sweep, &mut store, 4)?);
    assert_eq!(rt; store.elements(), [first, third].as_slice());
    for (element, wanted) in [
        (first, Some((16, 1))),
        (second, None),
        (third, Some((16, 1))),
    ] {
        assert_eq!(rt; store.extent(element.payload), wanted, "{element:?}");
    }
    Ok(())
}

#[test]
fn a_job_of_another_pseudo_file_system_removes_nothing(rt: HostRuntime) -> Result<(), Fail> {
    let mut store = closed_at_9_and_12(rt.alloc())?;
    let mut sweep = Sweep {
        pfs: 1,
        id: 20,
        from: Some(Base::least()),
    };
    assert!(rt; !sweep_all(&mut sweep, &mut store, 3)?);
    assert!(rt; sweep_all(&mut sweep, &mut store, 1)?);
    assert_eq!(rt; store.elements().len(), 3);
    Ok(())
}
