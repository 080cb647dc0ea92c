// Objects over a store in memory, on tables worked out by hand.
ghost use Rattle.std.specs.Prelude.{◌≡◌, ◌+◌, ◌≤◌, IfOk, IsTrue};
ghost use Rattle.hm_objects.specs.Objects.{HasRooms, open_base};
ghost use Rattle.hm_store_tests.specs.Tests.{IsReady};

use hm_cursor::{add_version, find_inode, find_payload, inode_base, target_base};
use hm_key::{Base, ELEMENT, HasElements, HasRoom, MemStore, SOFTLINK_TARGET};
use hm_objects::{
    add_directory, add_file, add_pfs_link, add_softlink, remove_object, set_links, set_size,
};
use hm_records::{DIRECTORY, FILE, PFS_LINK, SOFTLINK};
use hm_types::{BAD_PAYLOAD, Fault, HOff, INSERT_ROOM, Id, META_ZONE, Obj, Pfs, TREE_ZONE, Text};
use std::alloc::Global;
use std::test::Fail;

const PFS: Pfs = Pfs(0);

// An empty file's inode, but for its last byte.
const CUT_INODE: [u8; 31] = [
    0x02, 0, 0, 0, 0, 0, 0, 0, // kind, zeros
    0, 0, 0, 0, 0, 0, 0, 0, // size
    0x01, 0, 0, 0, 0, 0, // links, PFS number
    0, 0, 0, 0, 0, 0, 0, 0, 0,
];

// What is done with an object.
#[derive(Clone, Copy, Debug)]
enum Step {
    AddDirectory,
    AddFile,
    // To the target `../here`.
    AddSoftlink,
    // To the pseudo file system with this number.
    AddPfsLink(u16),
    // With an inode that is a byte too short.
    AddDamaged,
    SetLinks(u32),
    SetSize(u64),
    Remove,
}

// The base of an open element of an object of a kind, made by an id.
fn made_by(base: Base, kind: u8, id: Id) -> Base
    ensures { result ≡ open_base base kind id.0 }
{
    Base {
        create: id.0,
        delete: 0,
        obj_type: kind,
        btype: ELEMENT,
        ..base
    }
}

// Takes a step by an id.
fn take(alloc: Global, store: &mut MemStore, step: Step, obj: Obj, id: Id) -> Result<(), Fault>
    requires id { 1 ≤ id.0 }
    requires ready { IsReady (⟦<MemStore as HasElements>⟧.elements store.old)
        (⟦<MemStore as HasRoom>⟧.extents store.old) id.0 }
    requires room { HasRooms (⟦<MemStore as HasRoom>⟧.room store.old) 2 48 }
    ensures { IfOk result (λ _. IsReady (⟦<MemStore as HasElements>⟧.elements store.new)
        (⟦<MemStore as HasRoom>⟧.extents store.new) (id.0 + 1)) }
{
    match step {
        Step::AddDirectory => add_directory(alloc, store, PFS, obj, id),
        Step::AddFile => add_file(alloc, store, PFS, obj, id),
        Step::AddSoftlink => {
            let target = vec![in alloc; b'.', b'.', b'/', b'h', b'e', b'r', b'e']?;
            add_softlink(alloc, store, PFS, obj, &Text::of(target), id)
        }
        Step::AddPfsLink(to) => add_pfs_link(alloc, store, PFS, obj, Pfs(to), id),
        Step::AddDamaged => {
            let base = made_by(inode_base(PFS, obj), FILE, id);
            add_version(store, &base, META_ZONE, &CUT_INODE)
        }
        Step::SetLinks(links) => set_links(alloc, store, PFS, obj, links, id),
        Step::SetSize(size) => set_size(alloc, store, PFS, obj, size, id),
        Step::Remove => remove_object(store, PFS, obj, id),
    }
}

// Whether a store has room for any step.
fn has_room(store: &MemStore) -> bool
    ensures { IsTrue result → HasRooms (⟦<MemStore as HasRoom>⟧.room store.now) 2 48 }
{
    store.room(TREE_ZONE) >= 2 * u64::from(INSERT_ROOM) && store.room(META_ZONE) >= 48
}

// Takes a step by an id of at least `next`, and answers the least id that may come after it.
fn take_next(
    alloc: Global,
    store: &mut MemStore,
    next: u64,
    step: Step,
    obj: u64,
    id: u64,
) -> Result<u64, Fail>
    requires { IsReady (⟦<MemStore as HasElements>⟧.elements store.old)
        (⟦<MemStore as HasRoom>⟧.extents store.old) next }
    ensures { IfOk result (λ next. IsReady (⟦<MemStore as HasElements>⟧.elements store.new)
        (⟦<MemStore as HasRoom>⟧.extents store.new) next) }
{
    if id == 0 || id < next || id == u64::MAX {
        return Err("no new id")?;
    }
    if !has_room(store) {
        return Err("no room")?;
    }
    take(alloc, store, step, Obj(obj), Id(id))?;
    Ok(id + 1)
}

// A store after steps on objects by rising ids.
fn store_after(alloc: Global, steps: &[(Step, u64, u64)]) -> Result<(MemStore, u64), Fail>
    ensures { IfOk result (λ pair. IsReady (⟦<MemStore as HasElements>⟧.elements pair.0)
        (⟦<MemStore as HasRoom>⟧.extents pair.0) pair.1) }
{
    let mut store = MemStore::new(alloc, 0);
    let mut next = 1;
    for (step, obj, id) in steps {
        next = take_next(alloc, &mut store, next, *step, *obj, *id)?;
    }
    Ok((store, next))
}

// A directory, a file and a softlink.
const ADDED: [(Step, u64, u64); 3] = [
    (Step::AddDirectory, 20, 2),
    (Step::AddFile, 30, 3),
    (Step::AddSoftlink, 40, 4),
];

// The kind, the size and the number of links of an object after steps, as of an id.
fn found_after(
    alloc: Global,
    steps: &[(Step, u64, u64)],
    pfs: u16,
    obj: u64,
    as_of: u64,
) -> Result<Option<(u8, u64, u32)>, Fail> {
    let (mut store, _) = store_after(alloc, steps)?;
    match find_inode(&mut store, Pfs(pfs), Obj(obj), Id(as_of))? {
        Some(inode) => Ok(Some((inode.kind, inode.size, inode.links))),
        None => Ok(None),
    }
}

// The target of an object after steps, as of an id, and its length.
fn target_after(
    alloc: Global,
    steps: &[(Step, u64, u64)],
    pfs: u16,
    obj: u64,
    as_of: u64,
) -> Result<Option<([u8; 8], usize)>, Fail> {
    let (mut store, _) = store_after(alloc, steps)?;
    let mut bytes = [0; 8];
    let at = target_base(Pfs(pfs), Obj(obj));
    match find_payload(&mut store, &at, Id(as_of), &mut bytes)? {
        Some((_, len)) => Ok(Some((bytes, len))),
        None => Ok(None),
    }
}

// The number that the inode of an object holds after steps, as of an id.
fn number_after(
    alloc: Global,
    steps: &[(Step, u64, u64)],
    obj: u64,
    as_of: u64,
) -> Result<Option<u16>, Fail> {
    let (mut store, _) = store_after(alloc, steps)?;
    match find_inode(&mut store, PFS, Obj(obj), Id(as_of))? {
        Some(inode) => Ok(Some(inode.pfs.0)),
        None => Ok(None),
    }
}

const LEADING: [(Step, u64, u64); 3] = [
    (Step::AddPfsLink(65_535), 60, 4),
    (Step::AddPfsLink(1), 70, 5),
    (Step::Remove, 60, 7),
];

const LINKED: [(Step, u64, u64); 4] = [
    (Step::AddSoftlink, 40, 4),
    (Step::AddFile, 50, 5),
    (Step::SetLinks(5), 40, 6),
    (Step::SetLinks(0), 40, 9),
];

const SIZED: [(Step, u64, u64); 7] = [
    (Step::AddFile, 30, 3),
    (Step::AddSoftlink, 40, 4),
    (Step::SetLinks(2), 30, 5),
    (Step::SetSize(u64::MAX), 30, 6),
    (Step::SetSize(5), 40, 7),
    (Step::SetSize(5), 50, 8),
    (Step::SetSize(0), 30, 9),
];

const REMOVED: [(Step, u64, u64); 4] = [
    (Step::AddSoftlink, 40, 4),
    (Step::AddFile, 50, 5),
    (Step::SetLinks(5), 40, 6),
    (Step::Remove, 40, 8),
];

#[test]
fn an_object_is_as_the_newest_id_left_it(rt: HostRuntime) -> Result<(), Fail> {
    for (steps, pfs, obj, as_of, want) in [
        // It is there from the id that added it.
        (ADDED.as_slice(), 0, 20, 1, None),
        (&ADDED, 0, 20, 2, Some((DIRECTORY, 0, 1))),
        (&ADDED, 0, 20, 3, Some((DIRECTORY, 0, 1))),
        (&ADDED, 0, 30, 2, None),
        (&ADDED, 0, 30, 3, Some((FILE, 0, 1))),
        (&ADDED, 0, 30, 4, Some((FILE, 0, 1))),
        (&ADDED, 0, 40, 3, None),
        (&ADDED, 0, 40, 4, Some((SOFTLINK, 7, 1))),
        (&ADDED, 0, 40, u64::MAX, Some((SOFTLINK, 7, 1))),
        (&ADDED, 0, 50, 4, None),
        (&ADDED, 1, 20, 4, None),
        (&ADDED, 1, 30, 4, None),
        (&ADDED, 1, 40, 4, None),
        (&LEADING, 0, 60, 3, None),
        (&LEADING, 0, 60, 4, Some((PFS_LINK, 0, 1))),
        (&LEADING, 0, 60, 6, Some((PFS_LINK, 0, 1))),
        (&LEADING, 0, 60, 7, None),
        (&LEADING, 1, 60, 4, None),
        // Its links are those of the newest id.
        (&LINKED, 0, 40, 3, None),
        (&LINKED, 0, 40, 4, Some((SOFTLINK, 7, 1))),
        (&LINKED, 0, 40, 5, Some((SOFTLINK, 7, 1))),
        (&LINKED, 0, 40, 6, Some((SOFTLINK, 7, 5))),
        (&LINKED, 0, 40, 8, Some((SOFTLINK, 7, 5))),
        (&LINKED, 0, 40, 9, Some((SOFTLINK, 7, 0))),
        (&LINKED, 0, 50, 6, Some((FILE, 0, 1))),
        // So is its size, and only a file has one that is set.
        (&SIZED, 0, 30, 5, Some((FILE, 0, 2))),
        (&SIZED, 0, 30, 6, Some((FILE, u64::MAX, 2))),
        (&SIZED, 0, 30, 8, Some((FILE, u64::MAX, 2))),
        (&SIZED, 0, 30, 9, Some((FILE, 0, 2))),
        (&SIZED, 0, 40, 9, Some((SOFTLINK, 7, 1))),
        (&SIZED, 0, 50, 9, None),
        // It is gone from the id on that removed it.
        (&REMOVED, 0, 40, 5, Some((SOFTLINK, 7, 1))),
        (&REMOVED, 0, 40, 7, Some((SOFTLINK, 7, 5))),
        (&REMOVED, 0, 40, 8, None),
        (&REMOVED, 0, 40, u64::MAX, None),
        (&REMOVED, 0, 50, 8, Some((FILE, 0, 1))),
    ] {
        let found = found_after(rt.alloc(), steps, pfs, obj, as_of)?;
        assert_eq!(rt; found, want, "{obj} of {pfs} as of {as_of}, {steps:?}");
    }
    Ok(())
}

#[test]
fn a_pfs_link_holds_the_number_that_it_leads_to(rt: HostRuntime) -> Result<(), Fail> {
    for (steps, obj, as_of, want) in [
        (LEADING.as_slice(), 60, 3, None),
        (&LEADING, 60, 4, Some(65_535)),
        (&LEADING, 60, 6, Some(65_535)),
        (&LEADING, 60, 7, None),
        (&LEADING, 70, 5, Some(1)),
        (&LEADING, 70, 7, Some(1)),
        (&ADDED, 20, 4, Some(0)),
        (&ADDED, 40, 4, Some(0)),
    ] {
        let number = number_after(rt.alloc(), steps, obj, as_of)?;
        assert_eq!(rt; number, want, "{obj} as of {as_of}, {steps:?}");
    }
    Ok(())
}

#[test]
fn a_target_comes_and_goes_with_its_softlink(rt: HostRuntime) -> Result<(), Fail> {
    let removed = [(Step::AddSoftlink, 40, 4), (Step::Remove, 40, 8)];
    let target = Some((*b"../here\0", 7));
    for (steps, pfs, obj, as_of, want) in [
        (ADDED.as_slice(), 0, 40, 3, None),
        (&ADDED, 0, 40, 4, target),
        (&ADDED, 0, 40, 5, target),
        (&ADDED, 0, 20, 4, None),
        (&ADDED, 0, 30, 4, None),
        (&ADDED, 1, 40, 4, None),
        (&removed, 0, 40, 7, target),
        (&removed, 0, 40, 8, None),
        (&removed, 0, 40, 9, None),
    ] {
        let found = target_after(rt.alloc(), steps, pfs, obj, as_of)?;
        assert_eq!(rt; found, want, "{obj} of {pfs} as of {as_of}, {steps:?}");
    }
    Ok(())
}

#[test]
fn an_open_target_is_closed_as_another_one_comes(rt: HostRuntime) -> Result<(), Fail> {
    let steps = [(Step::AddSoftlink, 40, 4), (Step::AddSoftlink, 40, 6)];
    let (store, _) = store_after(rt.alloc(), &steps)?;
    let [_, _, old, new] = store.elements() else {
        return Err("not two inodes and two targets")?;
    };
    for (target, create, delete) in [(old, 4, 6), (new, 6, 0)] {
        assert_eq!(rt; target.base.rec_type, SOFTLINK_TARGET);
        assert_eq!(rt; (target.base.create, target.base.delete), (create, delete));
    }
    Ok(())
}

#[test]
fn links_of_an_object_that_is_not_there_change_nothing(rt: HostRuntime) -> Result<(), Fail> {
    let file = (Step::AddFile, 30, 3);
    let gone = (Step::Remove, 30, 5);
    let (store, _) = store_after(rt.alloc(), &[file, gone])?;
    for obj in [29, 30, 31] {
        let links = (Step::SetLinks(5), obj, 6);
        let (after, _) = store_after(rt.alloc(), &[file, gone, links])?;
        assert_eq!(rt; after.elements(), store.elements(), "{obj}");
    }
    Ok(())
}

// The fault of giving links to the object of a first step, and where its payload stands.
fn links_fault(alloc: Global, step: Step) -> Result<(Option<Fault>, HOff), Fail> {
    let (mut store, next) = store_after(alloc, &[(step, 30, 3)])?;
    let [element] = store.elements() else {
        return Err("not one element")?;
    };
    let at = element.payload;
    if next == 0 || !has_room(&store) {
        return Err("no room")?;
    }
    let links = take(alloc, &mut store, Step::SetLinks(5), Obj(30), Id(next));
    Ok((links.err(), at))
}

#[test]
fn a_payload_that_spells_no_inode_is_damage_there(rt: HostRuntime) -> Result<(), Fail> {
    let (fault, at) = links_fault(rt.alloc(), Step::AddDamaged)?;
    let kind = BAD_PAYLOAD;
    assert_eq!(rt; fault, Some(Fault::Damaged { at, kind }));
    let (fault, _) = links_fault(rt.alloc(), Step::AddFile)?;
    assert_eq!(rt; fault, None);
    Ok(())
}
