// A store over a volume as it is made.
ghost use Rattle.std.specs.Prelude.{◌≡◌, ◌≤◌, IfOk, IfSome, IsSome, None, length};
ghost use Rattle.hm_header.specs.Range.{IsRoot};
ghost use Rattle.hm_key.specs.Element.{IsElement};
ghost use Rattle.hm_key.specs.Key.{IsBefore, greatest_key, key_of};
ghost use Rattle.hm_newfs.specs.Steps.{HasSpace};
ghost use Rattle.hm_stored.specs.Heap.{frame_of};
ghost use Rattle.hm_stored.specs.Space.{heap};
ghost use Rattle.hm_stored.specs.Turn.{IsClosed, IsKeepable};

use hm_disk::Disk;
use hm_disk_forms::{FileDisk, MemDisk};
use hm_header::read_header;
use hm_key::{Base, ELEMENT, Element, ElementStore, Extents, OTHER_PART, SNAPSHOT};
use hm_load::load;
use hm_newfs::write_volume;
use hm_stored::{Books, Space, Stored};
use hm_types::{Counted, Failed, Fault, HOff, Id, Obj, SpaceFault, Zones};
use std::alloc::Global;
use std::test::Fail;

// A space over a volume of 24 big-blocks.
pub fn mounted<D: Disk + Drop>(alloc: Global, mut disk: D) -> Result<Space<D>, Failed>
    ensures closed { IfOk result (λ s. IsClosed (heap s)) }
    ensures root { IfOk result (λ s. IsRoot (heap s).bigblocks s.books.roots.current) }
    ensures idle { IfOk result (λ s. (heap s).pages.boundary ≡ None) }
{
    let header = match read_header(&mut disk)? {
        Ok((header, _)) => header,
        Err(_) => return Err(Failed),
    };
    match load(alloc, &mut disk, &header) {
        Ok(store) => Ok(Space::over(store, disk, Books::of(alloc, &header))),
        Err(_) => Err(Failed),
    }
}

// The store over a volume of 24 big-blocks, in which a call was opened.
pub fn opened<D: Disk + Drop>(alloc: Global, mut disk: D) -> Result<Stored<D>, Failed>
    requires room { IfSome (D.told disk) (HasSpace 24) }
    ensures { IfOk result (λ s. IsSome (heap s.space).pages.begin) }
{
    write_volume(&mut disk, 24)?;
    let space = mounted(alloc, disk)?;
    let root = space.books().roots.current;
    let mut store = Stored::over(space, root);
    store.begin(Id(9));
    Ok(store)
}

// The same over a file, whose disk tells nothing of what it holds.
fn opened_file(rt: HostRuntime) -> Result<Stored<FileDisk<HostRuntime>>, Fail>
    ensures { IfOk result (λ s. IsSome (heap s.space).pages.begin) }
{
    let name = String::from_str(rt.alloc(), "volume")?;
    match opened(rt.alloc(), FileDisk::named(rt, name, Some(24))) {
        Ok(store) => Ok(store),
        Err(Failed) => Err(Fail::from("no volume")),
    }
}

// Closes the open call, whose changes are dropped, and opens another.
fn drop_call<D: Disk>(store: &mut Stored<D>)
    requires opened { IsSome (heap store.old.space).pages.begin }
    ensures begun { IsSome (heap store.new.space).pages.begin }
{
    store.undo();
    store.begin(Id(9));
}

// Closes the open call, whose changes are kept, and opens another.
fn keep_call<D: Disk>(store: &mut Stored<D>)
    requires opened { IsSome (heap store.old.space).pages.begin }
    requires keepable { IsKeepable (heap store.old.space) store.old.root }
    ensures begun { IsSome (heap store.new.space).pages.begin }
{
    store.keep();
    store.begin(Id(9));
}

// Puts a piece into zone 9, which gets its reserve before, while so many big-blocks are held back.
pub fn put_piece<S: Extents>(store: &mut S, piece: &[u8], held: u32) -> Result<HOff, SpaceFault>
    requires some { 1 ≤ length piece.now }
    requires most { length piece.now ≤ 65536 }
    ensures frame { S.frame store.new ≡ S.frame store.old }
{
    store.admit(Zones::META, held)?;
    match store.place(9, piece) {
        Ok(at) => Ok(at),
        Err(fault) => Err(SpaceFault::Fault(fault)),
    }
}

// Where a piece went, in bytes from the start of the volume.
fn place_of<S: Extents>(store: &mut S, piece: &[u8]) -> Option<u64>
    requires some { 1 ≤ length piece.now }
    requires most { length piece.now ≤ 65536 }
    ensures frame { S.frame store.new ≡ S.frame store.old }
{
    match put_piece(store, piece, 0) {
        Ok(at) => Some(at.byte()),
        Err(_) => None,
    }
}

// After 126 pieces of 65,536 bytes zone 9 has less left than its reserve. Nine big-blocks are free, and
// the lowest of them is 15.
#[test]
fn a_zone_begins_a_big_block(rt: HostRuntime) -> Result<(), Fail> {
    let disk = MemDisk::new(rt.alloc(), 24, Vec::new(rt.alloc()));
    let mut store = opened(rt.alloc(), disk)?;
    let piece = [7; 65_536];
    for _ in 0..126 {
        assert!(rt; place_of(&mut store, &piece).is_some());
    }
    assert_eq!(rt;
        put_piece(&mut store, &piece, 9),
        Err(SpaceFault::NoSpace { free: 9, needed: 1 })
    );
    let at = put_piece(&mut store, &piece, 8).map(HOff::byte);
    assert_eq!(rt; at, Ok(125_829_120));
    Ok(())
}

// Pieces stand 16 bytes apart, and a call that is dropped leaves their places free.
#[test]
fn a_dropped_call_takes_no_room(rt: HostRuntime) -> Result<(), Fail> {
    let disk = MemDisk::new(rt.alloc(), 24, Vec::new(rt.alloc()));
    let mut store = opened(rt.alloc(), disk)?;
    let first = place_of(&mut store, &[1; 5]);
    let second = place_of(&mut store, &[2; 5]);
    assert!(rt; first.is_some());
    assert_eq!(rt; second, first.map(after_piece));
    drop_call(&mut store);
    assert_eq!(rt; place_of(&mut store, &[3; 5]), first);
    Ok(())
}

fn after_piece(place: u64) -> u64 {
    place.wrapping_add(16)
}

// An element that stands after those of a volume as it is made, in the order of these keys.
fn element(key: u64) -> Element
    ensures element { IsElement result }
    ensures create { result.base.create ≡ 10 }
    ensures before { IsBefore (key_of result.base) greatest_key }
{
    Element {
        base: Base {
            obj: Obj(1),
            key,
            create: 10,
            delete: 0,
            rec_type: SNAPSHOT,
            obj_type: 1,
            btype: ELEMENT,
            localization: OTHER_PART,
        },
        payload: HOff::default(),
        len: 8,
    }
}

// Adds an element to a store that tells nothing, once zone 8 has its reserve.
fn add(store: &mut Stored<FileDisk<HostRuntime>>, e: &Element) -> Result<(), SpaceFault>
    requires element { IsElement e.now }
    ensures frame { ⟦<Stored<FileDisk<HostRuntime>> as Counted>⟧.frame store.new
        ≡ ⟦<Stored<FileDisk<HostRuntime>> as Counted>⟧.frame store.old }
{
    store.admit(Zones::TREE, 0)?;
    store.insert(e)?;
    Ok(())
}

#[test]
fn elements_are_found_as_they_were_changed(rt: HostRuntime) -> Result<(), Fail> {
    let mut store = opened_file(rt)?;
    let (first, second) = (element(1), element(2));
    assert_eq!(rt; add(&mut store, &first), Ok(()));
    assert_eq!(rt; add(&mut store, &second), Ok(()));
    assert_eq!(rt; store.first_at_or_after(&first.base), Ok(Some(first)));
    assert_eq!(rt; store.unchanged_until(&first.base, Id(9)), Ok(None));
    assert!(rt; store.unchanged_until(&first.base, Id(10))?.is_some());
    let Some(to) = HOff::make(9, 4_096) else {
        return Err(Fail::from("no offset"));
    };
    store.readdress(&first.base, to)?;
    store.set_delete(&first.base, 11)?;
    let found = store.first_at_or_after(&first.base)?;
    assert_eq!(rt; found.map(payload_of), Some(to));
    assert_eq!(rt; found.map(delete_of), Some(11));
    store.remove(&first.base)?;
    assert_eq!(rt; store.first_at_or_after(&first.base), Ok(Some(second)));
    store.remove(&second.base)?;
    assert_eq!(rt; store.first_at_or_after(&first.base), Ok(None));
    Ok(())
}

fn payload_of(e: Element) -> HOff {
    e.payload
}

fn delete_of(e: Element) -> u64 {
    e.base.delete
}

// An extent has one reference as it is put, so that it is given back once more than it was shared.
#[test]
fn payloads_are_read_shared_and_given_back(rt: HostRuntime) -> Result<(), Fail> {
    let mut store = opened_file(rt)?;
    let at = put_piece(&mut store, b"some bytes", 0)?;
    let mut buf = [0; 10];
    store.fetch(at, &mut buf)?;
    assert_eq!(rt; &buf, b"some bytes");
    assert_eq!(rt; store.share(at, 10), Ok(()));
    assert_eq!(rt; store.give_back(at, 10), Ok(()));
    assert_eq!(rt; store.give_back(at, 10), Ok(()));
    Ok(())
}

#[test]
fn kept_changes_stay_and_dropped_ones_go(rt: HostRuntime) -> Result<(), Fail> {
    let mut store = opened_file(rt)?;
    assert_eq!(rt; add(&mut store, &element(1)), Ok(()));
    assert!(rt; store.can_keep());
    keep_call(&mut store);
    assert_eq!(rt; add(&mut store, &element(2)), Ok(()));
    drop_call(&mut store);
    let first = element(1);
    assert_eq!(rt; store.first_at_or_after(&first.base), Ok(Some(first)));
    assert_eq!(rt; store.first_at_or_after(&element(2).base), Ok(None));
    Ok(())
}

// Room is refused once something was given back, and then each call is, until the changes are dropped.
#[test]
fn a_call_that_failed_is_refused_until_it_is_dropped(rt: HostRuntime) -> Result<(), Fail> {
    let mut store = opened_file(rt)?;
    let at = put_piece(&mut store, b"some bytes", 0)?;
    store.give_back(at, 10)?;
    assert_eq!(rt;
        store.admit(Zones::META, 0),
        Err(SpaceFault::Fault(Fault::NoMemory))
    );
    assert!(rt; !store.can_keep());
    let e = element(1);
    assert_eq!(rt; store.first_at_or_after(&e.base), Err(Fault::NoMemory));
    assert_eq!(rt; store.share(at, 10), Err(Fault::NoMemory));
    drop_call(&mut store);
    assert_eq!(rt; add(&mut store, &e), Ok(()));
    Ok(())
}
