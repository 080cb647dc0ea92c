// Flushes of a store over a volume as it is made, in which one call was kept.
ghost use Rattle.std.specs.Prelude.{◌≡◌, IfSome, None};
ghost use Rattle.hm_key.specs.Element.{IsElement};
ghost use Rattle.hm_header.specs.Range.{IsHeader};
ghost use Rattle.hm_stored.specs.Space.{heap};
ghost use Rattle.hm_stored.specs.Turn.{IsClosed};

use crate::quiet_disk::QuietDisk;
use crate::tests::{mounted, put_piece};
use hm_disk::Disk;
use hm_flush::{Flusher, Stage};
use hm_header::{BODY_BYTES, GATE_OPEN, Header, SLOT_BYTES, choose, encode, read_header};
use hm_key::{Base, ELEMENT, Element, ElementStore, Extents, FILE_BYTES, OTHER_PART};
use hm_newfs::write_volume;
use hm_stored::Stored;
use hm_types::{
    BIGBLOCK_BYTES, BLOCK_BYTES, Counted, Failed, Fault, HOff, Id, Obj, SpaceFault, Zones,
};
use std::alloc::Global;
use std::marker::Model;
use std::process::Abort;
use std::test::Fail;

// So many elements do not fit into one node, and fit into two.
const ELEMENTS: u8 = 70;

// The id of the call that adds them, which is the last one.
const LAST: Id = Id(10);

// A store that is flushed: with the header of its state, and what flushes it.
#[derive(Drop)]
struct Flushed {
    store: Stored<QuietDisk>,
    flusher: Flusher,
    now: Header,
}

impl Model for Flushed {
    ghost use Rattle.std.specs.Prelude.{ℕ};
    ghost use Rattle.hm_stored.specs.Space.{heap};
    ghost use Rattle.hm_stored.specs.Flushed.{IsFlushedBy};
    ghost use Rattle.hm_flush.specs.Calls.{IsTarget};

    ghost Value = { ℕ };

    ghost view = { λ _. 0 };

    ghost invariant = { λ v. IsFlushedBy v.flusher (heap v.store.space) × IsTarget v.flusher v.now };
}

impl Flushed {
    // A flush of a store between two calls, whose header of this slot counts.
    fn new(store: Stored<QuietDisk>, header: &Header, slot: u8) -> Option<Flushed>
        requires closed { IsClosed (heap store.space) }
        requires idle { (heap store.space).pages.boundary ≡ None }
    {
        let books = store.space().books();
        let now = checked(&Header {
            last: LAST,
            root: store.root(),
            append: books.append,
            ..*header
        })?;
        let header = checked(header)?;
        if slot > 1 || now.bigblocks != header.bigblocks || header.bigblocks != books.bigblocks {
            return None;
        }
        Some(Flushed {
            store,
            flusher: Flusher::new(&header, slot),
            now,
        })
    }

    // Makes the stage that is due.
    fn stage(&mut self) -> Result<Stage, Fault> {
        self.store.flush_stage(&mut self.flusher, &self.now)
    }

    // The boundary that is committed.
    fn boundary(&self) -> Id {
        self.flusher.boundary()
    }

    // The root of the tree, and how many writes the disk was asked for.
    fn root(&self) -> HOff {
        self.store.root()
    }

    fn writes(&self) -> u64 {
        self.store.space().disk().writes()
    }

    fn into_disk(self) -> QuietDisk {
        let Flushed { store, .. } = self;
        let (space, _) = store.into_parts();
        space.into_disk()
    }
}

// The header, where it is in range.
fn checked(header: &Header) -> Option<Header>
    ensures range { IfSome result (λ h. IsHeader h) }
{
    let mut body = [0; BODY_BYTES];
    encode(header, &mut body);
    let mut slot = [GATE_OPEN; SLOT_BYTES];
    slot[..BODY_BYTES].copy_from_slice(&body);
    match choose(&slot, &[0; SLOT_BYTES], 24 * BIGBLOCK_BYTES) {
        Ok((header, _)) => Some(header),
        Err(_) => None,
    }
}

// The element of some bytes of a file that stand in a block of this number.
fn element(number: u8, payload: HOff) -> Element
    ensures { IsElement result }
{
    Element {
        base: Base {
            obj: Obj(7),
            key: u64::from(number) * BLOCK_BYTES as u64 + 5,
            create: LAST.0,
            delete: 0,
            rec_type: FILE_BYTES,
            obj_type: 2,
            btype: ELEMENT,
            localization: OTHER_PART,
        },
        payload,
        len: 5,
    }
}

// Adds an element with its payload.
fn add(store: &mut Stored<QuietDisk>, number: u8) -> Result<(), SpaceFault>
    ensures frame { ⟦<Stored<QuietDisk> as Counted>⟧.frame store.new
        ≡ ⟦<Stored<QuietDisk> as Counted>⟧.frame store.old }
{
    let at = put_piece(store, &[number; 5], 0)?;
    store.admit(Zones::TREE, 0)?;
    store.insert(&element(number, at))?;
    Ok(())
}

// Adds so many of them, and says whether all went in.
fn add_all(store: &mut Stored<QuietDisk>, elements: u8) -> bool
    ensures frame { ⟦<Stored<QuietDisk> as Counted>⟧.frame store.new
        ≡ ⟦<Stored<QuietDisk> as Counted>⟧.frame store.old }
{
    let mut all = true;
    for number in 0..elements {
        all = all && add(store, number).is_ok();
    }
    all
}

// A volume over a disk of which these writes fail, counted from when it was mounted. One call was kept, which added
// so many elements.
fn kept(alloc: Global, elements: u8, fails: [u64; 3]) -> Result<Flushed, Fail> {
    let mut disk = QuietDisk::new(alloc);
    write_volume(&mut disk, 24)?;
    let Ok((header, slot)) = read_header(&mut disk)? else {
        return Err(Fail::from("no header"));
    };
    let space = mounted(alloc, disk.failing(fails))?;
    let root = space.books().roots.current;
    let mut store = Stored::over(space, root);
    store.begin(Id(9));
    let all = add_all(&mut store, elements);
    if !all || !store.can_keep() {
        return Err(Fail::from("the call is refused"));
    }
    store.keep();
    match Flushed::new(store, &header, slot) {
        Some(flushed) => Ok(flushed),
        None => Err(Fail::from("a header is out of range")),
    }
}

// The pages by their numbers: that of layer 2, the leaf that was the root, another leaf, and the new root.
#[test]
fn a_flush_brings_a_kept_call_onto_the_disk(rt: HostRuntime) -> Result<(), Fail> {
    let alloc = rt.alloc();
    let mut volume = kept(alloc, ELEMENTS, [0; 3])?;
    for want in [
        Stage::Freeze,
        Stage::Undo(0),
        Stage::Undo(1),
        Stage::UndoSync,
        Stage::Arm(1),
        Stage::Arm(2),
        Stage::Arm(3),
        Stage::Place(0),
        Stage::Place(1),
        Stage::Place(2),
        Stage::Place(3),
        Stage::PlaceSync,
        Stage::Commit(1),
        Stage::Commit(2),
        Stage::Commit(3),
    ] {
        assert!(rt; volume.boundary() != LAST);
        assert_eq!(rt; volume.stage(), Ok(want));
    }
    assert_eq!(rt; volume.boundary(), LAST);
    let root = volume.root();
    let mut disk = volume.into_disk();
    let Ok((header, _)) = read_header(&mut disk)? else {
        return Err(Fail::from("no header"));
    };
    assert_eq!(rt;
        (header.last, header.root, header.undo_count),
        (LAST, root, 0)
    );
    check_elements(&rt, alloc, disk)?;
    Ok(())
}

// Checks that a disk, as it is mounted anew, has the elements with their payloads, and no more.
fn check_elements(rt: &impl Abort, alloc: Global, disk: QuietDisk) -> Result<(), Fail> {
    let space = mounted(alloc, disk)?;
    let root = space.books().roots.current;
    let mut store = Stored::over(space, root);
    store.begin(LAST);
    for number in 0..ELEMENTS {
        let wanted = element(number, HOff::default());
        let Some(found) = store.first_at_or_after(&wanted.base)? else {
            return Err(Fail::from("an element is gone"));
        };
        assert_eq!(rt; (found.base, found.len), (wanted.base, 5));
        let mut bytes = [0; 5];
        store.fetch(found.payload, &mut bytes)?;
        assert_eq!(rt; bytes, [number; 5]);
    }
    let beyond = element(ELEMENTS, HOff::default());
    assert_eq!(rt; store.first_at_or_after(&beyond.base), Ok(None));
    Ok(())
}

// Makes stages until the last of a flush, and says how many failed.
fn flush(rt: &impl Abort, volume: &mut Flushed) -> u32 {
    let mut failed: u32 = 0;
    for _ in 0..40 {
        match volume.stage() {
            Ok(Stage::Commit(3)) => return failed,
            Ok(_) => {}
            Err(Fault::Media { before, after }) => {
                assert!(rt; before < after);
                failed = failed.saturating_add(1);
            }
            Err(_) => panic!(rt; "another fault"),
        }
    }
    panic!(rt; "the flush does not end")
}

// Checks that two disks hold the same: of each big-block the first 32,768 bytes, behind which nothing was put.
fn check_same(rt: &impl Abort, one: &mut QuietDisk, other: &mut QuietDisk) -> Result<(), Failed> {
    for block in 0..24 {
        let (mut first, mut second) = ([0; 32_768], [0; 32_768]);
        one.read_at(block * BIGBLOCK_BYTES, &mut first)?;
        other.read_at(block * BIGBLOCK_BYTES, &mut second)?;
        assert!(rt; first[..] == second[..], "{block}");
    }
    Ok(())
}

// Writes of a flush fail, and their stages are made again: Undo 1, Place 1, and Commit 3, which is the last one. The
// pages are that of layer 2 and the root. Arm 1 writes nothing: as a volume is made, the gate of its other slot is
// closed.
#[test]
fn a_stage_that_failed_is_made_again(rt: HostRuntime) -> Result<(), Fail> {
    let alloc = rt.alloc();
    let mut whole = kept(alloc, 2, [0; 3])?;
    let before = whole.writes();
    assert_eq!(rt; flush(&rt, &mut whole), 0);
    assert_eq!(rt; whole.writes().saturating_sub(before), 9);
    let fails = [
        before.saturating_add(2),
        before.saturating_add(7),
        before.saturating_add(11),
    ];
    let mut volume = kept(alloc, 2, fails)?;
    assert_eq!(rt; flush(&rt, &mut volume), 3);
    assert_eq!(rt; volume.boundary(), LAST);
    check_same(&rt, &mut whole.into_disk(), &mut volume.into_disk())?;
    Ok(())
}
