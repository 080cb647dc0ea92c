// The space of a volume: its pages, its freemap and its disk; how a call on it is opened and closed, and its calls
// on extents of payloads.
ghost use Rattle.std.proofs.Props.{props};
ghost use Rattle.hm_freemap.specs.Places.{HasLayer2};
ghost use Rattle.hm_pages.specs.Store.{contents, layer2};
ghost use Rattle.hm_stored.specs.Heap.{heap_of};
ghost use Rattle.hm_stored.specs.Held.{IsKept, IsOfVolume};

use crate::books::Books;
use crate::extents::{give, renew, share};
use crate::grants::{count_free, count_live};
use crate::pages::VolumePages;
use crate::payloads::{put, read};
use hm_disk::{Disk, MOST_CALL_BYTES};
use hm_pages::PageStore;
use hm_types::{BAD_PAYLOAD, BIGBLOCK_BYTES, Counted, Fault, HOff, Id, SpaceFault, Zones};

/// A volume in use: every page of its tree and of its freemap, in three states, and the disk that
/// holds its payloads. A call changes pages of the current state, and puts payloads where nothing is
/// live in any of the three.
///
/// What it tells is decided by its state as the open call began: it tells its content where the disk
/// does, its tree and its freemap were sound, and its ids known. Once a call has failed half-way, each
/// one is refused until the changes are dropped.
#[derive(Drop)]
pub struct Space<D: Disk> {
    pub(crate) pages: VolumePages,
    pub(crate) disk: D,
    pub(crate) books: Books,
    ghost there: { HasLayer2 books.bigblocks (layer2 (contents pages.store)) } by { Prim.hlevel props },
    ghost kept: { ∥ IsKept (heap_of (contents pages.store) (D.told disk) books) ∥₁ },
    ghost of_volume: { ∥ IsOfVolume (heap_of (contents pages.store) (D.told disk) books) ∥₁ },
}

// How a call is opened and closed.
impl<D: Disk> Space<D> {
    ghost use Rattle.std.specs.Prelude.{◌≡◌, ◌≤◌, ◌*◌, IfSome, IsSome, true, length};
    ghost use Rattle.hm_types.specs.declared.limits.TheConstants.{BIGBLOCK_BYTES};
    ghost use Rattle.hm_btree.specs.Tree.{IsTreeSpace};
    ghost use Rattle.hm_stored.specs.Basis.{nodes};
    ghost use Rattle.hm_stored.specs.Content.{DropsContent, KeepsContent, OpensContent};
    ghost use Rattle.hm_stored.specs.Held.{AreOfVolume, ArePlaced};
    ghost use Rattle.hm_stored.specs.Space.{heap, heap_over};
    ghost use Rattle.hm_stored.specs.Turn.{IsClosed, IsDropped, IsEnded, IsKeptOf, IsOpened};

    /// A space over the pages of a volume, its disk and its books. No call is open, the pages of zone 8
    /// are the tree from the current root on, the others have entries of layer 2 for its big-blocks, those
    /// that changed stand in the pool or in layer 2, and the disk is as long as the volume.
    pub fn over(store: PageStore, disk: D, books: Books) -> Space<D>
        requires layer2 { HasLayer2 books.bigblocks (layer2 (contents store)) }
        requires closed { IsClosed (heap_over D.told store disk books) }
        requires tree { IsTreeSpace (nodes (contents store).current) books.roots.current }
        requires only { AreOfVolume (heap_over D.told store disk books) }
        requires placed { ArePlaced books.bigblocks (contents store) }
        requires size { IfSome (D.told disk) (λ t. books.bigblocks * BIGBLOCK_BYTES ≤ length t.bytes) }
        ensures heap { heap result ≡ heap_over D.told store disk books }
        ensures disk { result.disk ≡ disk }
    {
        Space {
            pages: VolumePages { store },
            disk,
            books,
        }
    }

    /// Opens a call, over the tree that begins at `root` and with the last id that was drawn. No call
    /// may be open. It takes no memory.
    pub fn begin(&mut self, root: HOff, last: Id)
        requires closed { IsClosed (heap self.old) }
        ensures turn { IsOpened root last.0 (heap self.old) (heap self.new) }
        ensures content { OpensContent root last.0 (heap self.old) (heap self.new) }
        ensures disk { self.new.disk ≡ self.old.disk }
    {
        self.pages.store.begin();
        self.books.begun = self.books.append;
        self.books.roots.current = root;
        self.books.last = last;
        self.books.log.clear();
        self.books.gave = false;
    }

    /// Closes the open call, none of whose changes failed half-way, and keeps what it changed. It takes
    /// no memory.
    pub fn keep(&mut self)
        requires opened { IsSome (heap self.old).pages.begin }
        requires whole { self.old.books.whole ≡ true }
        ensures turn { IsKeptOf (heap self.old) (heap self.new) }
        ensures content { KeepsContent (heap self.old) (heap self.new) }
        ensures disk { self.new.disk ≡ self.old.disk }
    {
        self.pages.store.keep();
    }

    /// Closes the open call, and drops what it changed: pages and append big-blocks are as they were
    /// when it was opened. It takes no memory.
    pub fn undo(&mut self)
        requires opened { IsSome (heap self.old).pages.begin }
        ensures turn { IsDropped (heap self.old) (heap self.new) }
        ensures content { DropsContent (heap self.old) (heap self.new) }
        ensures disk { self.new.disk ≡ self.old.disk }
    {
        self.pages.store.undo();
        self.books.append = self.books.begun;
        self.books.whole = true;
    }

    /// Ends a change of the open call. One that failed may be half done, so that each further one is
    /// refused until the changes are dropped.
    pub(crate) fn end_change(&mut self, done: bool)
        ensures ends { IsEnded done (heap self.old) (heap self.new) }
        ensures disk { self.new.disk ≡ self.old.disk }
    {
        let whole = self.books.whole && done;
        self.books.whole = whole;
    }

    /// Whether no change of the open call failed half-way.
    pub fn is_whole(&self) -> bool
        ensures { result ≡ self.now.books.whole }
    {
        self.books.whole
    }

    /// How many pages the group has that is flushed next: those that calls put which were kept since the
    /// last Freeze, and not taken out again.
    pub fn group_len(&self) -> u32
        ensures { result ≡ (heap self.now).pages.group.pages }
    {
        self.pages.store.group_len()
    }

    /// The big-blocks that the zones 8 to 11 append to now.
    pub fn append(&self) -> [u32; 4]
        ensures { result ≡ (heap self.now).append }
    {
        self.books.append
    }

    /// The disk.
    pub fn disk(&self) -> &D
        ensures { result.now ≡ self.now.disk }
    {
        &self.disk
    }

    /// The disk, of a space that is used no more.
    pub fn into_disk(self) -> D
        ensures { result ≡ self.disk }
    {
        let Space { disk, .. } = self;
        disk
    }

    /// Its pages, its disk and its books, of a space that is used no more.
    pub fn into_parts(self) -> (PageStore, D, Books)
        ensures pages { result.0 ≡ self.pages.store }
        ensures disk { result.1 ≡ self.disk }
        ensures books { result.2 ≡ self.books }
    {
        let Space { pages, disk, books } = self;
        let VolumePages { store } = pages;
        (store, disk, books)
    }

    /// What it keeps beside pages and disk.
    pub fn books(&self) -> &Books
        ensures { result.now ≡ self.now.books }
    {
        &self.books
    }
}

// Extents of payloads.
impl<D: Disk> Space<D> {
    ghost use Rattle.std.specs.Prelude.{◌≡◌, ◌≤◌, ◌<◌, IfErr, IfOk, IfSome, IsSomeAnd, OnOk, length, take as first};
    ghost use Rattle.hm_types.specs.Faults.{HasAdmitCause, HasStoreCause};
    ghost use Rattle.hm_types.specs.Space.{IsPayloadZone, in_zone, nothing, rounded};
    ghost use Rattle.hm_types.specs.Faults.{IsCaused};
    ghost use Rattle.hm_types.specs.Layout.{IsPool};
    ghost use Rattle.hm_freemap.specs.Calls.{IsLive};
    ghost use Rattle.hm_freemap.specs.Faults.{IsFreemapDamage};
    ghost use Rattle.hm_key.specs.Extents.{extent_at, given_back_at, shared_at};
    ghost use Rattle.hm_stored.specs.Calls.{AnswersRoom, ChangesExtents, Places, Stays};
    ghost use Rattle.hm_stored.specs.Heap.{extents_in, free_of, maps_of, room_of};
    ghost use Rattle.hm_stored.specs.Space.{heap};
    ghost use Rattle.hm_stored.specs.Turn.{LooksSame};

    /// Puts the bytes, of which there is at least one, into a new extent of a zone, 9, 10 or 11,
    /// which must have room for it. More bytes than a disk takes in one call are refused.
    pub fn place(&mut self, zone: u8, bytes: &[u8]) -> Result<HOff, Fault>
        requires zone { IsPayloadZone zone }
        requires some { 1 ≤ length bytes.now }
        requires room { rounded (length bytes.now) ≤ room_of (heap self.old) zone }
        ensures ok { IfOk result (Places zone bytes.now (heap self.old) (heap self.new)) }
        ensures stays { Stays (in_zone zone (rounded (length bytes.now))) (heap self.old) (heap self.new) }
        ensures cause { HasStoreCause (extents_in (heap self.old))
            (D.faults self.old.disk) (D.faults self.new.disk) result }
        ensures past { D.past self.new.disk ≡ D.past self.old.disk }
    {
        if !self.books.whole || bytes.len() > MOST_CALL_BYTES {
            return Err(Fault::NoMemory);
        }
        put(
            &mut self.pages,
            &mut self.disk,
            &mut self.books,
            zone,
            bytes,
        )
    }

    /// Adds a reference to the live extent at `at`, which is as long as `len` bytes take, and has
    /// fewer than 64.
    pub fn share(&mut self, at: HOff, len: u32) -> Result<(), Fault>
        requires live { IfSome (extents_in (heap self.old)) (λ xs.
            IsSomeAnd (extent_at at xs) (λ x. (x.len ≡ rounded len) × (x.refs < 64))) }
        ensures ok { OnOk result (ChangesExtents (λ xs ys. ys ≡ shared_at at xs) (heap self.old)
            (heap self.new)) }
        ensures stays { Stays nothing (heap self.old) (heap self.new) }
        ensures cause { HasStoreCause (extents_in (heap self.old))
            (D.faults self.old.disk) (D.faults self.new.disk) result }
        ensures past { D.past self.new.disk ≡ D.past self.old.disk }
    {
        if !self.books.whole {
            return Err(Fault::NoMemory);
        }
        share(&mut self.pages, &mut self.books, at, len)
    }

    /// Takes a reference off the live extent at `at`, which is as long as `len` bytes take. With its
    /// last one the extent is gone.
    pub fn give_back(&mut self, at: HOff, len: u32) -> Result<(), Fault>
        requires live { IfSome (extents_in (heap self.old)) (λ xs.
            IsSomeAnd (extent_at at xs) (λ x. x.len ≡ rounded len)) }
        ensures ok { OnOk result (ChangesExtents (λ xs ys. ys ≡ given_back_at at xs) (heap self.old)
            (heap self.new)) }
        ensures stays { Stays nothing (heap self.old) (heap self.new) }
        ensures cause { HasStoreCause (extents_in (heap self.old))
            (D.faults self.old.disk) (D.faults self.new.disk) result }
        ensures past { D.past self.new.disk ≡ D.past self.old.disk }
    {
        if !self.books.whole {
            return Err(Fault::NoMemory);
        }
        give(&mut self.pages, &mut self.books, at, len)
    }

    /// Lets each named zone have room of at least its reserve, while so many big-blocks are held back.
    /// A call asks for it before it gives anything back: a big-block that it freed could else be begun
    /// while the call may still be undone.
    pub fn admit(&mut self, zones: Zones, held: u32) -> Result<(), SpaceFault>
        ensures answers { AnswersRoom zones held (heap self.old) (heap self.new) result }
        ensures cause { HasAdmitCause (extents_in (heap self.old))
            (D.faults self.old.disk) (D.faults self.new.disk) result }
        ensures past { D.past self.new.disk ≡ D.past self.old.disk }
    {
        if self.books.gave || !self.books.whole {
            return Err(SpaceFault::Fault(Fault::NoMemory));
        }
        renew(&mut self.pages, &mut self.books, zones, held)
    }

    /// Reads the first bytes of a live extent, which is at least as long as the buffer. More bytes than
    /// a disk gives in one call are refused.
    pub fn fetch(&mut self, at: HOff, buf: &mut [u8]) -> Result<(), Fault>
        requires live { IfSome (extents_in (heap self.old)) (λ xs.
            IsSomeAnd (extent_at at xs) (λ x. length buf.old ≤ x.len)) }
        ensures ok { IfSome (extents_in (heap self.old)) (λ xs.
            IfSome (extent_at at xs) (λ x. OnOk result (buf.new ≡ first (length buf.old) x.bytes))) }
        ensures same { heap self.new ≡ heap self.old }
        ensures cause { HasStoreCause (extents_in (heap self.old))
            (D.faults self.old.disk) (D.faults self.new.disk) result }
        ensures past { D.past self.new.disk ≡ D.past self.old.disk }
    {
        if buf.len() > MOST_CALL_BYTES {
            return Err(Fault::NoMemory);
        }
        let size = u64::from(self.books.bigblocks) * BIGBLOCK_BYTES;
        if at.byte() + buf.len() as u64 > size {
            return Err(Fault::Damaged {
                at,
                kind: BAD_PAYLOAD,
            });
        }
        read(&mut self.disk, at.byte(), buf)
    }

    /// How many big-blocks are free. It reads each page of layer 2 once a state. Damage is told only of
    /// an entry that is none of its big-block.
    pub fn free_blocks(&mut self) -> Result<u32, Fault>
        ensures ok { IfOk result (λ free. free ≡ free_of (heap self.old)) }
        ensures same { LooksSame (heap self.old) (heap self.new) }
        ensures disk { self.new.disk ≡ self.old.disk }
        ensures cause { IfErr result (IsFreemapDamage self.old.books.bigblocks self.old.books.append
            (IsPool self.old.books.bigblocks) (maps_of (heap self.old))) }
        ensures no_media { IfErr result (IsCaused 0 0) }
    {
        if !self.books.whole {
            return Err(Fault::NoMemory);
        }
        count_free(&mut self.pages, self.books.bigblocks, self.books.append)
    }

    /// How many bytes of a big-block of the pool are live in the current state, each as often as it is
    /// referred to. It reads one page. Damage is told only of an entry that is none of its big-block, and
    /// of each big-block that is not of the pool.
    pub fn live_bytes(&mut self, block: u32) -> Result<i64, Fault>
        ensures ok { IfOk result (IsLive self.old.books.bigblocks self.old.books.append
            (maps_of (heap self.old)) block) }
        ensures same { LooksSame (heap self.old) (heap self.new) }
        ensures disk { self.new.disk ≡ self.old.disk }
        ensures cause { IfErr result (IsFreemapDamage self.old.books.bigblocks self.old.books.append
            (λ one. one ≡ block) (maps_of (heap self.old))) }
        ensures no_media { IfErr result (IsCaused 0 0) }
    {
        if !self.books.whole {
            return Err(Fault::NoMemory);
        }
        count_live(
            &mut self.pages,
            self.books.bigblocks,
            self.books.append,
            block,
        )
    }
}
