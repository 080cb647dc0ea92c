// The store of a volume in use.
ghost use Rattle.std.specs.Prelude.{◌≡◌, ℕ, List, None, Some};
ghost use Rattle.std.proofs.Props.{props};
ghost use Rattle.hm_btree.specs.Tree.{HoldsTree};
ghost use Rattle.hm_fields.specs.Fields.{AreBytes};
ghost use Rattle.hm_header.specs.Range.{IsRoot};
ghost use Rattle.hm_pages.specs.Sound.{IsSound};
ghost use Rattle.hm_stored.specs.Heap.{pages_of};
ghost use Rattle.hm_stored.specs.Held.{AreOfVolume, ArePlaced, IsRooted};
ghost use Rattle.hm_stored.specs.Space.{heap};
ghost use Rattle.hm_stored.specs.Turn.{IsClosed};

use crate::places::is_tree_place;
use crate::space::Space;
use hm_disk::Disk;
use hm_key::{HasElements, HasRoom};
use hm_pages::{pages_are_bytes, store_is_sound};
use hm_types::{Counted, Fault, HOff, Id};

/// A volume in use, as the calls on names read and change it: its elements, which the tree over its
/// space has, and the extents of their payloads.
///
/// It tells both while a call is open and none of its changes failed. Once one failed, each further
/// call is refused until the changes are dropped. Without an open call no element is read or changed:
/// each call on one answers `NoMemory`.
#[derive(Drop)]
pub struct Stored<D: Disk> {
    pub(crate) space: Space<D>,
    pub(crate) root: HOff,
    // Whether a call is open.
    pub(crate) is_open: bool,
    // The leaf at which a walk looks first. Nothing rests on it.
    pub(crate) near: HOff,
    ghost tree: { HoldsTree (pages_of (heap space)) root },
    ghost rooted: { IsRooted is_open (heap space) root } by { Prim.hlevel props },
}

impl<D: Disk> Counted for Stored<D> {
    ghost use Rattle.hm_stored.specs.Heap.{Frame, frame_of};

    ghost faults = { λ s. D.faults s.space.disk };

    ghost name = { λ _. 0 };

    ghost Frame = { Frame × D.Past };

    ghost frame = { λ s. (frame_of (heap s.space), D.past s.space.disk) };
}

impl<D: Disk> HasRoom for Stored<D> {
    ghost use Rattle.hm_stored.specs.Heap.{extents_in, free_of, room_of};

    ghost room = { λ s. room_of (heap s.space) };

    ghost free = { λ s. free_of (heap s.space) };

    ghost extents = { λ s. extents_in (heap s.space) };
}

impl<D: Disk> HasElements for Stored<D> {
    ghost use Rattle.hm_stored.specs.Told.{elements_told, mark_told};

    ghost elements = { λ s. elements_told (heap s.space) s.root };

    ghost mark = { λ s. mark_told (heap s.space) s.root };
}

impl<D: Disk> Stored<D> {
    /// The store over a space in which no call is open. Its tree is the one from `root` on, which stands
    /// in the pool.
    pub fn over(space: Space<D>, root: HOff) -> Stored<D>
        requires closed { IsClosed (heap space) }
        requires root { IsRoot (heap space).bigblocks root }
        ensures space { result.space ≡ space }
        ensures root { result.root ≡ root }
    {
        Stored {
            space,
            root,
            is_open: false,
            near: HOff::default(),
        }
    }

    /// The space.
    pub fn space(&self) -> &Space<D>
        ensures { result.now ≡ self.now.space }
    {
        &self.space
    }

    /// Where the root of the tree stands.
    pub fn root(&self) -> HOff
        ensures { result ≡ self.now.root }
    {
        self.root
    }

    /// Does nothing, and says what the type of a page tells: each byte of each page is one.
    pub fn pages_are_bytes(&self)
        ensures { (at : ℕ) (page : List ℕ) → (heap self.now.space).pages.current at ≡ Some page →
            AreBytes page }
    {
        pages_are_bytes(&self.space.pages.store);
    }

    /// Does nothing, and says what always holds of the pages in their three states: where these differ, and
    /// that each page which a flush has to place is a frozen one.
    pub fn pages_are_sound(&self)
        ensures { IsSound (heap self.now.space).pages }
    {
        store_is_sound(&self.space.pages.store);
    }

    /// Does nothing, and says that each page is a node, or has entries of layer 2 for big-blocks of the
    /// volume.
    pub fn pages_are_of_volume(&self)
        ensures { AreOfVolume (heap self.now.space) }
    {}

    /// Does nothing, and says where what a flush writes stands: each page that changed or is frozen in
    /// the pool or in layer 2, and without an open call the root of the tree in the pool.
    pub fn changes_are_placed(&self)
        ensures pages { ArePlaced (heap self.now.space).bigblocks (heap self.now.space).pages }
        ensures root { (heap self.now.space).pages.begin ≡ None →
            IsRoot (heap self.now.space).bigblocks self.now.root }
    {}

    /// The space and the root.
    pub fn into_parts(self) -> (Space<D>, HOff)
        ensures space { result.0 ≡ self.space }
        ensures root { result.1 ≡ self.root }
    {
        let Stored { space, root, .. } = self;
        (space, root)
    }
}

// How a call is opened and closed.
impl<D: Disk> Stored<D> {
    ghost use Rattle.std.specs.Prelude.{◌≡◌, ◌↔◌, IfSome, IsSome, IsTrue, List};
    ghost use Rattle.hm_types.specs.Elements.{FullElement};
    ghost use Rattle.hm_stored.specs.Content.{KeepsContent};
    ghost use Rattle.hm_stored.specs.Heap.{begun_content};
    ghost use Rattle.hm_stored.specs.Known.{AreKnown};
    ghost use Rattle.hm_stored.specs.Space.{heap};
    ghost use Rattle.hm_stored.specs.Standing.{Holds};
    ghost use Rattle.hm_stored.specs.Told.{Tells};
    ghost use Rattle.hm_stored.specs.Turn.{IsClosed, IsDropped, IsKeepable, IsKeptOf, IsOpened};

    /// Opens a call, with the last id that was drawn. No call may be open. Where the volume is in order
    /// and its ids are known, the store tells just the elements that it holds. It takes no memory.
    pub fn begin(&mut self, last: Id)
        requires closed { IsClosed (heap self.old.space) }
        ensures turn { IsOpened self.old.root last.0 (heap self.old.space) (heap self.new.space) }
        ensures root { self.new.root ≡ self.old.root }
        ensures disk { self.new.space.disk ≡ self.old.space.disk }
        ensures told { (es : List FullElement) → Holds (heap self.old.space) self.old.root es
            → AreKnown last.0 es → Tells (heap self.new.space) self.new.root es }
    {
        self.space.begin(self.root, last);
        self.is_open = true;
    }

    /// Closes the open call, and keeps what it changed: `can_keep` says whether it may. It takes no
    /// memory.
    pub fn keep(&mut self)
        requires opened { IsSome (heap self.old.space).pages.begin }
        requires keepable { IsKeepable (heap self.old.space) self.old.root }
        ensures turn { IsKeptOf (heap self.old.space) (heap self.new.space) }
        ensures root { self.new.root ≡ self.old.root }
        ensures disk { self.new.space.disk ≡ self.old.space.disk }
        ensures content { KeepsContent (heap self.old.space) (heap self.new.space) }
    {
        self.space.keep();
        self.is_open = false;
    }

    /// Closes the open call, and drops what it changed: the volume holds what it held when the call was
    /// opened. It takes no memory.
    pub fn undo(&mut self)
        requires opened { IsSome (heap self.old.space).pages.begin }
        ensures turn { IsDropped (heap self.old.space) (heap self.new.space) }
        ensures root { self.new.root ≡ self.old.space.books.roots.current }
        ensures disk { self.new.space.disk ≡ self.old.space.disk }
        ensures held { IfSome (begun_content (heap self.old.space)) (Holds (heap self.new.space)
            self.new.root) }
    {
        self.space.undo();
        self.root = self.space.books.roots.current;
        self.is_open = false;
    }

    /// Whether the open call may be kept: none of its changes failed, and the root of its tree stands in
    /// the pool.
    pub fn can_keep(&self) -> bool
        ensures { IsTrue result ↔ IsKeepable (heap self.now.space) self.now.root }
    {
        self.space.is_whole() && is_tree_place(self.space.books.bigblocks, self.root)
    }
}

// What it tells of its space.
impl<D: Disk> Stored<D> {
    ghost use Rattle.std.specs.Prelude.{◌≡◌, IfErr, IfOk};
    ghost use Rattle.hm_types.specs.Faults.{IsCaused};
    ghost use Rattle.hm_types.specs.Layout.{IsPool};
    ghost use Rattle.hm_freemap.specs.Faults.{IsFreemapDamage};
    ghost use Rattle.hm_stored.specs.Heap.{free_of, maps_of};
    ghost use Rattle.hm_stored.specs.Space.{heap};
    ghost use Rattle.hm_stored.specs.Turn.{LooksSame};

    /// How many big-blocks are free: `free_blocks` of the space.
    pub fn free_blocks(&mut self) -> Result<u32, Fault>
        ensures ok { IfOk result (λ free. free ≡ free_of (heap self.old.space)) }
        ensures same { LooksSame (heap self.old.space) (heap self.new.space) }
        ensures rest { (self.new.root ≡ self.old.root) × (self.new.space.disk ≡ self.old.space.disk) }
        ensures cause { IfErr result (IsFreemapDamage self.old.space.books.bigblocks self.old.space.books.append
            (IsPool self.old.space.books.bigblocks) (maps_of (heap self.old.space))) }
        ensures no_media { IfErr result (IsCaused 0 0) }
    {
        self.space.free_blocks()
    }
}
