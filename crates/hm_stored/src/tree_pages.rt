// The nodes of a space, as a tree reads and changes them.
ghost use Rattle.std.specs.Prelude.{◌<◌, ◌^◌};
ghost use Rattle.hm_stored.specs.Space.{heap};

use crate::places::is_tree_place;
use crate::space::Space;
use hm_disk::Disk;
use hm_fields::{Page, Pages};
use hm_key::HasRoom;
use hm_node::NodePages;
use hm_types::{BAD_LEVEL, Counted, Fault, HOff};

impl<D: Disk> Counted for Space<D> {
    ghost use Rattle.hm_stored.specs.Heap.{Frame, frame_of};

    ghost faults = { λ s. D.faults s.disk };

    ghost name = { λ _. 0 };

    ghost Frame = { Frame × D.Past };

    ghost frame = { λ s. (frame_of (heap s), D.past s.disk) };
}

impl<D: Disk> Pages for Space<D> {
    ghost use Rattle.hm_stored.specs.Heap.{Rest, pages_of, rest_of};
    ghost use Rattle.hm_stored.specs.Nodes.{KeepsNodes};

    ghost pages = { λ s. pages_of (heap s) };

    ghost kept = { KeepsNodes };

    ghost Rest = { Rest };

    ghost rest = { λ s. rest_of (heap s) };

    /// Reads the node at `at`. Where none stands, it tells damage.
    #[inline]
    fn page(&mut self, at: HOff, into: &mut Page) -> Result<(), Fault> {
        if !self.books.whole {
            return Err(Fault::NoMemory);
        }
        match self.pages.store.look(at) {
            Some(page) => {
                *into = *page;
                Ok(())
            }
            None => Err(Fault::Damaged {
                at,
                kind: BAD_LEVEL,
            }),
        }
    }

    /// Puts a node in place of the one that stands at `at`. Where none stands, and where no page of the
    /// tree may stand, it answers `NoMemory`.
    fn change(&mut self, at: HOff, with: &Page) -> Result<(), Fault> {
        known_offset(at);
        if !is_tree_place(self.books.bigblocks, at) || self.pages.store.look(at).is_none() {
            return Err(Fault::NoMemory);
        }
        match self.pages.store.change(at, with) {
            Ok(()) => Ok(()),
            Err(_) => Err(Fault::NoMemory),
        }
    }
}

impl<D: Disk> NodePages for Space<D> {
    ghost kept_is_node = { λ at bytes spot kept. kept.node spot };

    ghost node_is_kept = { λ at bytes spot holds. record { node = λ _. holds } };

    /// The node at `at`. None once a call has failed half-way, and where none stands.
    fn look(&self, at: HOff) -> Option<&Page> {
        if !self.books.whole {
            return None;
        }
        self.pages.store.look(at)
    }
}

impl<D: Disk> HasRoom for Space<D> {
    ghost use Rattle.hm_stored.specs.Heap.{extents_in, free_of, room_of};

    ghost room = { λ s. room_of (heap s) };

    ghost free = { λ s. free_of (heap s) };

    ghost extents = { λ s. extents_in (heap s) };
}

// Does nothing, and says what the type of an offset tells of it.
#[inline]
fn known_offset(at: HOff)
    ensures { at < 2 ^ 64 }
{}
