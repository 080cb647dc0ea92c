// A store of pages, as a freemap reads and changes it.
ghost use Rattle.hm_pages.specs.Store.{Frame, contents, frame_of, layer2};

use hm_fields::{Page, Pages, State, States};
use hm_freemap::FreemapPages;
use hm_pages::PageStore;
use hm_types::{Counted, FREEMAP_ZONE, Fault, HOff};

/// Every page of a volume, those of its freemap among them.
#[derive(Drop)]
pub struct VolumePages {
    pub(crate) store: PageStore,
}

impl Counted for VolumePages {
    ghost faults = { λ _. 0 };

    ghost name = { λ _. 0 };

    ghost Frame = { Frame };

    ghost frame = { λ s. frame_of (contents s.store) };
}

impl Pages for VolumePages {
    ghost use Rattle.std.specs.Prelude.{Some};
    ghost use Rattle.hm_stored.specs.Nodes.{Spots, spots};

    ghost pages = { λ s. Some (contents s.store).current };

    ghost Rest = { Spots };

    ghost rest = { λ s. spots (contents s.store) };

    fn page(&mut self, at: HOff, into: &mut Page) -> Result<(), Fault> {
        self.store.page(at, into)
    }

    /// Puts a page of the freemap in place of the one that stands at `at`. Where none stands, and in
    /// another zone, it answers `NoMemory`.
    fn change(&mut self, at: HOff, with: &Page) -> Result<(), Fault> {
        if at.zone() != FREEMAP_ZONE || self.store.look(at).is_none() {
            return Err(Fault::NoMemory);
        }
        self.store.change(at, with)
    }
}

impl States for VolumePages {
    ghost use Rattle.std.specs.Prelude.{Some};
    ghost use Rattle.hm_pages.specs.States.{framed, there};

    ghost committed = { λ s. Some (contents s.store).committed };

    ghost frozen = { λ s. Some (contents s.store).frozen };

    ghost layer2 = { λ s. layer2 (contents s.store) };

    ghost framed = { λ s t same. framed s.store t.store same };

    ghost there = { λ s. there s.store };

    fn page_in(&mut self, state: State, at: HOff, into: &mut Page) -> Result<(), Fault> {
        self.store.page_in(state, at, into)
    }
}

impl FreemapPages for VolumePages {
    ghost freemap_is_kept = { λ at bytes zone. tt };
}
