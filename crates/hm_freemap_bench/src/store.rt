// A store of pages, as a freemap reads and changes it.
ghost use Rattle.std.specs.Prelude.{◌≡◌};
ghost use Rattle.hm_pages.specs.Store.{Frame, contents, frame_of, layer2};

use hm_fields::{Page, Pages, State, States};
use hm_freemap::FreemapPages;
use hm_pages::PageStore;
use hm_types::{Counted, Fault, HOff};

/// A store of pages with a count of reads. Its pages are not told, so that nothing has to be known of
/// them.
#[derive(Drop)]
pub struct Store {
    pub pages: PageStore,
    reads: u64,
}

impl Store {
    /// The same pages, none of which was read yet.
    pub fn over(pages: PageStore) -> Store
        ensures { result.pages ≡ pages }
    {
        Store { pages, reads: 0 }
    }

    /// How many pages were read.
    pub fn reads(&self) -> u64 {
        self.reads
    }
}

impl Counted for Store {
    ghost faults = { λ _. 0 };

    ghost name = { λ _. 0 };

    ghost Frame = { Frame };

    ghost frame = { λ s. frame_of (contents s.pages) };
}

impl Pages for Store {
    ghost use Rattle.std.specs.Prelude.{None};

    ghost pages = { λ _. None };

    ghost rest = { λ _. tt };

    fn page(&mut self, at: HOff, into: &mut Page) -> Result<(), Fault> {
        self.reads = self.reads.saturating_add(1);
        self.pages.page(at, into)
    }

    fn change(&mut self, at: HOff, with: &Page) -> Result<(), Fault> {
        self.pages.change(at, with)
    }
}

impl States for Store {
    ghost use Rattle.std.specs.Prelude.{None, refl};
    ghost use Rattle.hm_pages.specs.States.{framed};

    ghost committed = { λ _. None };

    ghost frozen = { λ _. None };

    ghost layer2 = { λ s. layer2 (contents s.pages) };

    ghost framed = { λ s t same. (refl, refl, (framed s.pages t.pages same).2) };

    ghost there = { λ s. record { in_committed = tt; in_frozen = tt; in_current = tt; together = (refl, refl) } };

    fn page_in(&mut self, state: State, at: HOff, into: &mut Page) -> Result<(), Fault> {
        self.reads = self.reads.saturating_add(1);
        self.pages.page_in(state, at, into)
    }
}

impl FreemapPages for Store {
    ghost freemap_is_kept = { λ at bytes zone. tt };
}
