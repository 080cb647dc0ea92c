// A small volume for tests: one page of layer 2, as committed, as frozen and as it is now.
use hm_fields::{Page, Pages, State, States};
use hm_freemap::{FreemapPages, page_of};
use hm_types::{Counted, Fault, HOff};

/// A page of layer 2 in the three states, of which nothing is told, with a count of reads and one of
/// changes. Every page of layer 2 reads as this one, and the first alone can be changed.
#[derive(Drop)]
pub(crate) struct OnePage {
    pub(crate) committed: Page,
    pub(crate) frozen: Page,
    pub(crate) current: Page,
    pub(crate) reads: u64,
    pub(crate) changes: u64,
}

impl Counted for OnePage {
    ghost faults = { λ _. 0 };

    ghost name = { λ _. 0 };

    ghost frame = { λ _. tt };
}

impl Pages for OnePage {
    ghost use Rattle.std.specs.Prelude.{None};

    ghost pages = { λ _. None };

    ghost rest = { λ _. tt };

    fn page(&mut self, at: HOff, into: &mut Page) -> Result<(), Fault> {
        self.page_in(State::Current, at, into)
    }

    fn change(&mut self, at: HOff, with: &Page) -> Result<(), Fault> {
        if at != page_of(0) {
            return Err(Fault::NoMemory);
        }
        self.changes = self.changes.saturating_add(1);
        self.current = *with;
        Ok(())
    }
}

impl States for OnePage {
    ghost use Rattle.std.specs.Prelude.{None, true, refl};

    ghost committed = { λ _. None };

    ghost frozen = { λ _. None };

    ghost layer2 = { λ _ _. true };

    ghost framed = { λ s t same. (refl, refl, refl) };

    ghost there = { λ s. record { in_committed = tt; in_frozen = tt; in_current = tt; together = (refl, refl) } };

    fn page_in(&mut self, state: State, _at: HOff, into: &mut Page) -> Result<(), Fault> {
        self.reads = self.reads.saturating_add(1);
        match state {
            State::Committed => *into = self.committed,
            State::Frozen => *into = self.frozen,
            State::Current => *into = self.current,
        }
        Ok(())
    }
}

impl FreemapPages for OnePage {
    ghost freemap_is_kept = { λ at bytes zone. tt };
}
