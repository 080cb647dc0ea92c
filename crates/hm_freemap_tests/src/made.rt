// A volume of any size for tests, as it was just made: each page is made as it is read.
ghost use Rattle.std.specs.Prelude.{◌≤◌};
ghost use Rattle.hm_types.specs.declared.limits.TheConstants.{BIGBLOCK_BYTES, LEAST_BIGBLOCKS, MOST_BIGBLOCKS};

use hm_fields::{Page, Pages, State, States};
use hm_freemap::{FreemapPages, fresh_page};
use hm_types::{BIGBLOCK_BYTES, Counted, Fault, HOff, PAGE_BYTES};

/// The pages of layer 2 of a volume of so many big-blocks, of which nothing is told, with a count of
/// reads and one of changes. What is put into them is forgotten.
#[derive(Drop)]
pub(crate) struct Made {
    pub(crate) bigblocks: u32,
    // How many bytes zone 8 has taken.
    pub(crate) taken: u32,
    pub(crate) reads: u64,
    pub(crate) changes: u64,
    // Where the page stands that was read or changed last, in bytes from the start of the volume.
    pub(crate) last: u64,
    ghost least: { LEAST_BIGBLOCKS ≤ bigblocks },
    ghost most: { bigblocks ≤ MOST_BIGBLOCKS },
    ghost few: { taken ≤ BIGBLOCK_BYTES },
}

impl Counted for Made {
    ghost faults = { λ _. 0 };

    ghost name = { λ _. 0 };

    ghost frame = { λ _. tt };
}

impl Pages for Made {
    ghost use Rattle.std.specs.Prelude.{None};

    ghost pages = { λ _. None };

    ghost rest = { λ _. tt };

    fn page(&mut self, at: HOff, into: &mut Page) -> Result<(), Fault> {
        self.reads = self.reads.saturating_add(1);
        self.last = at.byte();
        let number = at.byte().saturating_sub(2 * BIGBLOCK_BYTES) / PAGE_BYTES as u64;
        fresh_page(
            self.bigblocks,
            &[self.taken, 80, 0, 0],
            (number % 8_192) as u32 * 256,
            into,
        );
        Ok(())
    }

    fn change(&mut self, at: HOff, _with: &Page) -> Result<(), Fault> {
        self.changes = self.changes.saturating_add(1);
        self.last = at.byte();
        Ok(())
    }
}

impl States for Made {
    ghost use Rattle.std.specs.Prelude.{None, true, refl};

    ghost committed = { λ _. None };

    ghost frozen = { λ _. None };

    ghost layer2 = { λ _ _. true };

    ghost framed = { λ s t same. (refl, refl, refl) };

    ghost there = { λ s. record { in_committed = tt; in_frozen = tt; in_current = tt; together = (refl, refl) } };

    fn page_in(&mut self, _state: State, at: HOff, into: &mut Page) -> Result<(), Fault> {
        self.page(at, into)
    }
}

impl FreemapPages for Made {
    ghost freemap_is_kept = { λ at bytes zone. tt };
}
