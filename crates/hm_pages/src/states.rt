// The store as the layers above read and change it.
ghost use Rattle.std.specs.Prelude.{◌≡◌, Some, IsOk, OnOk, OnErr, IfErr};
ghost use Rattle.hm_types.specs.declared.fault.Fault.TheVariants.{NoMemory};
ghost use Rattle.std.specs.Option.{option_copied};
ghost use Rattle.hm_fields.specs.Pages.{page_in};
ghost use Rattle.hm_pages.specs.Calls.{IsChanged};
ghost use Rattle.hm_pages.specs.Store.{Frame, contents, frame_of, in_state, layer2};
ghost use Rattle.hm_pages.specs.States.{framed, there};

use crate::store::PageStore;
use hm_fields::{Page, Pages, State, States};
use hm_types::{Counted, Fault, HOff};

impl Counted for PageStore {
    ghost faults = { λ _. 0 };

    ghost name = { λ _. 0 };

    ghost Frame = { Frame };

    ghost frame = { λ s. frame_of (contents s) };
}

impl Pages for PageStore {
    ghost pages = { λ s. Some (contents s).current };

    ghost rest = { λ _. tt };

    /// Reads the page at `at` as calls see it. One that is not there reads as zeros. It never
    /// fails.
    fn page(&mut self, at: HOff, into: &mut Page) -> Result<(), Fault>
        ensures succeeds { IsOk result }
        ensures value { into.new ≡ page_in ((contents self.old).current at) }
        ensures unchanged { contents self.new ≡ contents self.old }
    {
        read(self.look(at), into);
        Ok(())
    }

    /// Puts a page at `at`, in the open call, or straight in the group where none is open. It
    /// answers `NoMemory` where the group and the open call would have more than 16,128 pages
    /// together. After an error the store is as before.
    fn change(&mut self, at: HOff, with: &Page) -> Result<(), Fault>
        ensures changed { OnOk result (IsChanged at (Some with.now)
            (contents self.old) (contents self.new)) }
        ensures unchanged { OnErr result (contents self.new ≡ contents self.old) }
        ensures memory { IfErr result (λ fault. fault ≡ NoMemory) }
    {
        self.put_page(at, with)?;
        Ok(())
    }
}

impl States for PageStore {
    ghost committed = { λ s. Some (contents s).committed };

    ghost frozen = { λ s. Some (contents s).frozen };

    ghost layer2 = { λ s. layer2 (contents s) };

    ghost framed = { framed };

    ghost there = { there };

    /// Reads a page as it stands in one of the states. One that is not there reads as zeros. It
    /// never fails.
    fn page_in(&mut self, state: State, at: HOff, into: &mut Page) -> Result<(), Fault>
        ensures succeeds { IsOk result }
        ensures value { into.new ≡ page_in (in_state (contents self.old) state at) }
        ensures unchanged { contents self.new ≡ contents self.old }
    {
        read(self.page_at(state, at), into);
        Ok(())
    }
}

// Copies a page, and zeros where there is none.
fn read(page: Option<&Page>, into: &mut Page)
    ensures { into.new ≡ page_in (option_copied page.entry) }
{
    match page {
        Some(page) => *into = *page,
        None => into.clear(),
    }
}
