// Pages in memory.
ghost use Rattle.hm_fields.specs.MemPages.{kept};

use crate::page::Page;
use crate::pages::Pages;
use hm_types::{Counted, Fault, HOff};
use std::alloc::Global;
use std::collections::BTreeMap;

/// Pages in memory, which are told. It is there for tests, and for tools that have no disk. A page
/// that is not there reads as zeros.
#[derive(Drop)]
pub struct MemPages {
    alloc: Global,
    pages: BTreeMap<HOff, Box<Page>>,
}

impl MemPages {
    ghost use Rattle.std.specs.Prelude.{◌≡◌, None, ℕ};

    /// No page. It takes no memory.
    pub fn new(alloc: Global) -> MemPages
        ensures { (at : ℕ) → kept result at ≡ None }
    {
        MemPages {
            alloc,
            pages: BTreeMap::new(alloc),
        }
    }
}

impl Counted for MemPages {
    ghost faults = { λ _. 0 };

    ghost name = { λ _. 0 };

    ghost frame = { λ _. tt };
}

impl Pages for MemPages {
    ghost use Rattle.std.specs.Prelude.{Some};

    ghost pages = { λ m. Some (kept m) };

    ghost rest = { λ _. tt };

    fn page(&mut self, at: HOff, into: &mut Page) -> Result<(), Fault> {
        match self.pages.get(&at) {
            Some(page) => *into = **page,
            None => *into = Page::zero(),
        }
        Ok(())
    }

    fn change(&mut self, at: HOff, with: &Page) -> Result<(), Fault> {
        let page = Box::new(self.alloc, *with)?;
        self.pages.insert(at, page)?;
        Ok(())
    }
}

#[cfg(test)]
mod tests {
    use super::*;
    use crate::{get_u64, put_u64};
    use std::process::Abort;
    use std::test::Fail;

    // A page of this zone.
    fn offset(rt: &impl Abort, byte: u64) -> HOff {
        HOff::make(8, byte).expect(rt, "an offset")
    }

    #[test]
    fn a_page_is_read_as_it_was_put_and_others_as_zeros(rt: HostRuntime) -> Result<(), Fail> {
        let mut pages = MemPages::new(rt.alloc());
        let mut page = Page::zero();
        for number in 1u64..=3 {
            put_u64(&mut page, 8, number);
            pages.change(offset(&rt, number * 4096), &page)?;
        }
        put_u64(&mut page, 8, 7);
        pages.change(offset(&rt, 2 * 4096), &page)?;
        for (number, want) in [(0u64, 0), (1, 1), (2, 7), (3, 3), (4, 0)] {
            pages.page(offset(&rt, number * 4096), &mut page)?;
            assert_eq!(rt; get_u64(&page, 8), want, "{number}");
        }
        Ok(())
    }
}
