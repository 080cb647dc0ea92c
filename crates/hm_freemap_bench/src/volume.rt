// The freemap of the largest volume.
ghost use Rattle.std.specs.Prelude.{◌≡◌, ◌<◌, ℕ, None, OnOk, IsTrue, is_some};
ghost use Rattle.hm_types.specs.declared.limits.TheConstants.{MOST_BIGBLOCKS};
ghost use Rattle.hm_freemap.specs.Places.{HasLayer2, page_of};
ghost use Rattle.hm_pages.specs.Store.{contents, layer2};

use crate::store::Store;
use hm_fields::{Page, Pages};
use hm_freemap::{Freemap, fresh_page, page_of};
use hm_pages::PageStore;
use hm_types::{Fault, Id, MOST_BIGBLOCKS};
use std::alloc::Global;

// How many bytes the zones 8 to 11 have taken: the first of their big-blocks is full.
const TAKEN: [u32; 4] = [8_388_608, 0, 0, 0];

// The big-blocks that they append to, which are the first four of the pool.
const APPEND: [u32; 4] = [12, 13, 14, 15];

// How many pages of layer 2 the volume has, each with the entries of 256 big-blocks.
const PAGES: u32 = 4_096;

/// The freemap of a volume of 1,048,576 big-blocks, of which the first of the pool is full and the
/// three after it were begun.
pub fn make(alloc: Global) -> Result<Freemap<Store>, Fault> {
    let mut pages = PageStore::new(alloc);
    fill(&mut pages)?;
    commit(&mut pages)?;
    Ok(Freemap::over(Store::over(pages), MOST_BIGBLOCKS, APPEND))
}

// Puts the pages of layer 2.
fn fill(pages: &mut PageStore) -> Result<(), Fault>
    requires closed { (contents pages.old).begin ≡ None }
    requires idle { (contents pages.old).boundary ≡ None }
    ensures closed { OnOk result ((contents pages.new).begin ≡ None) }
    ensures idle { OnOk result ((contents pages.new).boundary ≡ None) }
    ensures there { OnOk result ((block : ℕ) → block < MOST_BIGBLOCKS →
        IsTrue (is_some ((contents pages.new).current (page_of block)))) }
{
    let mut page = Page::zero();
    for number in 0..PAGES {
        fresh_page(MOST_BIGBLOCKS, &TAKEN, number * 256, &mut page);
        pages.change(page_of(u64::from(number) * 256), &page)?;
    }
    Ok(())
}

// Makes what was put the committed and the frozen pages.
fn commit(pages: &mut PageStore) -> Result<(), Fault>
    requires closed { (contents pages.old).begin ≡ None }
    requires idle { (contents pages.old).boundary ≡ None }
    requires there { (block : ℕ) → block < MOST_BIGBLOCKS →
        IsTrue (is_some ((contents pages.old).current (page_of block))) }
    ensures there { OnOk result (HasLayer2 MOST_BIGBLOCKS (layer2 (contents pages.new))) }
{
    pages.freeze(Id(1))?;
    pages.commit();
    Ok(())
}
