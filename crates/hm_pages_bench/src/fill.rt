// The calls that fill a store.
ghost use Rattle.std.specs.Prelude.{◌≡◌, None, OnOk};
ghost use Rattle.hm_pages.specs.Store.{contents};

use hm_fields::{Page, Pages, put_u64};
use hm_pages::PageStore;
use hm_types::{Fault, HOff, Id, TREE_ZONE};
use std::alloc::Global;

// How many pages one call puts, and how many are frozen together.
const CALL_PAGES: u32 = 1_000;

const GROUP_PAGES: u32 = 10_000;

/// Puts so many new pages into a store, and commits all of them.
pub fn fill(alloc: Global, pages: u32) -> Result<(), Fault> {
    let mut store = PageStore::new(alloc);
    for group in 0..pages / GROUP_PAGES {
        for call in 0..GROUP_PAGES / CALL_PAGES {
            one_call(&mut store, group * GROUP_PAGES + call * CALL_PAGES)?;
        }
        commit(&mut store, group)?;
    }
    Ok(())
}

// One call: its pages begin with this number.
fn one_call(store: &mut PageStore, first: u32) -> Result<(), Fault>
    requires closed { (contents store.old).begin ≡ None }
    requires idle { (contents store.old).boundary ≡ None }
    ensures closed { OnOk result ((contents store.new).begin ≡ None) }
    ensures idle { OnOk result ((contents store.new).boundary ≡ None) }
{
    store.begin();
    let mut page = Page::zero();
    for i in 0..CALL_PAGES {
        let number = u64::from(first) + u64::from(i);
        put_u64(&mut page, 0, number);
        if let Some(at) = HOff::make(TREE_ZONE, number * 4_096) {
            store.change(at, &page)?;
        }
    }
    store.keep();
    Ok(())
}

// What a flush does to the store.
fn commit(store: &mut PageStore, group: u32) -> Result<(), Fault>
    requires closed { (contents store.old).begin ≡ None }
    requires idle { (contents store.old).boundary ≡ None }
    ensures closed { OnOk result ((contents store.new).begin ≡ None) }
    ensures idle { OnOk result ((contents store.new).boundary ≡ None) }
{
    store.freeze(Id(u64::from(group)))?;
    store.commit();
    Ok(())
}
