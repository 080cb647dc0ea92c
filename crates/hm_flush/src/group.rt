// The frozen group of a store of pages, as a flush goes over it.
ghost use Rattle.std.specs.Prelude.{◌≡◌, ◌≤◌, ◌-◌, length};
ghost use Rattle.hm_types.specs.declared.limits.TheConstants.{MOST_GROUP_PAGES};
ghost use Rattle.hm_pages.specs.Store.{contents};
ghost use Rattle.hm_flush.specs.Group.{group_of, live_before, next_live};

use hm_pages::PageStore;

/// How many of the frozen pages were live as committed.
pub fn count_live(pages: &PageStore) -> u32
    ensures value { result ≡ live_before (group_of (contents pages.now)).was_live
        (length (contents pages.now).frozen_group) }
    ensures few { result ≤ length (contents pages.now).frozen_group }
{
    let mut live = 0;
    for i in 0..pages.frozen_len() {
        if pages.was_live(i) {
            live += 1;
        }
    }
    live
}

/// The first frozen page from `from` on that was live as committed, by its number. The number of all
/// frozen pages, `end`, where there is none.
pub fn next_live(pages: &PageStore, from: u32, end: u32) -> u32
    requires len { end ≡ length (contents pages.now).frozen_group }
    requires from { from ≤ end }
    ensures { result ≡ next_live (group_of (contents pages.now)).was_live from (end - from) }
{
    let mut i = from;
    while i < end && !pages.was_live(i) {
        i += 1;
    }
    i
}
