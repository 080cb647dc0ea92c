// Pages that were changed since an older state.
ghost use Rattle.std.specs.Prelude.{◌≡◌, option_map, unwrap_or};
ghost use Rattle.hm_pages.specs.Counts.{page_count, pages_in};

use crate::held::HeldPage;
use hm_fields::Page;
use hm_types::{HOff, NoMemory};
use std::alloc::Global;
use std::collections::HashMap;

/// The pages that were put and those that were taken out since an older state, by their offsets.
#[derive(Drop)]
pub(crate) struct Changes {
    alloc: Global,
    places: HashMap<HOff, Option<Box<HeldPage>>>,
    // How many of them were put.
    pages: usize,
    ghost counted: { pages ≡ pages_in places.entries },
}

impl Changes {
    ghost use Rattle.std.specs.Prelude.{◌+◌, ◌<◌, ◌≤◌, ◌^◌, ℕ, length, nat_eq};
    ghost use Rattle.std.specs.Prelude.{Some, None, OnOk, OnErr, IsOk, IfOk};
    ghost use Rattle.std.specs.List.Sorted.{IsStrictlyIncreasing};
    ghost use Rattle.std.specs.Set.{is_member};
    ghost use Rattle.std.specs.HashMap.{spare, hash_map_len};
    ghost use Rattle.hm_pages.specs.Maps.{no_changes, set_at, joined, is_page, pages_at};
    ghost use Rattle.hm_pages.specs.Changes.{change_at};
    ghost use Rattle.hm_pages.specs.Counts.{bytes_of};

    /// Nothing was changed. It takes no memory.
    pub(crate) fn new(alloc: Global) -> Changes
        ensures none { change_at result ≡ no_changes }
        ensures pages { result.pages ≡ 0 }
        ensures len { hash_map_len result.places ≡ 0 }
    {
        Changes {
            alloc,
            places: HashMap::new(alloc),
            pages: 0,
        }
    }

    /// How many offsets were changed.
    pub(crate) fn len(&self) -> usize
        ensures len { result ≡ hash_map_len self.now.places }
        ensures small { result < 2 ^ 63 }
    {
        self.places.len()
    }

    /// How many of the changes put a page.
    pub(crate) fn pages(&self) -> usize
        ensures { result ≡ self.now.pages }
    {
        self.pages
    }

    /// The page that was put at an offset, and a None inside where one was taken out there.
    pub(crate) fn get(&self, at: HOff) -> Option<Option<&Page>>
        ensures { option_map (option_map (λ p. p.now)) result ≡ change_at self.now at }
    {
        match self.places.get(&at) {
            Some(Some(page)) => Some(Some(&page.page)),
            Some(None) => Some(None),
            None => None,
        }
    }

    /// Whether a page was put at an offset.
    pub(crate) fn has_page(&self, at: HOff) -> bool
        ensures { result ≡ is_page (change_at self.now at) }
    {
        matches!(self.get(at), Some(Some(_)))
    }

    /// Makes room for the changes of so many offsets more.
    pub(crate) fn reserve(&mut self, additional: usize) -> Result<(), NoMemory>
        ensures same { change_at self.new ≡ change_at self.old }
        ensures pages { self.new.pages ≡ self.old.pages }
        ensures ok { OnOk result (additional ≤ spare self.new.places) }
        ensures len { hash_map_len self.new.places ≡ hash_map_len self.old.places }
        ensures spare { spare self.old.places ≤ spare self.new.places }
    {
        self.places.reserve(additional)?;
        Ok(())
    }

    /// Puts a page at an offset, or takes out the one that stands there. With room to spare it
    /// takes no memory.
    pub(crate) fn put(&mut self, at: HOff, page: Option<Box<HeldPage>>) -> Result<(), NoMemory>
        ensures ok { OnOk result (change_at self.new ≡
            set_at at (Some (option_map bytes_of page)) (change_at self.old)) }
        ensures pages { OnOk result (self.new.pages + pages_at (change_at self.old at) ≡
            self.old.pages + pages_at (Some (option_map bytes_of page))) }
        ensures err { OnErr result (change_at self.new ≡ change_at self.old) }
        ensures pages_at_err { OnErr result (self.new.pages ≡ self.old.pages) }
        ensures len { hash_map_len self.new.places ≤ hash_map_len self.old.places + 1 }
        ensures spare { spare self.old.places ≤ spare self.new.places + 1 }
        ensures succeeds { 0 < spare self.old.places → IsOk result }
    {
        prove!(self.pages <= self.places.len());
        let puts = count(&page);
        let before = self.places.insert(at, page)?;
        self.pages = self.pages + puts - count_before(&before);
        Ok(())
    }

    /// Forgets what was changed at an offset.
    pub(crate) fn forget(&mut self, at: HOff)
        ensures value { change_at self.new ≡ set_at at None (change_at self.old) }
        ensures pages { self.new.pages + pages_at (change_at self.old at) ≡ self.old.pages }
        ensures len { hash_map_len self.new.places ≤ hash_map_len self.old.places }
        ensures spare { spare self.old.places ≤ spare self.new.places }
    {
        let before = self.places.remove(&at);
        self.pages -= count_before(&before);
    }

    /// Forgets all that was changed, and keeps the room.
    pub(crate) fn clear(&mut self)
        ensures none { change_at self.new ≡ no_changes }
        ensures pages { self.new.pages ≡ 0 }
        ensures len { hash_map_len self.new.places ≡ 0 }
    {
        self.places.clear();
        self.pages = 0;
    }

    /// Makes later changes over these. There must be room for them: it takes no memory.
    pub(crate) fn absorb(&mut self, later: Changes)
        requires room { hash_map_len later.places ≤ spare self.old.places }
        ensures value { change_at self.new ≡ joined (change_at later) (change_at self.old) }
        ensures pages { self.new.pages ≤ self.old.pages + later.pages }
    {
        for (at, page) in later.into_places() {
            let _ = self.put(at, page);
        }
    }

    /// The changes by their offsets: a page, or None where one was taken out.
    pub(crate) fn into_places(self) -> HashMap<HOff, Option<Box<HeldPage>>>
        ensures { result ≡ self.places }
    {
        let Changes {
            alloc: _,
            places,
            pages: _,
        } = self;
        places
    }

    /// The offsets at which a page was put, rising.
    pub(crate) fn page_places(&self) -> Result<Vec<HOff>, NoMemory>
        ensures rising { IfOk result (λ list. IsStrictlyIncreasing list.items) }
        ensures each { IfOk result (λ list. (at : ℕ) →
            is_member nat_eq list.items at ≡ is_page (change_at self.now at)) }
        ensures len { IfOk result (λ list. length list.items ≡ self.now.pages) }
    {
        let mut list = Vec::with_capacity(self.alloc, self.pages)?;
        for (at, change) in &self.places {
            if change.is_some() {
                list.push(*at)?;
            }
        }
        list.sort_unstable();
        Ok(list)
    }
}

// 1 for a page, and 0 for none.
fn count(page: &Option<Box<HeldPage>>) -> usize
    ensures { result ≡ page_count page.now }
{
    match page {
        Some(_) => 1,
        None => 0,
    }
}

// 1 where a page was put there before, and else 0.
fn count_before(before: &Option<Option<Box<HeldPage>>>) -> usize
    ensures { result ≡ unwrap_or (option_map page_count before.now) 0 }
{
    match before {
        Some(change) => count(change),
        None => 0,
    }
}
