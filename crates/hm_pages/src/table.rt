// The committed pages.
use crate::changes::Changes;
use crate::held::HeldPage;
use hm_fields::Page;
use hm_types::{HOff, NoMemory};
use std::alloc::Global;
use std::collections::HashMap;

/// The committed pages by their offsets.
#[derive(Drop)]
pub(crate) struct Table {
    pages: HashMap<HOff, Box<HeldPage>>,
}

impl Table {
    ghost use Rattle.std.specs.Prelude.{◌≡◌, ◌+◌, ◌<◌, ◌≤◌, ℕ, Some, None, OnOk, OnErr, option_map};
    ghost use Rattle.std.specs.HashMap.{spare, hash_map_len};
    ghost use Rattle.hm_pages.specs.Maps.{no_pages, set_at, over};
    ghost use Rattle.hm_pages.specs.Counts.{bytes_of};
    ghost use Rattle.hm_pages.specs.Changes.{change_at};
    ghost use Rattle.hm_pages.specs.Table.{page_at};

    /// No page. It takes no memory.
    pub(crate) fn new(alloc: Global) -> Table
        ensures { page_at result ≡ no_pages }
    {
        Table {
            pages: HashMap::new(alloc),
        }
    }

    /// The page at an offset.
    pub(crate) fn get(&self, at: HOff) -> Option<&Page>
        ensures { option_map (λ p. p.now) result ≡ page_at self.now at }
    {
        match self.pages.get(&at) {
            Some(page) => Some(&page.page),
            None => None,
        }
    }

    /// Makes room for so many pages more.
    pub(crate) fn reserve(&mut self, additional: usize) -> Result<(), NoMemory>
        ensures same { page_at self.new ≡ page_at self.old }
        ensures ok { OnOk result (additional ≤ spare self.new.pages) }
        ensures spare { spare self.old.pages ≤ spare self.new.pages }
    {
        self.pages.reserve(additional)?;
        Ok(())
    }

    /// Puts a page at an offset. There must be room to spare: it takes no memory.
    pub(crate) fn put(&mut self, at: HOff, page: Box<HeldPage>)
        requires room { 0 < spare self.old.pages }
        ensures value { page_at self.new ≡ set_at at (Some (bytes_of page)) (page_at self.old) }
        ensures spare { spare self.old.pages ≤ spare self.new.pages + 1 }
    {
        let _ = self.pages.insert(at, page);
    }

    // Takes out the page at an offset.
    fn remove(&mut self, at: HOff)
        ensures value { page_at self.new ≡ set_at at None (page_at self.old) }
        ensures spare { spare self.old.pages ≤ spare self.new.pages }
    {
        self.pages.remove(&at);
    }

    /// Makes changes. There must be room for all of them: it takes no memory.
    pub(crate) fn apply(&mut self, changes: Changes)
        requires room { hash_map_len changes.places ≤ spare self.old.pages }
        ensures { page_at self.new ≡ over (change_at changes) (page_at self.old) }
    {
        for (at, change) in changes.into_places() {
            match change {
                Some(page) => self.put(at, page),
                None => self.remove(at),
            }
        }
    }
}
