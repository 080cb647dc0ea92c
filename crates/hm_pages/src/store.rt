// The store of pages, and the calls that change it.
ghost use Rattle.std.specs.Prelude.{◌≡◌, ◌≤◌, ◌+◌, ℕ, is_some, length, nat_eq, if◌then◌else◌};
ghost use Rattle.std.specs.List.Sorted.{IsStrictlyIncreasing};
ghost use Rattle.std.specs.Set.{is_member};
ghost use Rattle.std.specs.HashMap.{spare, hash_map_len};
ghost use Rattle.std.proofs.Props.{props};
ghost use Rattle.hm_types.specs.declared.limits.TheConstants.{MOST_GROUP_PAGES};
ghost use Rattle.hm_pages.specs.Maps.{is_page};
ghost use Rattle.hm_pages.specs.Sets.{ListsPages, KeepsFreemap};
ghost use Rattle.hm_pages.specs.Changes.{change_at};

use crate::changes::Changes;
use crate::held::HeldPage;
use crate::table::Table;
use hm_fields::{Page, State};
use hm_types::{HOff, Id, MOST_GROUP_PAGES, NoMemory};
use std::alloc::Global;
use std::mem;

/// Every page of a volume in memory, in three states. A contract sees its `contents`: the
/// committed, the frozen and the current map, and which offsets were changed since.
#[derive(Drop)]
pub struct PageStore {
    alloc: Global,
    committed: Table,
    // What was frozen, over the committed pages.
    frozen: Changes,
    // What calls that were kept have changed since the last freeze.
    group: Changes,
    // What the open call changed.
    call: Changes,
    // The offsets of the frozen pages, rising.
    places: Vec<HOff>,
    boundary: Option<Id>,
    is_open: bool,
    // `keep` and `commit` take no memory.
    ghost room: { hash_map_len call.places ≤ spare group.places },
    ghost flush_room: { hash_map_len frozen.places ≤ spare committed.pages },
    ghost few: { group.pages + call.pages ≤ MOST_GROUP_PAGES },
    ghost few_frozen: { frozen.pages ≤ MOST_GROUP_PAGES },
    ghost closed: { (if is_open then 0 else hash_map_len call.places) ≡ 0 },
    ghost idle: { (if is_some boundary then 0 else hash_map_len frozen.places) ≡ 0 },
    ghost rising: { IsStrictlyIncreasing places.items } by { Prim.hlevel props },
    ghost listed: { ListsPages places.items (change_at frozen) } by { Prim.hlevel props },
    ghost len: { length places.items ≡ frozen.pages },
    ghost call_keeps: { KeepsFreemap (change_at call) } by { Prim.hlevel props },
    ghost group_keeps: { KeepsFreemap (change_at group) } by { Prim.hlevel props },
    ghost frozen_keeps: { KeepsFreemap (change_at frozen) } by { Prim.hlevel props },
}

impl PageStore {
    ghost use Rattle.std.specs.Prelude.{None, Some, true, false, OnOk, OnErr, IsSome, IsTrue, IsFalse, ◌↔◌};
    ghost use Rattle.std.specs.Prelude.{◌<◌, ◌≢◌, option_map, slice_index};
    ghost use Rattle.hm_types.specs.Offset.{zone_of};
    ghost use Rattle.hm_types.specs.declared.zone.TheConstants.{FREEMAP_ZONE};
    ghost use Rattle.hm_pages.specs.Counts.{bytes_of};
    ghost use Rattle.hm_pages.specs.Sets.{in_freemap};
    ghost use Rattle.hm_pages.specs.Store.{contents, empty_store, frame_of, in_state, stands_in};
    ghost use Rattle.hm_pages.specs.Calls.{IsBegun, IsChanged, IsCommitted, IsFrozen};
    ghost use Rattle.hm_pages.specs.Calls.{IsKept, IsLoaded, IsUndone};

    /// No page, and nothing frozen. It takes no memory.
    #[tactic(auto, unfolding(crate::specs::Store::contents))]
    pub fn new(alloc: Global) -> PageStore
        ensures { contents result ≡ empty_store }
    {
        PageStore {
            alloc,
            committed: Table::new(alloc),
            frozen: Changes::new(alloc),
            group: Changes::new(alloc),
            call: Changes::new(alloc),
            places: Vec::new(alloc),
            boundary: None,
            is_open: false,
        }
    }

    /// Opens a call: from here on `undo` gives back the current map as it is now. No call may be
    /// open. It takes no memory.
    #[tactic(auto, unfolding(crate::specs::Store::contents))]
    pub fn begin(&mut self)
        requires closed { (contents self.old).begin ≡ None }
        ensures { IsBegun (contents self.old) (contents self.new) }
    {
        self.is_open = true;
    }

    /// Closes the open call, and makes its changes those of the current group. It takes no memory.
    #[tactic(auto, unfolding(crate::specs::Store::contents))]
    pub fn keep(&mut self)
        requires opened { IsSome (contents self.old).begin }
        ensures { IsKept (contents self.old) (contents self.new) }
    {
        let call = mem::replace(&mut self.call, Changes::new(self.alloc));
        self.group.absorb(call);
        self.is_open = false;
    }

    /// Closes the open call, and drops its changes: the current map is the one at `begin`, and the
    /// group too. It takes no memory.
    #[tactic(auto, unfolding(crate::specs::Store::contents))]
    pub fn undo(&mut self)
        requires opened { IsSome (contents self.old).begin }
        ensures { IsUndone (contents self.old) (contents self.new) }
    {
        self.call.clear();
        self.is_open = false;
    }

    /// Makes the current map the frozen one, with the last id that is in it as its boundary, and
    /// the current group the frozen one. Nothing may be frozen, and no call open. It takes all memory
    /// that `commit` needs; after an error the store is as before.
    #[tactic(auto, unfolding(crate::specs::Store::contents))]
    pub fn freeze(&mut self, boundary: Id) -> Result<(), NoMemory>
        requires idle { (contents self.old).boundary ≡ None }
        requires closed { (contents self.old).begin ≡ None }
        ensures ok { OnOk result (IsFrozen boundary (contents self.old) (contents self.new)) }
        ensures err { OnErr result (contents self.new ≡ contents self.old) }
    {
        let places = self.group.page_places()?;
        self.committed.reserve(self.group.len())?;
        self.frozen = mem::replace(&mut self.group, Changes::new(self.alloc));
        self.places = places;
        self.boundary = Some(boundary);
        Ok(())
    }

    /// Makes the frozen map the committed one, and changes neither the frozen map nor the current
    /// one. A group must be frozen. It takes no memory.
    #[tactic(auto, unfolding(crate::specs::Store::contents))]
    pub fn commit(&mut self)
        requires frozen { IsSome (contents self.old).boundary }
        ensures { IsCommitted (contents self.old) (contents self.new) }
    {
        let frozen = mem::replace(&mut self.frozen, Changes::new(self.alloc));
        self.committed.apply(frozen);
        self.places.clear();
        self.boundary = None;
    }

    /// Puts a page that was read from the disk into all three maps. None of them may have one
    /// there, and no call may be open. After an error the store is as before.
    #[tactic(auto, unfolding(crate::specs::Store::contents))]
    pub fn load(&mut self, at: HOff, page: &Page) -> Result<(), NoMemory>
        requires committed { (contents self.old).committed at ≡ None }
        requires frozen { (contents self.old).frozen at ≡ None }
        requires current { (contents self.old).current at ≡ None }
        requires closed { (contents self.old).begin ≡ None }
        ensures ok { OnOk result (IsLoaded at page.now (contents self.old) (contents self.new)) }
        ensures err { OnErr result (contents self.new ≡ contents self.old) }
    {
        let page = Box::new(self.alloc, HeldPage::of(page))?;
        self.committed.reserve(self.frozen.len() + 1)?;
        self.committed.put(at, page);
        self.frozen.forget(at);
        self.group.forget(at);
        Ok(())
    }

    /// Takes the page at `at` out of the current map, in the open call, or straight in the group
    /// where none is open. It may not be one of zone 4: those of layer 2 stand in all three maps.
    /// After an error the store is as before.
    pub fn remove(&mut self, at: HOff) -> Result<(), NoMemory>
        requires kept { zone_of at ≢ FREEMAP_ZONE }
        ensures ok { OnOk result (IsChanged at None (contents self.old) (contents self.new)) }
        ensures err { OnErr result (contents self.new ≡ contents self.old) }
        ensures frame { frame_of (contents self.new) ≡ frame_of (contents self.old) }
    {
        self.put(at, None)
    }

    // Puts a page at an offset, in place of the one that stands there.
    pub(crate) fn put_page(&mut self, at: HOff, with: &Page) -> Result<(), NoMemory>
        ensures ok { OnOk result (IsChanged at (Some with.now)
            (contents self.old) (contents self.new)) }
        ensures err { OnErr result (contents self.new ≡ contents self.old) }
    {
        let page = Box::new(self.alloc, HeldPage::of(with))?;
        self.put(at, Some(page))
    }

    // Puts a page at an offset, or takes out the one that stands there.
    fn put(&mut self, at: HOff, page: Option<Box<HeldPage>>) -> Result<(), NoMemory>
        requires kept { in_freemap at ≡ true → is_some page ≡ true }
        ensures ok { OnOk result (IsChanged at (option_map bytes_of page)
            (contents self.old) (contents self.new)) }
        ensures err { OnErr result (contents self.new ≡ contents self.old) }
    {
        if self.is_open {
            self.put_in_call(at, page)
        } else {
            self.put_in_group(at, page)
        }
    }

    #[tactic(auto, unfolding(crate::specs::Store::contents))]
    fn put_in_call(&mut self, at: HOff, page: Option<Box<HeldPage>>) -> Result<(), NoMemory>
        requires opened { self.old.is_open ≡ true }
        requires kept { in_freemap at ≡ true → is_some page ≡ true }
        ensures ok { OnOk result (IsChanged at (option_map bytes_of page)
            (contents self.old) (contents self.new)) }
        ensures err { OnErr result (contents self.new ≡ contents self.old) }
    {
        if self.is_full_for(at, &page) {
            return Err(NoMemory);
        }
        self.group.reserve(self.call.len() + 1)?;
        self.call.put(at, page)
    }

    #[tactic(auto, unfolding(crate::specs::Store::contents))]
    fn put_in_group(&mut self, at: HOff, page: Option<Box<HeldPage>>) -> Result<(), NoMemory>
        requires closed { self.old.is_open ≡ false }
        requires kept { in_freemap at ≡ true → is_some page ≡ true }
        ensures ok { OnOk result (IsChanged at (option_map bytes_of page)
            (contents self.old) (contents self.new)) }
        ensures err { OnErr result (contents self.new ≡ contents self.old) }
    {
        if self.is_full_for(at, &page) {
            return Err(NoMemory);
        }
        self.group.put(at, page)
    }

    // Whether a page at `at` would be one more than a group may have: none stands there yet, in the
    // open call, or in the group where none is open, and the two have all that they may.
    fn is_full_for(&self, at: HOff, page: &Option<Box<HeldPage>>) -> bool
        ensures { IsTrue result ↔ (IsSome page.now × IsFalse (stands_in self.now at) ×
            (MOST_GROUP_PAGES ≤ self.now.group.pages + self.now.call.pages)) }
    {
        let stands = if self.is_open {
            self.call.has_page(at)
        } else {
            self.group.has_page(at)
        };
        page.is_some()
            && !stands
            && self.group.pages() + self.call.pages() >= MOST_GROUP_PAGES as usize
    }

    /// How many pages the current group has: those that were put since the last freeze by calls
    /// that were kept, and not taken out again.
    #[tactic(auto, unfolding(crate::specs::Store::contents))]
    pub fn group_len(&self) -> u32
        ensures { result ≡ (contents self.now).group.pages }
    {
        self.group.pages() as u32
    }

    /// How many frozen pages are to be placed.
    #[tactic(auto, unfolding(crate::specs::Store::contents))]
    pub fn frozen_len(&self) -> u32
        ensures { result ≡ length (contents self.now).frozen_group }
    {
        self.places.len() as u32
    }

    /// The offset of one of these pages, in rising order. `i` is below `frozen_len`.
    #[tactic(auto, unfolding(crate::specs::Store::contents))]
    pub fn frozen_place(&self, i: u32) -> HOff
        requires { i < length (contents self.now).frozen_group }
        ensures { result ≡ slice_index (contents self.now).frozen_group i }
    {
        self.places[i as usize]
    }

    /// The frozen page at that offset. `i` is below `frozen_len`.
    #[tactic(auto, unfolding(crate::specs::Store::contents))]
    pub fn frozen_page(&self, i: u32) -> &Page
        requires { i < length (contents self.now).frozen_group }
        ensures { (contents self.now).frozen (slice_index (contents self.now).frozen_group i) ≡
            Some result.now }
    {
        match self.frozen.get(self.places[i as usize]) {
            Some(Some(page)) => page,
            _ => unreachable!(),
        }
    }

    /// Whether the committed map has a page at that offset. `i` is below `frozen_len`.
    #[tactic(auto, unfolding(crate::specs::Store::contents))]
    pub fn was_live(&self, i: u32) -> bool
        requires { i < length (contents self.now).frozen_group }
        ensures { result ≡ is_some ((contents self.now).committed
            (slice_index (contents self.now).frozen_group i)) }
    {
        self.committed.get(self.places[i as usize]).is_some()
    }

    /// Whether the current map has a page at an offset.
    pub fn has_page(&self, at: HOff) -> bool
        ensures { result ≡ is_some ((contents self.now).current at) }
    {
        self.look(at).is_some()
    }

    // The committed page at an offset.
    #[tactic(auto, unfolding(crate::specs::Store::contents))]
    fn committed_at(&self, at: HOff) -> Option<&Page>
        ensures { option_map (λ p. p.now) result ≡ (contents self.now).committed at }
    {
        self.committed.get(at)
    }

    // The frozen page at an offset.
    #[tactic(auto, unfolding(crate::specs::Store::contents))]
    fn frozen_at(&self, at: HOff) -> Option<&Page>
        ensures { option_map (λ p. p.now) result ≡ (contents self.now).frozen at }
    {
        match self.frozen.get(at) {
            Some(page) => page,
            None => self.committed.get(at),
        }
    }

    /// The page at an offset as calls see it, if one stands there.
    #[tactic(auto, unfolding(crate::specs::Store::contents))]
    pub fn look(&self, at: HOff) -> Option<&Page>
        ensures { option_map (λ p. p.now) result ≡ (contents self.now).current at }
    {
        if let Some(page) = self.call.get(at) {
            return page;
        }
        match self.group.get(at) {
            Some(page) => page,
            None => self.frozen_at(at),
        }
    }

    // The page at an offset in one of the states.
    pub(crate) fn page_at(&self, state: State, at: HOff) -> Option<&Page>
        ensures { option_map (λ p. p.now) result ≡ in_state (contents self.now) state at }
    {
        match state {
            State::Committed => self.committed_at(at),
            State::Frozen => self.frozen_at(at),
            State::Current => self.look(at),
        }
    }
}

#[cfg(test)]
mod tests;
