// The marks of a store in memory.

use crate::base::Base;
use hm_types::NoMemory;
use std::alloc::Global;
use std::cmp::Ordering;

/// The greatest id that was ever written at a key.
#[derive(Clone, Copy, Debug)]
pub struct Mark {
    pub at: Base,
    pub id: u64,
}

impl Mark {
    ghost use Rattle.hm_key.specs.Key.{key_of, IsFrom};
    ghost use Rattle.hm_key.specs.Memory.{IsPassed};
    ghost use Rattle.hm_key.specs.Stores.{IsEnd};

    // The boundary at the mark's key, where the mark is above `since` and its key is after that of
    // `at` and before `end`. Else it is `end`.
    fn earlier_end(&self, at: &Base, since: u64, end: Base) -> Base
        requires { IsEnd (key_of at.now) end }
        ensures end { IsEnd (key_of at.now) result }
        ensures passed { IsPassed (key_of at.now) since (key_of result) self.now }
        ensures earlier { IsFrom (key_of result) (key_of end) }
    {
        if since < self.id
            && at.order(&self.at) == Ordering::Less
            && self.at.order(&end) == Ordering::Less
        {
            self.at.boundary()
        } else {
            end
        }
    }
}

/// The marks of those keys at which something was written. The others have the mark 0.
#[derive(Drop)]
pub struct MarkList {
    pub list: Vec<Mark>,
}

impl MarkList {
    ghost use Rattle.std.specs.Prelude.{◌≡◌, ◌≤◌, [], OnErr, OnOk};
    ghost use Rattle.hm_types.specs.Elements.{Key};
    ghost use Rattle.hm_key.specs.Key.{key_of, greatest_key, IsBefore};
    ghost use Rattle.hm_key.specs.Memory.{mark_of, mark_place};
    ghost use Rattle.hm_key.specs.Marks.{Marks};
    ghost use Rattle.hm_key.specs.Stores.{IsEnd};

    /// Takes no memory.
    pub fn new(alloc: Global) -> MarkList
        ensures { result.list.items ≡ [] }
    {
        MarkList {
            list: Vec::new(alloc),
        }
    }

    /// The mark of the key of `at`.
    pub fn of(&self, at: &Base) -> u64
        ensures { result ≡ mark_of self.now.list.items (key_of at.now) }
    {
        let place = self.place_of(at);
        if place < self.list.len() {
            self.list[place].id
        } else {
            0
        }
    }

    /// Raises the mark of the key of `at` to an id, where it is less. After an error all marks are as
    /// they were.
    pub fn raise(&mut self, at: &Base, id: u64) -> Result<(), NoMemory>
        ensures ok { OnOk result
            (Marks (key_of at.now) id (mark_of self.old.list.items) (mark_of self.new.list.items)) }
        ensures err { OnErr result (self.new.list.items ≡ self.old.list.items) }
    {
        let place = self.place_of(at);
        if place < self.list.len() {
            let mark = &mut self.list[place];
            mark.id = mark.id.max(id);
        } else {
            self.list.push(Mark { at: *at, id })?;
        }
        Ok(())
    }

    /// The first key after that of `at` whose mark is above `since`, or the right boundary of the
    /// whole tree where there is none.
    pub fn end_after(&self, at: &Base, since: u64) -> Base
        requires { IsBefore (key_of at.now) greatest_key }
        ensures end { IsEnd (key_of at.now) result }
        ensures quiet { (key : Key) → IsBefore (key_of at.now) key → IsBefore key (key_of result) →
            mark_of self.now.list.items key ≤ since }
    {
        let mut end = Base::greatest();
        for mark in &self.list {
            end = mark.earlier_end(at, since, end);
        }
        end
    }

    // The place of the mark of the key of `at`, or the number of marks where it has none.
    fn place_of(&self, at: &Base) -> usize
        ensures { result ≡ mark_place (key_of at.now) self.now.list.items }
    {
        let mut place = 0;
        while place < self.list.len() && self.list[place].at.order(at) != Ordering::Equal {
            place += 1;
        }
        place
    }
}
