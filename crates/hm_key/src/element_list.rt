// The elements of a store in memory.
ghost use Rattle.hm_key.specs.Elements.{IsContent};
ghost use Rattle.hm_key.specs.Props.{IsContent-prop};

use crate::base::Base;
use crate::element::Element;
use hm_types::{HOff, NoMemory};
use std::alloc::Global;
use std::cmp::Ordering;

/// Elements in the order of their keys, with one at most at a key.
#[derive(Drop)]
pub struct ElementList {
    pub list: Vec<Element>,
    pub ghost content: { IsContent list.items } by { IsContent-prop list.items },
}

impl ElementList {
    ghost use Rattle.std.specs.Prelude.{◌≡◌, ◌⊎◌, ◌<◌, [], IsSome, IsNone, OnOk, OnErr};
    ghost use Rattle.hm_key.specs.Key.{key_of};
    ghost use Rattle.hm_key.specs.Element.{IsElement};
    ghost use Rattle.hm_key.specs.Elements.{element_at, first_from, last_to, inserted, removed, with_delete, with_payload};
    ghost use Rattle.hm_key.specs.Places.{IsPlace, leading};

    /// Takes no memory.
    pub fn new(alloc: Global) -> ElementList
        ensures { result.list.items ≡ [] }
    {
        ElementList {
            list: Vec::new(alloc),
        }
    }

    /// The first element at the key of `at` or after it.
    pub fn first_from(&self, at: &Base) -> Option<Element>
        ensures { result ≡ first_from (key_of at.now) self.now.list.items }
    {
        self.list.get(self.leading(at)).copied()
    }

    /// The last element at the key of `at` or before it.
    pub fn last_to(&self, at: &Base) -> Option<Element>
        ensures { result ≡ last_to (key_of at.now) self.now.list.items }
    {
        let mut last = None;
        for element in &self.list {
            if element.base.order(at) != Ordering::Greater {
                last = Some(*element);
            }
        }
        last
    }

    /// Adds an element, at whose key there is none. After an error the list is as before.
    pub fn insert(&mut self, element: &Element) -> Result<(), NoMemory>
        requires new { IsNone (element_at (key_of element.now.base) self.old.list.items) }
        requires element { IsElement element.now }
        ensures ok { OnOk result (self.new.list.items ≡ inserted element.now self.old.list.items) }
        ensures err { OnErr result (self.new.list.items ≡ self.old.list.items) }
    {
        let place = self.leading(&element.base);
        self.list.insert(place, *element)?;
        Ok(())
    }

    /// Closes the element at the key of `at`, or opens it where `delete` is 0.
    pub fn set_delete(&mut self, at: &Base, delete: u64)
        requires there { IsSome (element_at (key_of at.now) self.old.list.items) }
        requires later { (delete ≡ 0) ⊎ (at.now.create < delete) }
        ensures { self.new.list.items ≡ with_delete (key_of at.now) delete self.old.list.items }
    {
        let place = self.place_of(at);
        self.list[place].base.delete = delete;
    }

    /// Lets the payload of the element at the key of `at` stand elsewhere.
    pub fn readdress(&mut self, at: &Base, to: HOff)
        requires { IsSome (element_at (key_of at.now) self.old.list.items) }
        ensures { self.new.list.items ≡ with_payload (key_of at.now) to self.old.list.items }
    {
        let place = self.place_of(at);
        self.list[place].payload = to;
    }

    /// Takes out the element at the key of `at`.
    pub fn remove(&mut self, at: &Base)
        requires { IsSome (element_at (key_of at.now) self.old.list.items) }
        ensures { self.new.list.items ≡ removed (key_of at.now) self.old.list.items }
    {
        let place = self.place_of(at);
        self.list.remove(place);
    }

    // The number of elements that stand before the key of `at`.
    fn leading(&self, at: &Base) -> usize
        ensures { result ≡ leading (key_of at.now) self.now.list.items }
    {
        let mut place = 0;
        while place < self.list.len() && self.list[place].base.order(at) == Ordering::Less {
            place += 1;
        }
        place
    }

    // The place of the element at the key of `at`.
    fn place_of(&self, at: &Base) -> usize
        requires { IsSome (element_at (key_of at.now) self.now.list.items) }
        ensures { IsPlace (key_of at.now) self.now.list.items result }
    {
        let mut place = 0;
        while self.list[place].base.order(at) != Ordering::Equal {
            place += 1;
        }
        place
    }
}
