// The elements of a volume in use.
ghost use Rattle.hm_stored.specs.Heap.{pages_of};
ghost use Rattle.hm_stored.specs.Space.{heap};

use crate::stored::Stored;
use crate::tree_calls;
use hm_disk::Disk;
use hm_key::{Base, Element, ElementStore};
use hm_types::{Fault, HOff, Id};

impl<D: Disk> ElementStore for Stored<D> {
    ghost use Rattle.std.specs.Prelude.{true};
    ghost use Rattle.hm_btree.specs.Laws.{told_marked, told_sorted};

    ghost sorted = { λ s. told_sorted true (pages_of (heap s.space)) s.root s.tree };

    ghost marked = { λ s. told_marked true (pages_of (heap s.space)) s.root s.tree };

    fn first_at_or_after(&mut self, at: &Base) -> Result<Option<Element>, Fault> {
        if !self.is_open {
            return Err(Fault::NoMemory);
        }
        let (root, found) = tree_calls::first_at_or_after(
            &mut self.space,
            self.root,
            &mut self.near,
            at,
        );
        self.root = root;
        found
    }

    fn last_at_or_before(&mut self, at: &Base) -> Result<Option<Element>, Fault> {
        if !self.is_open {
            return Err(Fault::NoMemory);
        }
        let (root, found) = tree_calls::last_at_or_before(&mut self.space, self.root, at);
        self.root = root;
        found
    }

    fn insert(&mut self, e: &Element) -> Result<(), Fault> {
        if !self.is_open {
            return Err(Fault::NoMemory);
        }
        let (root, answer) = tree_calls::insert(&mut self.space, self.root, e);
        self.root = root;
        answer
    }

    fn set_delete(&mut self, at: &Base, delete: u64) -> Result<(), Fault> {
        if !self.is_open {
            return Err(Fault::NoMemory);
        }
        let (root, answer) = tree_calls::set_delete(&mut self.space, self.root, at, delete);
        self.root = root;
        answer
    }

    fn remove(&mut self, at: &Base) -> Result<(), Fault> {
        if !self.is_open {
            return Err(Fault::NoMemory);
        }
        let (root, answer) = tree_calls::remove(&mut self.space, self.root, self.near, at);
        self.root = root;
        answer
    }

    fn readdress(&mut self, at: &Base, to: HOff) -> Result<(), Fault> {
        if !self.is_open {
            return Err(Fault::NoMemory);
        }
        let (root, answer) = tree_calls::readdress(&mut self.space, self.root, at, to);
        self.root = root;
        answer
    }

    fn unchanged_until(&mut self, at: &Base, since: Id) -> Result<Option<Base>, Fault> {
        if !self.is_open {
            return Err(Fault::NoMemory);
        }
        let (root, end) = tree_calls::unchanged_until(&mut self.space, self.root, at, since);
        self.root = root;
        end
    }
}
