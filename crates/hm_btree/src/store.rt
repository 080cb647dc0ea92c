// The tree as a store of elements.
ghost use Rattle.hm_btree.specs.Laws.{told_sorted, told_marked};

use crate::change::Change;
use crate::space::NodeSpace;
use crate::tree::{BTree, known_offset};
use crate::uncounted::{
    change_uncounted, first_uncounted, insert_uncounted, last_uncounted, quiet_uncounted,
    remove_uncounted,
};
use hm_key::{Base, Element, ElementStore};
use hm_types::{Fault, HOff, Id};
use std::marker::Brand;
use std::sync::ledger::Blank;

impl<S: NodeSpace> ElementStore for BTree<S> {
    ghost sorted = { λ t. told_sorted t.intact (S.pages t.space) t.root t.sound };

    ghost marked = { λ t. told_marked t.intact (S.pages t.space) t.root t.sound };

    fn first_at_or_after(&mut self, at: &Base) -> Result<Option<Element>, Fault> {
        self.require_intact()?;
        self.require_root()?;
        let blank = Blank::new(1);
        first_uncounted::<S, Brand>(&mut self.space, self.root, at, &mut self.near, blank)
    }

    fn last_at_or_before(&mut self, at: &Base) -> Result<Option<Element>, Fault> {
        self.require_intact()?;
        self.require_root()?;
        last_uncounted::<S, Brand>(&mut self.space, self.root, at, Blank::new(1))
    }

    fn insert(&mut self, e: &Element) -> Result<(), Fault> {
        known_offset(e.payload);
        self.require_intact()?;
        self.require_root()?;
        self.intact = false;
        let root = insert_uncounted::<S, Brand>(&mut self.space, self.root, e, Blank::new(1))?;
        self.root = root;
        self.intact = true;
        Ok(())
    }

    fn set_delete(&mut self, at: &Base, delete: u64) -> Result<(), Fault> {
        self.require_intact()?;
        self.require_root()?;
        self.intact = false;
        let change = Change::Close(delete);
        change_uncounted::<S, Brand>(&mut self.space, self.root, at, change, Blank::new(1))?;
        self.intact = true;
        Ok(())
    }

    fn remove(&mut self, at: &Base) -> Result<(), Fault> {
        self.require_intact()?;
        self.require_root()?;
        self.intact = false;
        let near = self.near;
        let blank = Blank::new(1);
        let root = remove_uncounted::<S, Brand>(&mut self.space, self.root, near, at, blank)?;
        self.root = root;
        self.intact = true;
        Ok(())
    }

    fn readdress(&mut self, at: &Base, to: HOff) -> Result<(), Fault> {
        known_offset(to);
        self.require_intact()?;
        self.require_root()?;
        self.intact = false;
        let change = Change::Move(to);
        change_uncounted::<S, Brand>(&mut self.space, self.root, at, change, Blank::new(1))?;
        self.intact = true;
        Ok(())
    }

    fn unchanged_until(&mut self, at: &Base, since: Id) -> Result<Option<Base>, Fault> {
        self.require_intact()?;
        self.require_root()?;
        quiet_uncounted::<S, Brand>(&mut self.space, self.root, at, since, Blank::new(1))
    }
}
