// What a unit of a reblock moves.
ghost use Rattle.std.specs.Prelude.{◌≡◌, ◌≤◌, IfOk, IfSome, IsFalse, None};
ghost use Rattle.hm_types.specs.Faults.{HasStoreCause};
ghost use Rattle.hm_types.specs.declared.zone.TheConstants.{SMALL_ZONE, TREE_ZONE};
ghost use Rattle.hm_key.specs.Balance.{Balanced};
ghost use Rattle.hm_stored.specs.Heap.{extents_in, pages_of};
ghost use Rattle.hm_stored.specs.Moving.{StandsIn};
ghost use Rattle.hm_stored.specs.Space.{heap};
ghost use Rattle.hm_stored.specs.Told.{elements_told};
ghost use Rattle.hm_relocate.specs.Unit.{LooksThrough, NamesOne, Tries};
ghost use Rattle.hm_relocate.specs.Way.{way_of};

use crate::relocation::Relocation;
use hm_disk::Disk;
use hm_key::{Base, Extents, Job};
use hm_search::Subtree;
use hm_stored::Stored;
use hm_types::{Counted, Fault, LARGE_ZONE, META_ZONE, SpaceFault, TREE_ZONE, Zones};

impl Relocation {
    // Moves what comes next, and tells whether anything is left to be moved: a payload, or once nodes
    // are moved one of these.
    pub(crate) fn move_one<D: Disk>(&mut self, stored: &mut Stored<D>) -> Result<bool, SpaceFault>
        requires balanced { Balanced (elements_told (heap stored.old.space) stored.old.root)
            (extents_in (heap stored.old.space)) }
        ensures tries { Tries (way_of self.old) (way_of self.new)
            self.old.payloads.choice (D.faults stored.old.space.disk)
            (D.faults stored.new.space.disk) (heap stored.old.space) (heap stored.new.space)
            stored.old.root stored.new.root result }
        ensures frame { ⟦<Stored<D> as Counted>⟧.frame stored.new
            ≡ ⟦<Stored<D> as Counted>⟧.frame stored.old }
        ensures choice { self.new.payloads.choice ≡ self.old.payloads.choice }
    {
        match self.nodes {
            None => self.move_payload_or_turn(stored),
            Some(from) => self.move_next(stored, &from),
        }
    }

    // Moves a payload of the choice or, where none lies there, turns to the nodes, where one does.
    fn move_payload_or_turn<D: Disk>(&mut self, stored: &mut Stored<D>) -> Result<bool, SpaceFault>
        requires balanced { Balanced (elements_told (heap stored.old.space) stored.old.root)
            (extents_in (heap stored.old.space)) }
        requires payloads { self.old.nodes ≡ None }
        ensures tries { Tries (way_of self.old) (way_of self.new)
            self.old.payloads.choice (D.faults stored.old.space.disk)
            (D.faults stored.new.space.disk) (heap stored.old.space) (heap stored.new.space)
            stored.old.root stored.new.root result }
        ensures frame { ⟦<Stored<D> as Counted>⟧.frame stored.new
            ≡ ⟦<Stored<D> as Counted>⟧.frame stored.old }
        ensures choice { self.new.payloads.choice ≡ self.old.payloads.choice }
    {
        if self.move_payload(stored)? {
            return Ok(true);
        }
        let from = Base::least();
        if self.node_from(stored, &from)?.is_none() {
            return Ok(false);
        }
        self.nodes = Some(from);
        Ok(true)
    }

    // Moves the next node of the choice, from a key on; or where none is left there, what is found first.
    fn move_next<D: Disk>(
        &mut self,
        stored: &mut Stored<D>,
        from: &Base,
    ) -> Result<bool, SpaceFault>
        requires balanced { Balanced (elements_told (heap stored.old.space) stored.old.root)
            (extents_in (heap stored.old.space)) }
        ensures tries { Tries (way_of self.old) (way_of self.new)
            self.old.payloads.choice (D.faults stored.old.space.disk)
            (D.faults stored.new.space.disk) (heap stored.old.space) (heap stored.new.space)
            stored.old.root stored.new.root result }
        ensures frame { ⟦<Stored<D> as Counted>⟧.frame stored.new
            ≡ ⟦<Stored<D> as Counted>⟧.frame stored.old }
        ensures choice { self.new.payloads.choice ≡ self.old.payloads.choice }
    {
        if self.move_node(stored, from)? {
            return Ok(true);
        }
        self.move_first(stored)
    }

    // Moves the first node of the choice, or where none lies there a payload, which came in the meantime.
    fn move_first<D: Disk>(&mut self, stored: &mut Stored<D>) -> Result<bool, SpaceFault>
        requires balanced { Balanced (elements_told (heap stored.old.space) stored.old.root)
            (extents_in (heap stored.old.space)) }
        ensures tries { Tries (way_of self.old) (way_of self.new)
            self.old.payloads.choice (D.faults stored.old.space.disk)
            (D.faults stored.new.space.disk) (heap stored.old.space) (heap stored.new.space)
            stored.old.root stored.new.root result }
        ensures frame { ⟦<Stored<D> as Counted>⟧.frame stored.new
            ≡ ⟦<Stored<D> as Counted>⟧.frame stored.old }
        ensures choice { self.new.payloads.choice ≡ self.old.payloads.choice }
    {
        if self.move_node(stored, &Base::least())? {
            return Ok(true);
        }
        self.move_payload(stored)
    }

    // Moves the extent of a payload that lies in the choice, or collects elements of it, and tells
    // whether one lay there.
    fn move_payload<D: Disk>(&mut self, stored: &mut Stored<D>) -> Result<bool, SpaceFault>
        requires balanced { Balanced (elements_told (heap stored.old.space) stored.old.root)
            (extents_in (heap stored.old.space)) }
        ensures tries { Tries (way_of self.old) (way_of self.new)
            self.old.payloads.choice (D.faults stored.old.space.disk)
            (D.faults stored.new.space.disk) (heap stored.old.space) (heap stored.new.space)
            stored.old.root stored.new.root result }
        ensures frame { ⟦<Stored<D> as Counted>⟧.frame stored.new
            ≡ ⟦<Stored<D> as Counted>⟧.frame stored.old }
        ensures choice { self.new.payloads.choice ≡ self.old.payloads.choice }
    {
        let Some(zone) = self.payloads.next_zone(stored)? else {
            return Ok(false);
        };
        stored.admit(only(zone), 0)?;
        let _progress = self.payloads.unit(stored)?;
        self.nodes = None;
        Ok(true)
    }

    // Moves the first node of the choice that ends after a key, and tells whether there is one. The
    // next one is looked for from there on.
    fn move_node<D: Disk>(
        &mut self,
        stored: &mut Stored<D>,
        from: &Base,
    ) -> Result<bool, SpaceFault>
        ensures tries { Tries (way_of self.old) (way_of self.new)
            self.old.payloads.choice (D.faults stored.old.space.disk)
            (D.faults stored.new.space.disk) (heap stored.old.space) (heap stored.new.space)
            stored.old.root stored.new.root result }
        ensures nodes { IfOk result (λ moved. IsFalse moved →
            pages_of (heap stored.new.space) ≡ pages_of (heap stored.old.space)) }
        ensures frame { ⟦<Stored<D> as Counted>⟧.frame stored.new
            ≡ ⟦<Stored<D> as Counted>⟧.frame stored.old }
        ensures choice { self.new.payloads.choice ≡ self.old.payloads.choice }
    {
        let Some(place) = self.node_from(stored, from)? else {
            return Ok(false);
        };
        stored.admit(only(TREE_ZONE), 0)?;
        let _to = stored.move_node(place.at)?;
        self.nodes = Some(place.left);
        Ok(true)
    }

    // The first node of the choice that ends after a key.
    fn node_from<D: Disk>(
        &self,
        stored: &mut Stored<D>,
        from: &Base,
    ) -> Result<Option<Subtree>, Fault>
        ensures there { IfOk result (λ found. IfSome found
            (StandsIn self.now.payloads.choice (heap stored.new.space))) }
        ensures nodes { pages_of (heap stored.new.space) ≡ pages_of (heap stored.old.space) }
        ensures looks { LooksThrough (heap stored.old.space) (heap stored.new.space)
            stored.old.root stored.new.root }
        ensures frame { ⟦<Stored<D> as Counted>⟧.frame stored.new
            ≡ ⟦<Stored<D> as Counted>⟧.frame stored.old }
        ensures cause { HasStoreCause (elements_told (heap stored.old.space) stored.old.root)
            (D.faults stored.old.space.disk) (D.faults stored.new.space.disk) result }
    {
        if !from.order(&Base::greatest()).is_lt() {
            return Ok(None);
        }
        stored.node_from(self.payloads.choice(), from)
    }
}

// The set of one zone.
fn only(zone: u8) -> Zones
    requires { (TREE_ZONE ≤ zone) × (zone ≤ SMALL_ZONE) }
    ensures { NamesOne result zone }
{
    match zone {
        TREE_ZONE => Zones::TREE,
        META_ZONE => Zones::META,
        LARGE_ZONE => Zones::LARGE,
        _ => Zones::SMALL,
    }
}
