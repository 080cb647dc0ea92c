// The units of a reblock.
ghost use Rattle.std.specs.Prelude.{◌≡◌, ◌↔◌, IfOk, IsTrue, OnErr};
ghost use Rattle.std.specs.List.{Contains};
ghost use Rattle.std.specs.List.Sorted.{IsNonDecreasing};
ghost use Rattle.hm_key.specs.Balance.{Balanced};
ghost use Rattle.hm_reblock.specs.Choice.{without_block};
ghost use Rattle.hm_stored.specs.Heap.{extents_in};
ghost use Rattle.hm_stored.specs.Space.{heap};
ghost use Rattle.hm_stored.specs.Told.{elements_told};
ghost use Rattle.hm_relocate.specs.Leaving.{LeavesChoice, apart_from};
ghost use Rattle.hm_relocate.specs.Unit.{EndsUnit, DoesPart, TakesStep};
ghost use Rattle.hm_relocate.specs.Way.{way_of};

use hm_disk::Disk;
use hm_key::{Base, Progress};
use hm_reblock::Reblock;
use hm_stored::Stored;
use hm_types::{Counted, SpaceFault};
use std::alloc::Global;

/// The work of a reblock over the store of a volume in use, in units: what lies in chosen big-blocks
/// moves elsewhere, payloads first, and then nodes of the tree. It keeps nothing of the store but
/// hints, so that calls may change that between two units.
///
/// A big-block leaves the choice where a zone appends to it, and where nothing is live in it any more.
/// So what a unit places never lies in what is still chosen.
#[derive(Drop)]
pub struct Relocation {
    pub(crate) payloads: Reblock,
    // The key from which on nodes are moved; none while payloads are.
    pub(crate) nodes: Option<Base>,
    // An empty choice is made with it.
    pub(crate) alloc: Global,
}

impl Relocation {
    /// The reblock of these big-blocks, whose numbers rise, before its first unit. Takes no memory.
    pub fn new(chosen: Vec<u32>) -> Relocation
        requires { IsNonDecreasing chosen.items }
        ensures { result.payloads.choice ≡ chosen.items }
    {
        let alloc = *chosen.allocator();
        Relocation {
            payloads: Reblock::new(chosen),
            nodes: None,
            alloc,
        }
    }

    /// The big-blocks of which it moves what lies there. Their numbers rise.
    pub fn choice(&self) -> &[u32]
        ensures value { result.now ≡ self.now.payloads.choice }
        ensures rising { IsNonDecreasing result.now }
    {
        self.payloads.choice()
    }

    /// One unit, within an open call of the store: a payload with all elements that refer to it moves,
    /// or a node of the tree; or elements of the choice are collected; or, where no payload lies there,
    /// the unit turns to the nodes, of which the next ones move one each. It is done where nothing refers
    /// into the choice, and nothing is live there. `NoSpace` where the zone of what is to move lacks its
    /// reserve and no big-block is free. `NoMemory` also where no call is open, or something was given
    /// back in the open one, or bytes are live in the choice to which nothing refers: only a store that
    /// holds no volume has those. After an error the changes of the call are to be dropped, and the
    /// job may go on.
    pub fn unit<D: Disk>(&mut self, stored: &mut Stored<D>) -> Result<Progress, SpaceFault>
        requires balanced { Balanced (elements_told (heap stored.old.space) stored.old.root)
            (extents_in (heap stored.old.space)) }
        ensures store { DoesPart self.old.payloads.choice (D.faults stored.old.space.disk)
            (D.faults stored.new.space.disk) (heap stored.old.space) (heap stored.new.space)
            stored.old.root stored.new.root result }
        ensures frame { ⟦<Stored<D> as Counted>⟧.frame stored.new
            ≡ ⟦<Stored<D> as Counted>⟧.frame stored.old }
        ensures choice { LeavesChoice (heap stored.old.space) (heap stored.new.space)
            self.old.payloads.choice self.new.payloads.choice }
        ensures ends { IfOk result (EndsUnit (way_of self.old) (way_of self.new)
            self.old.payloads.choice self.new.payloads.choice
            (heap stored.old.space) (heap stored.new.space) stored.old.root stored.new.root) }
    {
        self.leave_appends(stored);
        let progress = self.step(stored)?;
        self.leave_appends(stored);
        Ok(progress)
    }

    // Takes each big-block to which a zone appends out of the choice.
    fn leave_appends<D: Disk>(&mut self, stored: &Stored<D>)
        ensures choice { self.new.payloads.choice
            ≡ apart_from (heap stored.now.space).append self.old.payloads.choice }
        ensures way { way_of self.new ≡ way_of self.old }
    {
        let append = stored.space().append();
        for block in append.iter() {
            self.leave(*block);
        }
    }

    // Takes a big-block out of the choice, if it is there.
    fn leave(&mut self, block: u32)
        ensures choice { self.new.payloads.choice ≡ without_block block self.old.payloads.choice }
        ensures way { way_of self.new ≡ way_of self.old }
    {
        if self.has(block) {
            self.payloads.leave(block);
        }
    }

    fn has(&self, block: u32) -> bool
        ensures { IsTrue result ↔ Contains self.now.payloads.choice block }
    {
        self.choice().binary_search(&block).is_ok()
    }

    // What a unit does between the two looks at the append big-blocks.
    fn step<D: Disk>(&mut self, stored: &mut Stored<D>) -> Result<Progress, SpaceFault>
        requires balanced { Balanced (elements_told (heap stored.old.space) stored.old.root)
            (extents_in (heap stored.old.space)) }
        ensures store { DoesPart self.old.payloads.choice (D.faults stored.old.space.disk)
            (D.faults stored.new.space.disk) (heap stored.old.space) (heap stored.new.space)
            stored.old.root stored.new.root result }
        ensures frame { ⟦<Stored<D> as Counted>⟧.frame stored.new
            ≡ ⟦<Stored<D> as Counted>⟧.frame stored.old }
        ensures err { OnErr result (self.new.payloads.choice ≡ self.old.payloads.choice) }
        ensures ends { IfOk result (TakesStep (way_of self.old) (way_of self.new)
            self.old.payloads.choice self.new.payloads.choice
            (heap stored.old.space) (heap stored.new.space) stored.old.root stored.new.root) }
    {
        if self.move_one(stored)? {
            return Ok(Progress::More);
        }
        self.end(stored)?;
        Ok(Progress::Done)
    }
}
