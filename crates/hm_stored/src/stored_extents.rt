// The extents of payloads of a volume in use.
ghost use Rattle.std.specs.Prelude.{◌≡◌, OnOk};
ghost use Rattle.hm_types.specs.Faults.{HasAdmitCause};
ghost use Rattle.hm_key.specs.Calls.{Admission};
ghost use Rattle.hm_key.specs.Stores.{Keeps};
ghost use Rattle.hm_stored.specs.Heap.{extents_in, pages_of};
ghost use Rattle.hm_stored.specs.Space.{heap};
ghost use Rattle.hm_stored.specs.Told.{is_settled};

use crate::stored::Stored;
use hm_disk::Disk;
use hm_key::{Extents, HasElements, HasRoom};
use hm_types::{Counted, Fault, HOff, SpaceFault, Zones};

impl<D: Disk> Extents for Stored<D> {
    ghost use Rattle.hm_stored.specs.Laws.{live_told, told_together};

    ghost live = { λ s. live_told (heap s.space) s.space.kept };

    ghost together = { λ s. told_together (heap s.space) s.root };

    /// Where it gives room, each node of the tree stands where it stood, too.
    fn admit(&mut self, zones: Zones, held: u32) -> Result<(), SpaceFault>
        ensures answers { Admission ⟦<Stored<D> as HasElements>⟧.elements ⟦<Stored<D> as HasElements>⟧.mark
            ⟦<Stored<D> as HasRoom>⟧.extents ⟦<Stored<D> as HasRoom>⟧.room ⟦<Stored<D> as HasRoom>⟧.free
            zones held self.old self.new result }
        ensures keeps { Keeps ⟦<Stored<D> as HasElements>⟧.elements ⟦<Stored<D> as HasRoom>⟧.extents
            self.old self.new result }
        ensures name { ⟦<Stored<D> as Counted>⟧.name self.new ≡ ⟦<Stored<D> as Counted>⟧.name self.old }
        ensures frame { ⟦<Stored<D> as Counted>⟧.frame self.new ≡ ⟦<Stored<D> as Counted>⟧.frame self.old }
        ensures cause { HasAdmitCause (extents_in (heap self.old.space)) (D.faults self.old.space.disk)
            (D.faults self.new.space.disk) result }
        ensures nodes { OnOk result (pages_of (heap self.new.space) ≡ pages_of (heap self.old.space)) }
    {
        let admitted = self.space.admit(zones, held);
        self.space.end_change(is_settled(&admitted));
        admitted
    }

    fn fetch(&mut self, at: HOff, buf: &mut [u8]) -> Result<(), Fault> {
        self.space.fetch(at, buf)
    }

    fn place(&mut self, zone: u8, bytes: &[u8]) -> Result<HOff, Fault> {
        let placed = self.space.place(zone, bytes);
        self.space.end_change(placed.is_ok());
        placed
    }

    fn share(&mut self, at: HOff, len: u32) -> Result<(), Fault> {
        let shared = self.space.share(at, len);
        self.space.end_change(shared.is_ok());
        shared
    }

    fn give_back(&mut self, at: HOff, len: u32) -> Result<(), Fault> {
        let given = self.space.give_back(at, len);
        self.space.end_change(given.is_ok());
        given
    }
}

// Whether a call on room changed nothing half-way: zones have theirs, or there is none.
fn is_settled(admitted: &Result<(), SpaceFault>) -> bool
    ensures { result ≡ is_settled admitted.now }
{
    !matches!(admitted, Err(SpaceFault::Fault(_)))
}
