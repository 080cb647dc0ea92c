// A flush of a space, stage by stage, between two calls.
ghost use Rattle.hm_types.specs.Told.{BothTell};
ghost use Rattle.hm_freemap.specs.Places.{HasLayer2};
ghost use Rattle.hm_pages.specs.Store.{contents, layer2};
ghost use Rattle.hm_flush.specs.Calls.{HasStageCause, IsTarget};
ghost use Rattle.hm_flush.specs.Ends.{StageTells};
ghost use Rattle.hm_stored.specs.Flushed.{AreSoundPages, FlushesSpace, IsFlushedBy};
ghost use Rattle.hm_stored.specs.Held.{AreOnlyOf};
ghost use Rattle.hm_stored.specs.Space.{heap};
ghost use Rattle.std.specs.Prelude.{◌≡◌};

use crate::space::Space;
use crate::stored::Stored;
use hm_disk::Disk;
use hm_flush::{Flusher, Stage};
use hm_header::Header;
use hm_pages::{PageStore, pages_are_bytes, store_is_sound};
use hm_types::Fault;

impl<D: Disk> Space<D> {
    /// Makes the stage of a flush that is due, and answers which. Where none is in flight this is Freeze,
    /// which begins one with the state of now: `now` is its header. No call may be open. After a fault
    /// all is as before but for the range of the disk that the stage writes: `Media` where the disk
    /// failed, and at Freeze `NoMemory`.
    pub fn flush_stage(&mut self, flusher: &mut Flusher, now: &Header) -> Result<Stage, Fault>
        requires now { IsTarget flusher.old now.now }
        requires ready { IsFlushedBy flusher.old (heap self.old) }
        ensures ends { FlushesSpace now.now flusher.old flusher.new (heap self.old) (heap self.new) result }
        ensures disk { BothTell (heap self.old).disk (heap self.new).disk
            (StageTells flusher.old flusher.new (heap self.old).pages (heap self.new).pages result
            (D.left_since self.old.disk) (D.left_since self.new.disk)) }
        ensures ready { IsFlushedBy flusher.new (heap self.new) }
        ensures cause { HasStageCause flusher.old.at (D.faults self.old.disk) (D.faults self.new.disk) result }
    {
        flusher.flush_is_sound();
        pages_are_sound(self.books.bigblocks, &self.pages.store);
        let stage = flusher.stage(&mut self.pages.store, &mut self.disk, now)?;
        pages_are_sound(self.books.bigblocks, &self.pages.store);
        self.books.roots = self.books.roots.moved(stage, now);
        Ok(stage)
    }
}

// Does nothing, and says what always holds of pages that have entries of layer 2 for so many big-blocks, and
// are of a volume of so many.
fn pages_are_sound(bigblocks: u32, pages: &PageStore)
    requires layer2 { HasLayer2 bigblocks (layer2 (contents pages.now)) }
    requires only { AreOnlyOf bigblocks (contents pages.now).current }
    ensures { AreSoundPages bigblocks (contents pages.now) }
{
    let _ = bigblocks;
    store_is_sound(pages);
    pages_are_bytes(pages);
}

impl<D: Disk> Stored<D> {
    /// The same, of the space of this store.
    pub fn flush_stage(&mut self, flusher: &mut Flusher, now: &Header) -> Result<Stage, Fault>
        requires now { IsTarget flusher.old now.now }
        requires ready { IsFlushedBy flusher.old (heap self.old.space) }
        ensures ends { FlushesSpace now.now flusher.old flusher.new (heap self.old.space)
            (heap self.new.space) result }
        ensures disk { BothTell (heap self.old.space).disk (heap self.new.space).disk
            (StageTells flusher.old flusher.new (heap self.old.space).pages (heap self.new.space).pages result
            (D.left_since self.old.space.disk) (D.left_since self.new.space.disk)) }
        ensures ready { IsFlushedBy flusher.new (heap self.new.space) }
        ensures root { self.new.root ≡ self.old.root }
        ensures cause { HasStageCause flusher.old.at (D.faults self.old.space.disk)
            (D.faults self.new.space.disk) result }
    {
        self.space.flush_stage(flusher, now)
    }
}
