// The end of a reblock.
ghost use Rattle.std.specs.Prelude.{◌≡◌, ℕ, [], IfErr, IfOk, IfSome, IsTrue, OnErr, OnOk};
ghost use Rattle.std.specs.List.{Contains};
ghost use Rattle.hm_types.specs.Faults.{HasStoreCause, IsCaused, IsUndamaged};
ghost use Rattle.hm_stored.specs.Space.{heap};
ghost use Rattle.hm_stored.specs.Told.{elements_told};
ghost use Rattle.hm_stored.specs.Turn.{LooksSame};
ghost use Rattle.hm_relocate.specs.Leaving.{HasNothingLive};

use crate::relocation::Relocation;
use hm_disk::Disk;
use hm_reblock::Reblock;
use hm_stored::Stored;
use hm_types::{Counted, Fault, is_pool};

impl Relocation {
    // Empties the choice, into which nothing refers any more. `NoMemory` where bytes are live there.
    pub(crate) fn end<D: Disk>(&mut self, stored: &mut Stored<D>) -> Result<(), Fault>
        ensures same { LooksSame (heap stored.old.space) (heap stored.new.space) }
        ensures rest { (stored.new.root ≡ stored.old.root) × (stored.new.space.disk ≡ stored.old.space.disk) }
        ensures frame { ⟦<Stored<D> as Counted>⟧.frame stored.new
            ≡ ⟦<Stored<D> as Counted>⟧.frame stored.old }
        ensures unused { OnOk result ((block : ℕ) → Contains self.old.payloads.choice block →
            HasNothingLive (heap stored.new.space) block) }
        ensures empty { OnOk result (self.new.payloads.choice ≡ []) }
        ensures err { OnErr result (self.new.payloads.choice ≡ self.old.payloads.choice) }
        ensures cause { HasStoreCause (elements_told (heap stored.old.space) stored.old.root)
            (D.faults stored.old.space.disk) (D.faults stored.new.space.disk) result }
    {
        if !are_unused(stored, self.payloads.choice())? {
            return Err(Fault::NoMemory);
        }
        self.payloads = Reblock::new(Vec::new(self.alloc));
        self.nodes = None;
        Ok(())
    }
}

// Whether nothing is live in any of these big-blocks.
fn are_unused<D: Disk>(stored: &mut Stored<D>, blocks: &[u32]) -> Result<bool, Fault>
    ensures ok { IfOk result (λ unused. IsTrue unused → (block : ℕ) → Contains blocks.now block →
        HasNothingLive (heap stored.new.space) block) }
    ensures same { LooksSame (heap stored.old.space) (heap stored.new.space) }
    ensures rest { (stored.new.root ≡ stored.old.root) × (stored.new.space.disk ≡ stored.old.space.disk) }
    ensures undamaged { IfSome (elements_told (heap stored.old.space) stored.old.root) (λ _.
        IfErr result IsUndamaged) }
    ensures no_media { IfErr result (IsCaused 0 0) }
{
    for block in blocks {
        if !is_unused(stored, *block)? {
            return Ok(false);
        }
    }
    Ok(true)
}

// Whether a big-block is one of the pool in which nothing is live.
fn is_unused<D: Disk>(stored: &mut Stored<D>, block: u32) -> Result<bool, Fault>
    ensures ok { IfOk result (λ unused. IsTrue unused → HasNothingLive (heap stored.new.space) block) }
    ensures same { LooksSame (heap stored.old.space) (heap stored.new.space) }
    ensures rest { (stored.new.root ≡ stored.old.root) × (stored.new.space.disk ≡ stored.old.space.disk) }
    ensures undamaged { IfSome (elements_told (heap stored.old.space) stored.old.root) (λ _.
        IfErr result IsUndamaged) }
    ensures no_media { IfErr result (IsCaused 0 0) }
{
    let bigblocks = stored.space().books().bigblocks;
    if !is_pool(bigblocks, u64::from(block)) {
        return Ok(false);
    }
    let live = stored.live_bytes(block)?;
    Ok(live == 0)
}
