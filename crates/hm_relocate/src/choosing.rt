// The big-blocks that a reblock chooses.
ghost use Rattle.std.specs.Prelude.{◌≡◌, ◌≤◌, ℕ, IfErr, IfOk, pos};
ghost use Rattle.hm_types.specs.Faults.{IsCaused};
ghost use Rattle.hm_types.specs.Layout.{IsPool};
ghost use Rattle.hm_freemap.specs.Faults.{IsFreemapDamage};
ghost use Rattle.hm_stored.specs.Heap.{maps_of};
ghost use Rattle.hm_stored.specs.Space.{heap};
ghost use Rattle.hm_stored.specs.Turn.{LooksSame};
ghost use Rattle.hm_relocate.specs.Chosen.{Chooses, TellsChosen, is_sparse};

use hm_disk::Disk;
use hm_stored::Stored;
use hm_types::{BIGBLOCK_BYTES, Fault, first_pool};
use std::alloc::Global;

/// The big-blocks that a reblock with this fill chooses, in hundredths, 1 to 100: those of the pool to
/// which no zone appends, and whose live bytes in the current state are more than 0 and fewer than so
/// many hundredths of 8,388,608. Their numbers rise. It reads one page for each big-block of the pool,
/// and changes nothing. Damage is told only of an entry that is none of its big-block, and `NoMemory`
/// where memory for the numbers was refused, or where a change of the open call has failed.
pub fn choose<D: Disk>(alloc: Global, stored: &mut Stored<D>, fill: u8) -> Result<Vec<u32>, Fault>
    ensures ok { IfOk result (λ chosen. Chooses fill stored.old.space.books.bigblocks
        stored.old.space.books.append (maps_of (heap stored.old.space)) chosen.items) }
    ensures same { LooksSame (heap stored.old.space) (heap stored.new.space) }
    ensures rest { (stored.new.root ≡ stored.old.root) × (stored.new.space.disk ≡ stored.old.space.disk) }
    ensures cause { IfErr result (IsFreemapDamage stored.old.space.books.bigblocks
        stored.old.space.books.append (IsPool stored.old.space.books.bigblocks)
        (maps_of (heap stored.old.space))) }
    ensures no_media { IfErr result (IsCaused 0 0) }
{
    let bigblocks = stored.space().books().bigblocks;
    let mut chosen = Vec::new(alloc);
    for block in first_pool(bigblocks)..bigblocks {
        if is_chosen(stored, block, fill)? {
            chosen.push(block)?;
        }
    }
    Ok(chosen)
}

// Whether a reblock chooses a big-block of the pool.
fn is_chosen<D: Disk>(stored: &mut Stored<D>, block: u32, fill: u8) -> Result<bool, Fault>
    ensures ok { IfOk result (TellsChosen fill stored.old.space.books.bigblocks
        stored.old.space.books.append (maps_of (heap stored.old.space)) block) }
    ensures same { LooksSame (heap stored.old.space) (heap stored.new.space) }
    ensures rest { (stored.new.root ≡ stored.old.root) × (stored.new.space.disk ≡ stored.old.space.disk) }
    ensures cause { IfErr result (IsFreemapDamage stored.old.space.books.bigblocks
        stored.old.space.books.append (λ one. one ≡ block) (maps_of (heap stored.old.space))) }
    ensures no_media { IfErr result (IsCaused 0 0) }
{
    if stored.is_append(block) {
        return Ok(false);
    }
    let live = stored.live_bytes(block)?;
    Ok(is_sparse(live, fill))
}

// Whether so many live bytes are some, and fewer than so many hundredths of a big-block.
fn is_sparse(live: i64, fill: u8) -> bool
    ensures { (bytes : ℕ) → live ≡ pos bytes → result ≡ is_sparse fill bytes }
{
    let most = (u64::from(fill) * BIGBLOCK_BYTES).div_ceil(100);
    match u64::try_from(live) {
        Ok(live) => 0 < live && live < most,
        Err(_) => false,
    }
}
