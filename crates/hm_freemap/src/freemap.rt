// The freemap of a volume.
ghost use Rattle.std.specs.Prelude.{◌≡◌, ◌≤◌, ◌<◌, ℕ, slice_index};
ghost use Rattle.std.proofs.Props.{props};
ghost use Rattle.hm_types.specs.declared.limits.TheConstants.{LEAST_BIGBLOCKS, MOST_BIGBLOCKS};
ghost use Rattle.hm_freemap.specs.Places.{HasLayer2};
ghost use Rattle.hm_freemap.specs.Stand.{AreBelow};

use crate::pages::{FreemapPages, read_page};
use crate::pool_entry::{bad_entry, pool_entry};
use crate::scan::scan;
use hm_fields::{Page, State};
use hm_types::{BIGBLOCK_BYTES, Fault, is_pool};

/// Which big-blocks of the pool are free, and how far the others are filled, over pages in three
/// states. It changes entries of the current state alone, and keeps none of them in memory.
///
/// After an error of a call that writes, nothing is known of the pages.
#[derive(Drop)]
pub struct Freemap<P: FreemapPages> {
    pub(crate) pages: P,
    pub(crate) bigblocks: u32,
    // The append big-blocks of the zones 8 to 11.
    pub(crate) append: [u32; 4],
    ghost least: { LEAST_BIGBLOCKS ≤ bigblocks },
    ghost most: { bigblocks ≤ MOST_BIGBLOCKS },
    ghost below: { AreBelow bigblocks append } by { Prim.hlevel props },
    ghost there: { HasLayer2 bigblocks (P.layer2 pages) } by { Prim.hlevel props },
}

impl<P: FreemapPages> Freemap<P> {
    ghost use Rattle.std.specs.Prelude.{IfOk, OnOk};
    ghost use Rattle.hm_types.specs.Layout.{IsPool};
    ghost use Rattle.hm_freemap.specs.Faults.{HasFreemapCause};
    ghost use Rattle.hm_freemap.specs.Stand.{WhereTold};
    ghost use Rattle.hm_freemap.specs.Calls.{CountsFree, IsLive};

    /// The freemap of a volume of `bigblocks`, from 24 to 1,048,576, whose zones 8 to 11 append to
    /// these big-blocks. Each page of layer 2 must be there. It takes no memory.
    pub fn over(pages: P, bigblocks: u32, append: [u32; 4]) -> Freemap<P>
        requires least { LEAST_BIGBLOCKS ≤ bigblocks }
        requires most { bigblocks ≤ MOST_BIGBLOCKS }
        requires below { AreBelow bigblocks append }
        requires there { HasLayer2 bigblocks (P.layer2 pages) }
        ensures pages { result.pages ≡ pages }
        ensures bigblocks { result.bigblocks ≡ bigblocks }
        ensures append { result.append ≡ append }
    {
        Freemap {
            pages,
            bigblocks,
            append,
        }
    }

    /// The pages, and the big-blocks that the zones 8 to 11 append to. A freemap can be made over them
    /// again. It takes no memory.
    pub fn into_parts(self) -> (P, [u32; 4])
        ensures pages { result.0 ≡ self.pages }
        ensures append { result.1 ≡ self.append }
        ensures below { AreBelow self.bigblocks result.1 }
        ensures there { HasLayer2 self.bigblocks (P.layer2 result.0) }
    {
        let Freemap {
            pages,
            bigblocks: _,
            append,
        } = self;
        (pages, append)
    }

    /// How many big-blocks are free: those of the pool that no zone appends to and in which nothing
    /// is live in any of the three states. It reads each page of layer 2 once a state.
    pub fn free_blocks(&mut self) -> Result<u32, Fault>
        ensures ok { IfOk result (λ free.
            WhereTold (P.committed self.old.pages) (P.frozen self.old.pages)
            (P.pages self.old.pages) (λ maps.
            CountsFree self.old.bigblocks self.old.append maps free)) }
        ensures same { (P.pages self.new.pages ≡ P.pages self.old.pages)
            × (P.rest self.new.pages ≡ P.rest self.old.pages)
            × (self.new.append ≡ self.old.append) }
        ensures bigblocks { self.new.bigblocks ≡ self.old.bigblocks }
        ensures name { P.name self.new.pages ≡ P.name self.old.pages }
        ensures frame { P.frame self.new.pages ≡ P.frame self.old.pages }
        ensures cause { HasFreemapCause self.old.bigblocks self.old.append
            (IsPool self.old.bigblocks)
            (P.committed self.old.pages) (P.frozen self.old.pages) (P.pages self.old.pages)
            (P.faults self.old.pages) (P.faults self.new.pages) result }
    {
        let found = scan(
            &mut self.pages,
            self.bigblocks,
            &self.append,
            self.bigblocks,
        )?;
        Ok(found.count)
    }

    /// How many bytes of a big-block of the pool are live in the current state, each as often as it
    /// is referred to. Of another big-block it tells damage.
    pub fn live_bytes(&mut self, block: u32) -> Result<i64, Fault>
        ensures ok { IfOk result (λ live.
            WhereTold (P.committed self.old.pages) (P.frozen self.old.pages)
            (P.pages self.old.pages) (λ maps.
            IsLive self.old.bigblocks self.old.append maps block live)) }
        ensures same { (P.pages self.new.pages ≡ P.pages self.old.pages)
            × (P.rest self.new.pages ≡ P.rest self.old.pages)
            × (self.new.append ≡ self.old.append) }
        ensures bigblocks { self.new.bigblocks ≡ self.old.bigblocks }
        ensures name { P.name self.new.pages ≡ P.name self.old.pages }
        ensures frame { P.frame self.new.pages ≡ P.frame self.old.pages }
        ensures cause { HasFreemapCause self.old.bigblocks self.old.append (λ one. one ≡ block)
            (P.committed self.old.pages) (P.frozen self.old.pages) (P.pages self.old.pages)
            (P.faults self.old.pages) (P.faults self.new.pages) result }
    {
        let block = u64::from(block);
        if !is_pool(self.bigblocks, block) {
            return Err(bad_entry(block));
        }
        let mut page = Page::zero();
        read_page(&mut self.pages, State::Current, block, &mut page)?;
        match pool_entry(&page, block) {
            Some(entry) => Ok(BIGBLOCK_BYTES as i64 - i64::from(entry.bytes_free)),
            None => Err(bad_entry(block)),
        }
    }
}
