// Room for the zones that a call names.
ghost use Rattle.std.specs.Prelude.{
  ◌≡◌,
  ◌≤◌,
  ◌<◌,
  ◌+◌,
  ◌^◌,
  ◌↔◌,
  ℕ,
  List,
  Bool,
  IfOk,
  OnOk,
  IfSome,
  IfErr,
  IsSomeAnd,
  IsTrue,
  count_by,
  slice_index,
};
ghost use Rattle.hm_types.specs.Faults.{HasStoreCause};
ghost use Rattle.hm_types.specs.Layout.{IsPool};
ghost use Rattle.hm_types.specs.Space.{IfNoSpace, names_zone, reserve_of};
ghost use Rattle.hm_types.specs.Told.{BothTell};
ghost use Rattle.hm_types.specs.Zones.{bits_of};
ghost use Rattle.hm_types.specs.declared.limits.TheConstants.{LEAST_BIGBLOCKS, MOST_BIGBLOCKS};
ghost use Rattle.hm_types.specs.declared.zone.TheConstants.{TREE_ZONE, SMALL_ZONE};
ghost use Rattle.hm_freemap.specs.Admit.{
  HasAdmissionCause,
  IsAdmitted,
  IsLookedAt,
  IsRefused,
  entry_begun,
  does_lack,
  which_lack,
};
ghost use Rattle.hm_freemap.specs.Extents.{Moves};
ghost use Rattle.hm_freemap.specs.Faults.{HasFreemapCause};
ghost use Rattle.hm_freemap.specs.Places.{HasLayer2, page_of};
ghost use Rattle.hm_freemap.specs.Renew.{Begins, Renewing, lacking_count};
ghost use Rattle.hm_freemap.specs.Stand.{AreBelow, EntryPut, WhereTold, append_of, room_in};

use crate::entry::Entry;
use crate::extents::read_entry;
use crate::freemap::Freemap;
use crate::pages::{FreemapPages, put_entry, read_page};
use crate::pool_entry::bad_entry;
use crate::scan::scan;
use bitflags::Flags;
use hm_fields::{Page, State};
use hm_types::{
    BIGBLOCK_BYTES, Fault, LARGE_ZONE, META_ZONE, PAYLOAD_RESERVE, SMALL_ZONE, SpaceFault,
    TREE_RESERVE, TREE_ZONE, Zones,
};

// Whether a set names a zone, 8 to 11.
fn names(zones: Zones, zone: u8) -> bool
    ensures { result ≡ names_zone zones zone }
{
    match zone {
        TREE_ZONE => zones.contains(Zones::TREE),
        META_ZONE => zones.contains(Zones::META),
        LARGE_ZONE => zones.contains(Zones::LARGE),
        SMALL_ZONE => zones.contains(Zones::SMALL),
        _ => false,
    }
}

// How many bytes of room a call finds in a zone that it names.
fn reserve(zone: u8) -> u64
    ensures { result ≡ reserve_of zone }
{
    if zone == TREE_ZONE {
        u64::from(TREE_RESERVE)
    } else {
        u64::from(PAYLOAD_RESERVE)
    }
}

// Whether a zone is named and has less room than its reserve.
fn lacks<P: FreemapPages>(
    pages: &mut P,
    bigblocks: u32,
    append: &[u32; 4],
    zones: Zones,
    zone: u8,
) -> Result<bool, Fault>
    requires most { bigblocks ≤ MOST_BIGBLOCKS }
    requires there { HasLayer2 bigblocks (P.layer2 pages.old) }
    requires zone { (TREE_ZONE ≤ zone) × (zone ≤ SMALL_ZONE) }
    ensures ok { IfOk result (λ lacks. IfSome (P.pages pages.old) (λ map.
        lacks ≡ does_lack zones (room_in append.now map) zone)) }
    ensures same { (P.pages pages.new ≡ P.pages pages.old)
        × (P.committed pages.new ≡ P.committed pages.old)
        × (P.frozen pages.new ≡ P.frozen pages.old)
        × (P.layer2 pages.new ≡ P.layer2 pages.old) }
    ensures rest { P.rest pages.new ≡ P.rest pages.old }
    ensures name { P.name pages.new ≡ P.name pages.old }
    ensures frame { P.frame pages.new ≡ P.frame pages.old }
    ensures cause { HasFreemapCause bigblocks append.now (IsLookedAt bigblocks append.now)
        (P.committed pages.old) (P.frozen pages.old) (P.pages pages.old)
        (P.faults pages.old) (P.faults pages.new) result }
{
    if !names(zones, zone) {
        return Ok(false);
    }
    let block = u64::from(append[usize::from(zone - TREE_ZONE)]);
    let mut page = Page::zero();
    let entry = read_entry(pages, bigblocks, block, &mut page)?;
    if entry.zone != zone {
        return Err(bad_entry(block));
    }
    Ok(BIGBLOCK_BYTES.saturating_sub(u64::from(entry.append_off)) < reserve(zone))
}

// Which of the zones 8 to 11 are named and have less room than their reserve.
fn lacking<P: FreemapPages>(
    pages: &mut P,
    bigblocks: u32,
    append: &[u32; 4],
    zones: Zones,
) -> Result<[bool; 4], Fault>
    requires most { bigblocks ≤ MOST_BIGBLOCKS }
    requires there { HasLayer2 bigblocks (P.layer2 pages.old) }
    ensures ok { IfOk result (λ all. IfSome (P.pages pages.old) (λ map.
        all ≡ which_lack zones (room_in append.now map))) }
    ensures same { (P.pages pages.new ≡ P.pages pages.old)
        × (P.committed pages.new ≡ P.committed pages.old)
        × (P.frozen pages.new ≡ P.frozen pages.old)
        × (P.layer2 pages.new ≡ P.layer2 pages.old) }
    ensures rest { P.rest pages.new ≡ P.rest pages.old }
    ensures name { P.name pages.new ≡ P.name pages.old }
    ensures frame { P.frame pages.new ≡ P.frame pages.old }
    ensures cause { HasFreemapCause bigblocks append.now (IsLookedAt bigblocks append.now)
        (P.committed pages.old) (P.frozen pages.old) (P.pages pages.old)
        (P.faults pages.old) (P.faults pages.new) result }
{
    let tree = lacks(pages, bigblocks, append, zones, TREE_ZONE)?;
    let meta = lacks(pages, bigblocks, append, zones, META_ZONE)?;
    let large = lacks(pages, bigblocks, append, zones, LARGE_ZONE)?;
    let small = lacks(pages, bigblocks, append, zones, SMALL_ZONE)?;
    Ok([tree, meta, large, small])
}

// How many of four are true.
fn count(lacking: &[bool; 4]) -> u32
    ensures value { result ≡ count_by (λ lacks. lacks) lacking.now }
    ensures few { result ≤ 4 }
{
    u32::from(lacking[0]) + u32::from(lacking[1]) + u32::from(lacking[2]) + u32::from(lacking[3])
}

// Puts the entry of a big-block that a zone begins to append to.
fn begin<P: FreemapPages>(pages: &mut P, block: u64, zone: u8) -> Result<(), Fault>
    requires block { block < 2 ^ 32 }
    requires there { IsTrue (P.layer2 pages.old (page_of block)) }
    ensures ok { OnOk result (BothTell (P.pages pages.old) (P.pages pages.new)
        (EntryPut block (entry_begun zone))) }
    ensures same { (P.committed pages.new ≡ P.committed pages.old)
        × (P.frozen pages.new ≡ P.frozen pages.old)
        × (P.layer2 pages.new ≡ P.layer2 pages.old) }
    ensures rest { P.rest pages.new ≡ P.rest pages.old }
    ensures name { P.name pages.new ≡ P.name pages.old }
    ensures frame { P.frame pages.new ≡ P.frame pages.old }
    ensures cause { HasStoreCause (P.pages pages.old)
        (P.faults pages.old) (P.faults pages.new) result }
{
    let mut page = Page::zero();
    read_page(pages, State::Current, block, &mut page)?;
    put_entry(pages, block, &Entry::begun(zone), &mut page)
}

// Lets a zone begin a big-block, where it lacks room.
fn renew_one<P: FreemapPages>(
    pages: &mut P,
    bigblocks: u32,
    append: &mut [u32; 4],
    k: usize,
    lacks: bool,
    block: u32,
) -> Result<(), Fault>
    requires place { k < 4 }
    requires block { block < bigblocks }
    requires there { HasLayer2 bigblocks (P.layer2 pages.old) }
    ensures ok { OnOk result (BothTell (P.pages pages.old) (P.pages pages.new)
        (Begins lacks k block append.old append.new)) }
    ensures below { AreBelow bigblocks append.old → AreBelow bigblocks append.new }
    ensures same { (P.committed pages.new ≡ P.committed pages.old)
        × (P.frozen pages.new ≡ P.frozen pages.old)
        × (P.layer2 pages.new ≡ P.layer2 pages.old) }
    ensures rest { P.rest pages.new ≡ P.rest pages.old }
    ensures name { P.name pages.new ≡ P.name pages.old }
    ensures frame { P.frame pages.new ≡ P.frame pages.old }
    ensures cause { HasStoreCause (P.pages pages.old)
        (P.faults pages.old) (P.faults pages.new) result }
{
    if !lacks {
        return Ok(());
    }
    begin(pages, u64::from(block), TREE_ZONE + k as u8)?;
    append[k] = block;
    Ok(())
}

// Lets each of the zones that lack room begin the next of these big-blocks.
fn renew<P: FreemapPages>(
    pages: &mut P,
    bigblocks: u32,
    append: &mut [u32; 4],
    lacking: &[bool; 4],
    fresh: &[u32; 4],
) -> Result<(), Fault>
    requires below { AreBelow bigblocks append.old }
    requires fresh { AreBelow bigblocks fresh.now }
    requires there { HasLayer2 bigblocks (P.layer2 pages.old) }
    ensures ok { OnOk result (BothTell (P.pages pages.old) (P.pages pages.new)
        (Renewing lacking.now fresh.now 4 (lacking_count lacking.now) append.old append.new)) }
    ensures below { AreBelow bigblocks append.new }
    ensures same { (P.committed pages.new ≡ P.committed pages.old)
        × (P.frozen pages.new ≡ P.frozen pages.old)
        × (P.layer2 pages.new ≡ P.layer2 pages.old) }
    ensures rest { P.rest pages.new ≡ P.rest pages.old }
    ensures name { P.name pages.new ≡ P.name pages.old }
    ensures frame { P.frame pages.new ≡ P.frame pages.old }
    ensures cause { HasStoreCause (P.pages pages.old)
        (P.faults pages.old) (P.faults pages.new) result }
{
    let mut next = 0;
    for k in 0..4 {
        renew_one(pages, bigblocks, append, k, lacking[k], fresh[next])?;
        next += usize::from(lacking[k]);
    }
    Ok(())
}

impl<P: FreemapPages> Freemap<P> {
    /// Lets each named zone have room of at least its reserve: 1,048,576 bytes in zone 8, and
    /// 131,072 bytes in the zones 9, 10 and 11. A zone that has less room begins a free big-block:
    /// in the order of zones, each the lowest one that no zone before it began. `NoSpace` exactly
    /// where more zones need one than are free after `held` of them were held back; nothing changed
    /// then.
    ///
    /// It looks at the append big-blocks of the named zones, and at others only where one needs a
    /// new one: then at the lowest ones, until it has found those that are needed and held back.
    pub fn admit(&mut self, zones: Zones, held: u32) -> Result<(), SpaceFault>
        ensures ok { OnOk result (Moves (P.committed self.old.pages) (P.frozen self.old.pages)
            (P.pages self.old.pages) (P.pages self.new.pages)
            (IsAdmitted self.old.bigblocks zones held self.old.append self.new.append)) }
        ensures refused { IfErr result (IfNoSpace (λ free needed.
            (self.new.append ≡ self.old.append)
            × Moves (P.committed self.old.pages) (P.frozen self.old.pages)
            (P.pages self.old.pages) (P.pages self.new.pages) (λ maps now.
            IsRefused self.old.bigblocks zones held self.old.append maps now free needed))) }
        ensures same { (P.rest self.new.pages ≡ P.rest self.old.pages)
            × (self.new.bigblocks ≡ self.old.bigblocks) }
        ensures name { P.name self.new.pages ≡ P.name self.old.pages }
        ensures frame { P.frame self.new.pages ≡ P.frame self.old.pages }
        ensures cause { HasAdmissionCause self.old.bigblocks self.old.append
            (P.committed self.old.pages) (P.frozen self.old.pages) (P.pages self.old.pages)
            (P.faults self.old.pages) (P.faults self.new.pages) result }
    {
        let lacking = lacking(&mut self.pages, self.bigblocks, &self.append, zones)?;
        let needed = count(&lacking);
        if needed == 0 {
            return Ok(());
        }
        let wanted = needed.saturating_add(held);
        let found = scan(&mut self.pages, self.bigblocks, &self.append, wanted)?;
        if found.count < wanted {
            return Err(SpaceFault::NoSpace {
                free: found.count,
                needed,
            });
        }
        renew(
            &mut self.pages,
            self.bigblocks,
            &mut self.append,
            &lacking,
            &found.first,
        )?;
        Ok(())
    }
}
