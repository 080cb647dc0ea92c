// Pages of layer 2, in the three states of a store of pages.
ghost use Rattle.std.specs.Prelude.{◌≡◌, ◌<◌, ◌+◌, ◌^◌, ℕ, List, Some, IfSome, IfErr, OnOk, IsTrue, length};
ghost use Rattle.hm_types.specs.Faults.{HasFaultCause, HasStoreCause, IsUndamaged};
ghost use Rattle.hm_types.specs.Offset.{zone_of};
ghost use Rattle.hm_types.specs.Told.{BothTell};
ghost use Rattle.hm_types.specs.declared.zone.TheConstants.{FREEMAP_ZONE};
ghost use Rattle.hm_fields.specs.States.{map_of};
ghost use Rattle.hm_freemap.specs.Places.{page_of};
ghost use Rattle.hm_freemap.specs.Stand.{EntryPut};

use crate::entry::Entry;
use crate::place::{page_of, place_of};
use hm_fields::{Page, State, States};
use hm_types::Fault;

/// Pages in three states of which nothing is asked in the zone of the freemap: any page may be put
/// there.
pub trait FreemapPages: States {
    /// Any page may stand there.
    ghost freemap_is_kept: { (at : ℕ) (bytes : List ℕ) → zone_of at ≡ FREEMAP_ZONE →
        Self.kept at bytes };
}

impl<P: FreemapPages> FreemapPages for &mut P {
    ghost freemap_is_kept = { P.freemap_is_kept };
}

// Reads the page with the entry of a big-block, as it stands in one of the states.
pub(crate) fn read_page<P: FreemapPages>(
    pages: &mut P,
    state: State,
    block: u64,
    into: &mut Page,
) -> Result<(), Fault>
    requires block { block < 2 ^ 32 }
    requires there { IsTrue (P.layer2 pages.old (page_of block)) }
    ensures ok { OnOk result (IfSome
        (map_of (P.committed pages.old) (P.frozen pages.old) (P.pages pages.old) state)
        (λ map. map (page_of block) ≡ Some into.new)) }
    ensures same { (P.pages pages.new ≡ P.pages pages.old)
        × (P.committed pages.new ≡ P.committed pages.old)
        × (P.frozen pages.new ≡ P.frozen pages.old)
        × (P.layer2 pages.new ≡ P.layer2 pages.old) }
    ensures rest { P.rest pages.new ≡ P.rest pages.old }
    ensures name { P.name pages.new ≡ P.name pages.old }
    ensures frame { P.frame pages.new ≡ P.frame pages.old }
    ensures counted { HasFaultCause (P.faults pages.old) (P.faults pages.new) result }
    ensures undamaged { IfSome
        (map_of (P.committed pages.old) (P.frozen pages.old) (P.pages pages.old) state)
        (λ _. IfErr result IsUndamaged) }
{
    pages.page_in(state, page_of(block), into)
}

// Puts an entry in place of that of a big-block, into the page that was read.
pub(crate) fn put_entry<P: FreemapPages>(
    pages: &mut P,
    block: u64,
    entry: &Entry,
    page: &mut Page,
) -> Result<(), Fault>
    requires block { block < 2 ^ 32 }
    requires read { IfSome (P.pages pages.old) (λ map. map (page_of block) ≡ Some page.old) }
    ensures ok { OnOk result (BothTell (P.pages pages.old) (P.pages pages.new)
        (EntryPut block entry.now)) }
    ensures same { (P.committed pages.new ≡ P.committed pages.old)
        × (P.frozen pages.new ≡ P.frozen pages.old)
        × (P.layer2 pages.new ≡ P.layer2 pages.old) }
    ensures rest { P.rest pages.new ≡ P.rest pages.old }
    ensures name { P.name pages.new ≡ P.name pages.old }
    ensures frame { P.frame pages.new ≡ P.frame pages.old }
    ensures cause { HasStoreCause (P.pages pages.old) (P.faults pages.old) (P.faults pages.new) result }
{
    // Says how long the page is that was read.
    let _sized = page.bytes();
    entry.write(page, place_of(block));
    pages.change(page_of(block), page)
}
