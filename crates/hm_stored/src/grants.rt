// A freemap over lent pages, for one call each.
ghost use Rattle.std.specs.Prelude.{◌≡◌, ◌≤◌, IfOk, OnOk, IfErr};
ghost use Rattle.hm_types.specs.Layout.{IsPool, block_of};
ghost use Rattle.hm_types.specs.Offset.{byte_of};
ghost use Rattle.hm_types.specs.Space.{IfNoSpace, rounded};
ghost use Rattle.hm_types.specs.declared.limits.TheConstants.{LEAST_BIGBLOCKS, MOST_BIGBLOCKS};
ghost use Rattle.hm_freemap.specs.Admit.{HasAdmissionCause, IsAdmitted, IsRefused};
ghost use Rattle.hm_freemap.specs.Calls.{CountsFree, IsLive};
ghost use Rattle.hm_freemap.specs.Change.{given, shared};
ghost use Rattle.hm_freemap.specs.Extents.{Changes, IsReferred, IsShareable, Moves, Takes};
ghost use Rattle.hm_freemap.specs.Extents.{reference, referred, unreferred};
ghost use Rattle.hm_freemap.specs.Faults.{HasExtentCause, HasFreemapCause};
ghost use Rattle.hm_freemap.specs.Places.{HasLayer2};
ghost use Rattle.hm_freemap.specs.Stand.{AreBelow, WhereTold, append_of, room};

use hm_freemap::{Freemap, FreemapPages};
use hm_types::{Fault, HOff, SpaceFault, Zones};

/// Takes a new extent of `len` bytes in a zone, which must have room for it.
pub(crate) fn take<P: FreemapPages>(
    pages: &mut P,
    bigblocks: u32,
    append: [u32; 4],
    zone: u8,
    len: u32,
) -> Result<HOff, Fault>
    requires size { (LEAST_BIGBLOCKS ≤ bigblocks) × (bigblocks ≤ MOST_BIGBLOCKS) }
    requires below { AreBelow bigblocks append }
    requires there { HasLayer2 bigblocks (P.layer2 pages.old) }
    requires some { 1 ≤ len }
    requires room { rounded len ≤ room append (P.pages pages.old) zone }
    ensures ok { IfOk result (λ at. Moves (P.committed pages.old) (P.frozen pages.old)
        (P.pages pages.old) (P.pages pages.new) (Takes bigblocks append zone len at)) }
    ensures rest { P.rest pages.new ≡ P.rest pages.old }
    ensures frame { P.frame pages.new ≡ P.frame pages.old }
    ensures cause { HasFreemapCause bigblocks append (λ one. one ≡ append_of append zone)
        (P.committed pages.old) (P.frozen pages.old) (P.pages pages.old)
        (P.faults pages.old) (P.faults pages.new) result }
{
    let mut map = Freemap::over(pages, bigblocks, append);
    let answer = map.take_extent(zone, len);
    let (last, _append) = map.into_parts();
    let _there = last;
    answer
}

/// Takes one reference off an extent that is live in the current state.
pub(crate) fn give<P: FreemapPages>(
    pages: &mut P,
    bigblocks: u32,
    append: [u32; 4],
    at: HOff,
    len: u32,
) -> Result<(), Fault>
    requires size { (LEAST_BIGBLOCKS ≤ bigblocks) × (bigblocks ≤ MOST_BIGBLOCKS) }
    requires below { AreBelow bigblocks append }
    requires there { HasLayer2 bigblocks (P.layer2 pages.old) }
    ensures ok { OnOk result (Moves (P.committed pages.old) (P.frozen pages.old)
        (P.pages pages.old) (P.pages pages.new)
        (Changes bigblocks append (reference at len) (IsReferred (reference at len))
        (unreferred (reference at len)) (given (rounded len)))) }
    ensures rest { P.rest pages.new ≡ P.rest pages.old }
    ensures frame { P.frame pages.new ≡ P.frame pages.old }
    ensures cause { HasExtentCause bigblocks append (block_of (byte_of at)) (rounded len)
        (P.committed pages.old) (P.frozen pages.old) (P.pages pages.old)
        (P.faults pages.old) (P.faults pages.new) result }
{
    let mut map = Freemap::over(pages, bigblocks, append);
    let answer = map.give_extent(at, len);
    let (last, _append) = map.into_parts();
    let _there = last;
    answer
}

/// Adds one reference to an extent that is live in the current state with fewer than 64.
pub(crate) fn share<P: FreemapPages>(
    pages: &mut P,
    bigblocks: u32,
    append: [u32; 4],
    at: HOff,
    len: u32,
) -> Result<(), Fault>
    requires size { (LEAST_BIGBLOCKS ≤ bigblocks) × (bigblocks ≤ MOST_BIGBLOCKS) }
    requires below { AreBelow bigblocks append }
    requires there { HasLayer2 bigblocks (P.layer2 pages.old) }
    ensures ok { OnOk result (Moves (P.committed pages.old) (P.frozen pages.old)
        (P.pages pages.old) (P.pages pages.new)
        (Changes bigblocks append (reference at len) (IsShareable (reference at len))
        (referred (reference at len)) (shared (rounded len)))) }
    ensures rest { P.rest pages.new ≡ P.rest pages.old }
    ensures frame { P.frame pages.new ≡ P.frame pages.old }
    ensures cause { HasExtentCause bigblocks append (block_of (byte_of at)) (rounded len)
        (P.committed pages.old) (P.frozen pages.old) (P.pages pages.old)
        (P.faults pages.old) (P.faults pages.new) result }
{
    let mut map = Freemap::over(pages, bigblocks, append);
    let answer = map.share_extent(at, len);
    let (last, _append) = map.into_parts();
    let _there = last;
    answer
}

/// Lets each named zone have room of at least its reserve, while so many big-blocks are held back,
/// and answers the append big-blocks then.
pub(crate) fn admit<P: FreemapPages>(
    pages: &mut P,
    bigblocks: u32,
    append: [u32; 4],
    zones: Zones,
    held: u32,
) -> Result<[u32; 4], SpaceFault>
    requires size { (LEAST_BIGBLOCKS ≤ bigblocks) × (bigblocks ≤ MOST_BIGBLOCKS) }
    requires below { AreBelow bigblocks append }
    requires there { HasLayer2 bigblocks (P.layer2 pages.old) }
    ensures ok { IfOk result (λ then. AreBelow bigblocks then
        × Moves (P.committed pages.old) (P.frozen pages.old) (P.pages pages.old) (P.pages pages.new)
        (IsAdmitted bigblocks zones held append then)) }
    ensures no_space { IfErr result (IfNoSpace (λ free needed.
        Moves (P.committed pages.old) (P.frozen pages.old) (P.pages pages.old) (P.pages pages.new)
        (λ maps now. IsRefused bigblocks zones held append maps now free needed))) }
    ensures rest { P.rest pages.new ≡ P.rest pages.old }
    ensures frame { P.frame pages.new ≡ P.frame pages.old }
    ensures cause { HasAdmissionCause bigblocks append
        (P.committed pages.old) (P.frozen pages.old) (P.pages pages.old)
        (P.faults pages.old) (P.faults pages.new) result }
{
    let mut map = Freemap::over(pages, bigblocks, append);
    let answer = map.admit(zones, held);
    let (last, then) = map.into_parts();
    let _there = last;
    match answer {
        Ok(()) => Ok(then),
        Err(fault) => Err(fault),
    }
}

/// How many big-blocks are free.
pub(crate) fn count_free<P: FreemapPages>(
    pages: &mut P,
    bigblocks: u32,
    append: [u32; 4],
) -> Result<u32, Fault>
    requires size { (LEAST_BIGBLOCKS ≤ bigblocks) × (bigblocks ≤ MOST_BIGBLOCKS) }
    requires below { AreBelow bigblocks append }
    requires there { HasLayer2 bigblocks (P.layer2 pages.old) }
    ensures ok { IfOk result (λ free. WhereTold (P.committed pages.old) (P.frozen pages.old)
        (P.pages pages.old) (λ maps. CountsFree bigblocks append maps free)) }
    ensures same { (P.pages pages.new ≡ P.pages pages.old) × (P.rest pages.new ≡ P.rest pages.old) }
    ensures frame { P.frame pages.new ≡ P.frame pages.old }
    ensures cause { HasFreemapCause bigblocks append (IsPool bigblocks)
        (P.committed pages.old) (P.frozen pages.old) (P.pages pages.old)
        (P.faults pages.old) (P.faults pages.new) result }
{
    let mut map = Freemap::over(pages, bigblocks, append);
    let answer = map.free_blocks();
    let (last, _append) = map.into_parts();
    let _there = last;
    answer
}

/// How many bytes of a big-block of the pool are live in the current state.
pub(crate) fn count_live<P: FreemapPages>(
    pages: &mut P,
    bigblocks: u32,
    append: [u32; 4],
    block: u32,
) -> Result<i64, Fault>
    requires size { (LEAST_BIGBLOCKS ≤ bigblocks) × (bigblocks ≤ MOST_BIGBLOCKS) }
    requires below { AreBelow bigblocks append }
    requires there { HasLayer2 bigblocks (P.layer2 pages.old) }
    ensures ok { IfOk result (λ live. WhereTold (P.committed pages.old) (P.frozen pages.old)
        (P.pages pages.old) (λ maps. IsLive bigblocks append maps block live)) }
    ensures same { (P.pages pages.new ≡ P.pages pages.old) × (P.rest pages.new ≡ P.rest pages.old) }
    ensures frame { P.frame pages.new ≡ P.frame pages.old }
    ensures cause { HasFreemapCause bigblocks append (λ one. one ≡ block)
        (P.committed pages.old) (P.frozen pages.old) (P.pages pages.old)
        (P.faults pages.old) (P.faults pages.new) result }
{
    let mut map = Freemap::over(pages, bigblocks, append);
    let answer = map.live_bytes(block);
    let (last, _append) = map.into_parts();
    let _there = last;
    answer
}
