// Reblocks that are run to their end over a store that tells its room.
ghost use Rattle.std.specs.Prelude.{◌≡◌, IfOk};
ghost use Rattle.hm_types.specs.Space.{IsPayloadZone};
ghost use Rattle.hm_key.specs.Balance.{Balanced};

use hm_key::{
    Base, DIRECTORY_ENTRY, ELEMENT, ElementStore, Extents, HasElements, HasRoom, Job, OTHER_PART,
    Progress,
};
use hm_reblock::Reblock;
use hm_types::{Fault, Obj, PAYLOAD_RESERVE};

/// A store that tells the room of a zone.
pub(crate) trait Roomy: ElementStore + Extents {
    fn zone_room(&self, zone: u8) -> u64
        requires { IsPayloadZone zone }
        ensures { result ≡ Self.room self.now zone };
}

/// The entry of a directory under a key.
pub(crate) fn entry(key: u64) -> Base
    ensures { result.create ≡ 5 }
{
    Base {
        obj: Obj(2),
        key,
        create: 5,
        delete: 0,
        rec_type: DIRECTORY_ENTRY,
        obj_type: 1,
        btype: ELEMENT,
        localization: 7 * 65_536 + u32::from(OTHER_PART),
    }
}

/// Does one unit, and says whether the reblock is done. None where nothing was left before it.
pub(crate) fn step<T: Roomy>(job: &mut Reblock, store: &mut T) -> Result<Option<Progress>, Fault>
    requires { Balanced (T.elements store.old) (T.extents store.old) }
    ensures { IfOk result (λ _. Balanced (T.elements store.new) (T.extents store.new)) }
{
    let Some(zone) = job.next_zone(store)? else {
        return Ok(None);
    };
    if store.zone_room(zone) < u64::from(PAYLOAD_RESERVE) {
        return Err(Fault::NoMemory);
    }
    let progress = job.unit(store)?;
    Ok(Some(progress))
}

/// Does units until the reblock is done, and says how many it took.
pub(crate) fn run<T: Roomy>(job: &mut Reblock, store: &mut T) -> Result<u32, Fault>
    requires { Balanced (T.elements store.old) (T.extents store.old) }
    ensures { IfOk result (λ _. Balanced (T.elements store.new) (T.extents store.new)) }
{
    for units in 0..1_000u32 {
        match step(job, store)? {
            None => return Ok(units),
            Some(Progress::Done) => return Ok(units + 1),
            Some(Progress::More) => {}
        }
    }
    Err(Fault::NoMemory)
}
