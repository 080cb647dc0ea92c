// The room of a call that writes names, objects and records.
ghost use Rattle.std.specs.Prelude.{◌≡◌, ◌-◌, IfErr, OnOk};
ghost use Rattle.std.specs.Bool.{nat_lt};
ghost use Rattle.hm_types.specs.Space.{nothing};
ghost use Rattle.hm_key.specs.Members.{HasSameContent, IsSame};
ghost use Rattle.hm_model.specs.Due.{refuse_if};
ghost use Rattle.hm_model.specs.Needs.{bytes_zones, names_zones};
ghost use Rattle.hm_model.specs.declared.reply.Reply.TheVariants.{NoSpace as no_space};
ghost use Rattle.hm_calls.specs.Due.{lacking};
ghost use Rattle.hm_calls.specs.Edits.{HasAllReserves};
ghost use Rattle.hm_calls.specs.Possible.{IsNoSpace};
ghost use Rattle.hm_calls.specs.Space.{TakesAtMost};
ghost use Rattle.hm_calls.specs.Stop.{Answers, HasStopCause, IfRefused};
ghost use Rattle.hm_calls.specs.Writes.{HasReserves};

use crate::stop::Stop;
use bitflags::Flags;
use hm_key::{ElementStore, Extents, HasElements, HasRoom};
use hm_model::Reply;
use hm_types::{Counted, SpaceFault, Zones};

// Lets the zones 8 and 9 have their reserves, while so many free big-blocks are held back. `no space`
// where too few are free; the store is then as it was.
pub(crate) fn admit_names<T: ElementStore + Extents>(store: &mut T, held: u32) -> Result<(), Stop>
    ensures check { Answers (refuse_if (nat_lt (T.free store.old - held)
        (lacking names_zones (T.room store.old)))
        (no_space (T.free store.old) (lacking names_zones (T.room store.old)))) result }
    ensures gives { IfRefused result IsNoSpace }
    ensures reserves { OnOk result (HasReserves (T.room store.new)) }
    ensures content { OnOk result (HasSameContent T.HasElements store.old store.new) }
    ensures refused { IfRefused result (λ _.
        IsSame T.HasElements store.old store.new) }
    ensures room { TakesAtMost T.room T.free nothing store.old store.new result
        × (T.name store.new ≡ T.name store.old)
        × (T.frame store.new ≡ T.frame store.old) }
    ensures cause { HasStopCause (T.elements store.old) (T.extents store.old)
        (T.faults store.old) (T.faults store.new) result }
{
    match store.admit(Zones::TREE.union(Zones::META), held) {
        Ok(()) => Ok(()),
        Err(SpaceFault::NoSpace { free, needed }) => {
            Err(Stop::Refused(Reply::NoSpace { free, needed }))
        }
        Err(SpaceFault::Fault(fault)) => Err(Stop::Failed(fault)),
    }
}

// Lets the zones 8, 9, 10 and 11 have their reserves, while so many free big-blocks are held back. `no space`
// where too few are free; the store is then as it was.
pub(crate) fn admit_bytes<T: ElementStore + Extents>(store: &mut T, held: u32) -> Result<(), Stop>
    ensures check { Answers (refuse_if (nat_lt (T.free store.old - held)
        (lacking bytes_zones (T.room store.old)))
        (no_space (T.free store.old) (lacking bytes_zones (T.room store.old)))) result }
    ensures gives { IfRefused result IsNoSpace }
    ensures reserves { OnOk result (HasAllReserves (T.room store.new)) }
    ensures content { OnOk result (HasSameContent T.HasElements store.old store.new) }
    ensures refused { IfRefused result (λ _.
        IsSame T.HasElements store.old store.new) }
    ensures room { TakesAtMost T.room T.free nothing store.old store.new result
        × (T.name store.new ≡ T.name store.old)
        × (T.frame store.new ≡ T.frame store.old) }
    ensures cause { HasStopCause (T.elements store.old) (T.extents store.old)
        (T.faults store.old) (T.faults store.new) result }
{
    match store.admit(
        Zones::TREE
            .union(Zones::META)
            .union(Zones::LARGE)
            .union(Zones::SMALL),
        held,
    ) {
        Ok(()) => Ok(()),
        Err(SpaceFault::NoSpace { free, needed }) => {
            Err(Stop::Refused(Reply::NoSpace { free, needed }))
        }
        Err(SpaceFault::Fault(fault)) => Err(Stop::Failed(fault)),
    }
}
