// The retention that a prune leaves.
ghost use Rattle.std.specs.Prelude.{◌≡◌, ◌<◌, ◌^◌, ℕ, List, [], ◌∷◌, IfErr, IfOk, map};
ghost use Rattle.hm_types.specs.declared.fault.Fault.TheVariants.{NoMemory as no_memory};
ghost use Rattle.hm_types.specs.declared.id.Id.{Id as Number};
ghost use Rattle.hm_model.specs.Cut.{greatest};
ghost use Rattle.hm_model.specs.declared.reply.Reply.TheVariants.{TooManyIntervals as too_many};
ghost use Rattle.hm_retain.specs.Retention.{IsCut, IsRetention, IsTooMany};
ghost use Rattle.hm_calls.specs.Stop.{IfRefused, OfFault};

use crate::stop::Stop;
use hm_model::Reply;
use hm_records::PfsRecord;
use hm_retain::{RetainFault, Retention};
use hm_types::{Id, MOST_INTERVALS, NoMemory};
use std::alloc::Global;

// The ids of a retention that are listed, and all from the greatest of them on. `too many intervals`
// where more than 4,096 would be left.
pub(crate) fn keep_listed(
    alloc: Global,
    retention: &Retention,
    ids: &[Id],
) -> Result<Retention, Stop>
    ensures ok { IfOk result (IsCut retention.now ids.now
        (greatest (map (λ (id : Number). id.0) ids.now))) }
    ensures retention { IfOk result IsRetention }
    ensures last { greatest (map (λ (id : Number). id.0) ids.now) < 2 ^ 64 }
    ensures many { IfRefused result (λ reply. (count : ℕ) × (reply ≡ too_many count)
        × IsTooMany (IsCut retention.now ids.now
        (greatest (map (λ (id : Number). id.0) ids.now))) count) }
    ensures failed { IfErr result (OfFault (λ fault. fault ≡ no_memory)) }
{
    match retention.cut_to(alloc, ids, greatest(ids)) {
        Ok(kept) => Ok(kept),
        Err(RetainFault::TooMany { count }) => {
            Err(Stop::Refused(Reply::TooManyIntervals { count }))
        }
        Err(RetainFault::NoMemory) => Err(Stop::Failed(hm_types::Fault::NoMemory)),
    }
}

// The greatest of some ids, and 0 where there are none.
fn greatest(ids: &[Id]) -> Id
    ensures { result.0 ≡ greatest (map (λ (id : Number). id.0) ids.now) }
{
    let mut most = Id(0);
    let mut rest = ids;
    while let Some((first, others)) = rest.split_first() {
        most = most.max(*first);
        rest = others;
    }
    most
}

// What a master keeps from an id on.
pub(crate) fn keep_from(alloc: Global, retention: &Retention, id: Id) -> Result<Retention, NoMemory>
    ensures ok { IfOk result (IsCut retention.now [] id.0) }
    ensures retention { IfOk result IsRetention }
{
    // A cut that lists no id has no more intervals than there were.
    let few = retention.pairs().len() <= MOST_INTERVALS;
    prove!(few);
    match retention.cut_to(alloc, &[], id) {
        Ok(kept) => Ok(kept),
        Err(RetainFault::TooMany { .. }) => unreachable!(),
        Err(RetainFault::NoMemory) => Err(NoMemory),
    }
}

// What a slave keeps of its sync end.
pub(crate) fn keep_one(alloc: Global, retention: &Retention, id: Id) -> Result<Retention, NoMemory>
    ensures ok { IfOk result (IsCut retention.now (id ∷ []) (2 ^ 64)) }
    ensures retention { IfOk result IsRetention }
{
    let mut list = Vec::new(alloc);
    if retention.keeps(id) {
        list.push((id, id))?;
    }
    Ok(Retention::of(list).unwrap())
}
