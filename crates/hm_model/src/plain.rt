// A plain slow program that answers one call on a whole tree.
ghost use Rattle.std.specs.Prelude.{◌≡◌, ◌≤◌, IfOk};
ghost use Rattle.hm_types.specs.declared.limits.TheConstants.{GREATEST_ID};
ghost use Rattle.hm_model.specs.PlainCall.{IsApplied, IsLooked};

use crate::answer::answer;
use crate::checks::own_refusal;
use crate::command::Command;
use crate::edit::edit;
use crate::hash::hash_refusal;
use crate::paths::find_places;
use crate::reply::Reply;
use crate::stop::PlainStop;
use crate::tree::Tree;
use crate::tree_edit::copy_of;
use hm_types::{Id, NoMemory};
use std::alloc::Global;

/// Answers `ls`, `cat`, `stat` or `readlink` on the tree of now. Of other calls, and of a path with an
/// id, it knows nothing: it then answers anything.
pub fn look(alloc: Global, tree: &Tree, call: &Command) -> Result<Reply, NoMemory>
    ensures { IfOk result (IsLooked tree.now call.now) }
{
    let (a, b) = match find_places(alloc, tree, call) {
        Ok(places) => places,
        Err(stop) => return refusal_of(stop),
    };
    if let Some(refusal) = own_refusal(tree, call, &a, &b) {
        return Ok(refusal);
    }
    answer(alloc, tree, call, &a)
}

/// Answers one call with this id on the tree of now, and gives the tree after it: the same one where
/// the call is refused. It knows the calls that change a tree but for those that make a PFS. Of other
/// calls, and of a path with an id, it knows nothing: it then answers anything. It copies the whole
/// tree, and is there for tests to compare with.
pub fn apply(alloc: Global, tree: &Tree, call: &Command, id: Id) -> Result<(Reply, Tree), NoMemory>
    requires { (1 ≤ id.0) × (id.0 ≤ GREATEST_ID) }
    ensures { IfOk result (λ r. IsApplied tree.now call.now id.0 r.0 r.1) }
{
    let (a, b) = match find_places(alloc, tree, call) {
        Ok(places) => places,
        Err(stop) => return Ok((refusal_of(stop)?, copy_of(alloc, tree)?)),
    };
    if let Some(refusal) = own_refusal(tree, call, &a, &b) {
        return Ok((refusal, copy_of(alloc, tree)?));
    }
    if let Some(refusal) = hash_refusal(tree, call, &a, &b) {
        return Ok((refusal, copy_of(alloc, tree)?));
    }
    Ok((Reply::Done, edit(alloc, tree, call, id, &a, &b)?))
}

// The refusal that stopped a call, if it was one.
fn refusal_of(stop: PlainStop) -> Result<Reply, NoMemory>
    ensures { IfOk result (λ reply. stop ≡ PlainStop.Refused reply) }
{
    match stop {
        PlainStop::Refused(reply) => Ok(reply),
        PlainStop::NoMemory => Err(NoMemory),
    }
}
