// The path words of a call: whether they are paths, and the ids in them.
ghost use Rattle.std.specs.Prelude.{◌≡◌, ℕ, List, None, Some, IfErr, IfOk};
ghost use Rattle.std.specs.List.{list_any};
ghost use Rattle.hm_types.specs.Name.{IsName};
ghost use Rattle.hm_types.specs.declared.fault.Fault.TheVariants.{NoMemory as no_memory};
ghost use Rattle.hm_model.specs.Due.{has_id, is_above, no_future, refuse_if};
ghost use Rattle.hm_model.specs.Sites.{Parts, front_of, last_name};
ghost use Rattle.hm_model.specs.declared.reply.Reply.TheVariants.{BadPath as bad_path, ReadOnly as read_only};
ghost use Rattle.hm_path.specs.Path.{IsPath};
ghost use Rattle.hm_calls.specs.Places.{IsBadPath};
ghost use Rattle.hm_calls.specs.Stop.{Decides, IfRefused, OfFault};

use crate::stop::Stop;
use hm_model::Reply;
use hm_path::{Part, Path, PathFault, parse};
use hm_types::{Id, Name, Text};
use std::alloc::Global;

// The path that a word is: `bad path` with its place where it is none.
pub(crate) fn read_path(alloc: Global, word: &Text) -> Result<Path, Stop>
    ensures ok { IfOk result (IsPath word.now) }
    ensures refused { IfRefused result (IsBadPath word.now) }
    ensures failed { IfErr result (OfFault (λ fault. fault ≡ no_memory)) }
{
    match parse(alloc, word.bytes()) {
        Ok(path) => Ok(path),
        Err(PathFault::BadPath { place }) => Err(Stop::Refused(Reply::BadPath { place })),
        Err(PathFault::NoMemory) => Err(Stop::Failed(hm_types::Fault::NoMemory)),
    }
}

// The last name of a path, and the parts before it: `bad path 0` where it has none.
pub(crate) fn named_end(parts: &[Part]) -> Result<(&[Part], &Name), Stop>
    ensures front { IfOk result (λ end. end.0.now ≡ front_of parts.now) }
    ensures name { IfOk result (λ end. last_name parts.now ≡ Some end.1.now) }
    ensures is_name { IfOk result (λ end. (word : List ℕ) → IsPath word parts.now → IsName end.1.now) }
    ensures refused { IfRefused result (λ reply. (reply ≡ bad_path 0) × (last_name parts.now ≡ None)) }
    ensures failed { IfErr result (OfFault (λ _. ⊥)) }
{
    let Some((last, front)) = parts.split_last() else {
        return Err(Stop::Refused(Reply::BadPath { place: 0 }));
    };
    match &last.name {
        Some(name) => Ok((front, name)),
        None => Err(Stop::Refused(Reply::BadPath { place: 0 })),
    }
}

// `future` where a part has an id above the last one.
pub(crate) fn check_future(parts: &[Part], last: Id) -> Result<(), Stop>
    ensures { Decides (no_future last.0 (Parts parts.now)) result }
{
    if has_future(parts, last) {
        return Err(Stop::Refused(Reply::Future { last }));
    }
    Ok(())
}

fn has_future(parts: &[Part], last: Id) -> bool
    ensures { result ≡ list_any (is_above last.0) parts.now }
{
    parts.iter().any(|part| is_above(part, last))
}

fn is_above(part: &Part, last: Id) -> bool
    ensures { result ≡ is_above last.0 part.now }
{
    match part.as_of {
        Some(id) => last.0 < id.0,
        None => false,
    }
}

// `read only` where a part has an id.
pub(crate) fn check_present(parts: &[Part]) -> Result<(), Stop>
    ensures { Decides (refuse_if (has_id (Parts parts.now)) read_only) result }
{
    if has_id(parts) {
        return Err(Stop::Refused(Reply::ReadOnly));
    }
    Ok(())
}

fn has_id(parts: &[Part]) -> bool
    ensures { result ≡ has_id (Parts parts.now) }
{
    parts.iter().any(|part| part.as_of.is_some())
}
