// The paths of calls on one tree.
ghost use Rattle.std.specs.Prelude.{◌≡◌, IfOk, IfErr, true, false};
ghost use Rattle.std.specs.List.{list_any};
ghost use Rattle.std.specs.Option.{option_map_or};
ghost use Rattle.hm_model.specs.Sites.{last_name, Parts};
ghost use Rattle.hm_model.specs.Due.{has_id};
ghost use Rattle.hm_model.specs.Plain.{IsRefusing, IsRead, IsUnread};

use crate::reply::Reply;
use crate::stop::PlainStop;
use hm_path::{Part, Path, parse};
use hm_types::Text;
use std::alloc::Global;

/// Reads a path word, which must have a last name where `named` says so. One tree has no past: a path
/// with an id is refused with `ReadOnly`.
pub(crate) fn read_path(alloc: Global, named: bool, word: &Text) -> Result<Path, PlainStop>
    ensures ok { IfOk result (IsRead named word.now) }
    ensures err { IfErr result (IsUnread named word.now) }
    ensures refuses { IfErr result IsRefusing }
{
    let path = parse(alloc, word.bytes())?;
    if carries_id(path.parts()) {
        return Err(PlainStop::Refused(Reply::ReadOnly));
    }
    if named && !has_last_name(path.parts()) {
        return Err(PlainStop::Refused(Reply::BadPath { place: 0 }));
    }
    Ok(path)
}

fn carries_id(parts: &[Part]) -> bool
    ensures { result ≡ has_id (Parts parts.now) }
{
    parts.iter().any(|part| part.as_of.is_some())
}

fn has_last_name(parts: &[Part]) -> bool
    ensures { result ≡ option_map_or (λ name. true) (last_name parts.now) false }
{
    match parts.split_last() {
        Some((last, _)) => last.name.is_some(),
        None => false,
    }
}
