// Walks along the parts of a path, over the elements of a store.
ghost use Rattle.std.specs.Prelude.{◌≡◌, IfOk, None, false};
ghost use Rattle.hm_model.specs.Due.{has_id};
ghost use Rattle.hm_model.specs.Sites.{Parts};
ghost use Rattle.hm_model.specs.Walk.{step as stepped, walk as walked_along};
ghost use Rattle.hm_records.specs.KeysFit.{KeysFit};
ghost use Rattle.hm_cursor.specs.Told.{ReadsWithCause};
ghost use Rattle.hm_dirs.specs.Walk.{AreDrawn, ComesOut, WalkGoesOn, IsDrawn, OnShown, StaysNow, mode_of};
ghost use Rattle.hm_key.specs.Members.{InBalance, IsSame, KeepsFrame};

use crate::hash::NameHash;
use crate::position::{Course, Follow, Lost, Stand};
use crate::walk_parts::{by_id, by_name};
use crate::walk_roots::start;
use hm_key::{ElementStore, Extents, HasElements, HasRoom};
use hm_path::Part;
use hm_types::{Counted, Fault};
use std::alloc::Global;

/// The walk of a path from the root of PFS 0: where it ends, or why it comes to no end. It goes by
/// the parts in turn, by the id of each first and then by its name. A PFS link that a part names is
/// followed, but for one that the last part names, which is the caller's choice. Nothing of a path
/// is copied; the records of pseudo file systems that are read take memory. The ids of the parts
/// are to be at most the last one that was drawn: of others nothing is said.
///
/// `Damaged` at the payload of a record, an inode or an entry of a name's hash, of kind 6, where it
/// breaks its grammar, and `NoMemory` where an allocation was refused. The other faults are those
/// of the store.
pub fn walk<T: ElementStore + Extents, H: NameHash>(
    alloc: Global,
    store: &mut T,
    hash: &H,
    parts: &[Part],
    follow: Follow,
    course: Course,
) -> Result<Result<Stand, Lost>, Fault>
    requires balanced { InBalance T.HasElements store.old }
    ensures ok { IfOk result (λ walked.
        OnShown (T.elements store.old) (T.extents store.old) course (λ scene.
        KeysFit (H.hash_of hash.now) scene.elements → AreDrawn scene.course.last parts.now
        → ComesOut scene (mode_of follow)
        (walked_along scene.volume scene.view (mode_of follow) parts.now) walked)) }
    ensures now { has_id (Parts parts.now) ≡ false → IfOk result StaysNow }
    ensures keeps { IsSame T.HasElements store.old store.new }
    ensures borrowed { KeepsFrame T.Counted store.old store.new }
    ensures cause { ReadsWithCause T.HasElements store.old store.new result }
{
    let mut stand = start(alloc, store, course)?;
    let mut rest = parts;
    while let [part, more @ ..] = rest {
        let here = follow.before(more.is_empty());
        match step(alloc, store, hash, course, here, part, stand)? {
            Ok(next) => stand = next,
            Err(lost) => return Ok(Err(lost)),
        }
        rest = more;
    }
    Ok(Ok(stand))
}

/// One part of a walk: its id first, then its name. It goes on from where the walk came to, as of
/// the same id. The faults are those of `walk`.
pub fn step<T: ElementStore + Extents, H: NameHash>(
    alloc: Global,
    store: &mut T,
    hash: &H,
    course: Course,
    follow: Follow,
    part: &Part,
    stand: Stand,
) -> Result<Result<Stand, Lost>, Fault>
    requires balanced { InBalance T.HasElements store.old }
    ensures ok { IfOk result (λ walked.
        OnShown (T.elements store.old) (T.extents store.old) course (λ scene.
        KeysFit (H.hash_of hash.now) scene.elements → IsDrawn scene.course.last part.now.as_of
        → WalkGoesOn scene (mode_of follow)
        (stepped scene.volume scene.view (mode_of follow) part.now) stand walked)) }
    ensures now { part.now.as_of ≡ None → stand.at.when ≡ None → IfOk result StaysNow }
    ensures keeps { IsSame T.HasElements store.old store.new }
    ensures borrowed { KeepsFrame T.Counted store.old store.new }
    ensures cause { ReadsWithCause T.HasElements store.old store.new result }
{
    match by_id(alloc, store, part.as_of, stand)? {
        Ok(seen) => by_name(alloc, store, hash, course, follow, part, seen),
        Err(lost) => Ok(Err(lost)),
    }
}
