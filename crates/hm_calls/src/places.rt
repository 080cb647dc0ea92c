// Where the paths of a call lead.
ghost use Rattle.std.specs.Prelude.{◌≡◌, ℕ, List, Bool, false, None, Some, IfOk};
ghost use Rattle.hm_model.specs.Due.{has_id};
ghost use Rattle.hm_model.specs.Sites.{Parts, in_directory, front_of, last_name, standing_name};
ghost use Rattle.hm_model.specs.Walk.{Follows as follows, Passed, Stays as stays, step as stepped, walk as walked_along};
ghost use Rattle.hm_records.specs.KeysFit.{KeysFit};
ghost use Rattle.hm_dirs.specs.Walk.{AreDrawn, IsDrawn, IsOn, OnShown, mode_of, place_of, reply_of};
ghost use Rattle.hm_calls.specs.declared.stop.Stop.TheVariants.{Refused as refusal};
ghost use Rattle.hm_calls.specs.Places.{IsNamed, IsPlaced, IsReached};
ghost use Rattle.hm_calls.specs.Possible.{IsLost};
ghost use Rattle.hm_calls.specs.Stop.{HasStopCause, IfRefused};
ghost use Rattle.hm_key.specs.Members.{InBalance, IsSame, KeepsFrame};

use crate::stop::Stop;
use hm_dirs::{Course, Follow, Lost, NameHash, Stand, step, walk};
use hm_key::{ElementStore, Extents, HasElements, HasRoom};
use hm_model::Reply;
use hm_path::Part;
use hm_types::{Counted, Name};
use std::alloc::Global;

// The end of a path.
pub(crate) fn reach<T: ElementStore + Extents, H: NameHash>(
    alloc: Global,
    store: &mut T,
    hash: &H,
    parts: &[Part],
    follow: Follow,
    course: Course,
) -> Result<Stand, Stop>
    requires balanced { InBalance T.HasElements store.old }
    ensures ok { OnShown (T.elements store.old) (T.extents store.old) course (λ scene.
        KeysFit (H.hash_of hash.now) scene.elements → AreDrawn scene.course.last parts.now
        → IsReached scene (mode_of follow)
        (walked_along scene.volume scene.view (mode_of follow) parts.now) result) }
    ensures gives { IfRefused result (IsLost (has_id (Parts parts.now))) }
    ensures now { has_id (Parts parts.now) ≡ false → IfOk result (λ stand. stand.at.when ≡ None) }
    ensures keeps { IsSame T.HasElements store.old store.new }
    ensures borrowed { KeepsFrame T.Counted store.old store.new }
    ensures cause { HasStopCause (T.elements store.old) (T.extents store.old)
        (T.faults store.old) (T.faults store.new) result }
{
    walk(alloc, store, hash, parts, follow, course)?.map_err(refused)
}

// The directory in which a name is to be made: where the parts before the name lead.
pub(crate) fn reach_directory<T: ElementStore + Extents, H: NameHash>(
    alloc: Global,
    store: &mut T,
    hash: &H,
    front: &[Part],
    course: Course,
) -> Result<Stand, Stop>
    requires balanced { InBalance T.HasElements store.old }
    ensures ok { OnShown (T.elements store.old) (T.extents store.old) course (λ scene.
        KeysFit (H.hash_of hash.now) scene.elements → AreDrawn scene.course.last front.now
        → (name : List ℕ) → IsPlaced scene name (in_directory scene.view (Some name)
        (walked_along scene.volume scene.view follows front.now)) result) }
    ensures gives { IfRefused result (IsLost (has_id (Parts front.now))) }
    ensures keeps { IsSame T.HasElements store.old store.new }
    ensures borrowed { KeepsFrame T.Counted store.old store.new }
    ensures cause { HasStopCause (T.elements store.old) (T.extents store.old)
        (T.faults store.old) (T.faults store.new) result }
{
    let directory = reach(alloc, store, hash, front, Follow::Follows, course)?;
    if !directory.is_directory() {
        return Err(Stop::Refused(Reply::NotDir));
    }
    Ok(directory)
}

// A name that is to stand there: its directory, and the object that it leads to. The parts are those
// of a path with a last name; a link that this name leads to is not followed.
pub(crate) fn reach_name<T: ElementStore + Extents, H: NameHash>(
    alloc: Global,
    store: &mut T,
    hash: &H,
    parts: &[Part],
    course: Course,
) -> Result<(Stand, Stand), Stop>
    requires balanced { InBalance T.HasElements store.old }
    ensures ok { OnShown (T.elements store.old) (T.extents store.old) course (λ scene.
        KeysFit (H.hash_of hash.now) scene.elements → AreDrawn scene.course.last parts.now
        → (name : List ℕ) → last_name parts.now ≡ Some name
        → IsNamed scene name (standing_name (Some name)
        (walked_along scene.volume scene.view follows (front_of parts.now))
        (walked_along scene.volume scene.view stays parts.now)) result) }
    ensures gives { (name : List ℕ) → last_name parts.now ≡ Some name →
        IfRefused result (IsLost (has_id (Parts parts.now))) }
    ensures keeps { IsSame T.HasElements store.old store.new }
    ensures borrowed { KeepsFrame T.Counted store.old store.new }
    ensures cause { HasStopCause (T.elements store.old) (T.extents store.old)
        (T.faults store.old) (T.faults store.new) result }
{
    let Some((last, front)) = parts.split_last() else {
        return Err(Stop::Refused(Reply::BadPath { place: 0 }));
    };
    let directory = reach(alloc, store, hash, front, Follow::Follows, course)?;
    let end = reach_last(alloc, store, hash, last, directory, course)?;
    Ok((directory, end))
}

// Where the last part leads from a directory.
fn reach_last<T: ElementStore + Extents, H: NameHash>(
    alloc: Global,
    store: &mut T,
    hash: &H,
    last: &Part,
    directory: Stand,
    course: Course,
) -> Result<Stand, Stop>
    requires balanced { InBalance T.HasElements store.old }
    ensures ok { OnShown (T.elements store.old) (T.extents store.old) course (λ scene.
        KeysFit (H.hash_of hash.now) scene.elements → IsDrawn scene.course.last last.now.as_of
        → (passed : Passed) → IsOn scene passed directory → IsReached scene stays
        (stepped scene.volume scene.view stays last.now (place_of directory.at) passed) result) }
    ensures gives { (ids : Bool) →
        (ids ≡ false → (last.now.as_of ≡ None) × (directory.at.when ≡ None)) →
        IfRefused result (IsLost ids) }
    ensures keeps { IsSame T.HasElements store.old store.new }
    ensures borrowed { KeepsFrame T.Counted store.old store.new }
    ensures cause { HasStopCause (T.elements store.old) (T.extents store.old)
        (T.faults store.old) (T.faults store.new) result }
{
    step(alloc, store, hash, course, Follow::Stays, last, directory)?.map_err(refused)
}

// The reply to a walk that came to no end.
fn refused(lost: Lost) -> Stop
    ensures { result ≡ refusal (reply_of lost) }
{
    Stop::Refused(match lost {
        Lost::NotFound => Reply::NotFound,
        Lost::NotDir => Reply::NotDir,
        Lost::NotRetained => Reply::NotRetained,
    })
}
