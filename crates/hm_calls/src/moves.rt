// `mv`: a new name in place of an old one.
ghost use Rattle.std.specs.Prelude.{◌≡◌, ◌≤◌, ℕ, List, [], ◌∷◌, Option, None, OnOk, IfOk, ◌+◌, Some};
ghost use Rattle.hm_types.specs.Space.{nothing};
ghost use Rattle.hm_types.specs.declared.limits.TheConstants.{GREATEST_ID};
ghost use Rattle.hm_path.specs.declared.part.Part.{Part as PathPart};
ghost use Rattle.hm_key.specs.Members.{HasSameContent, InBalance, IsSame, KeepsFrame, KeepsTold};
ghost use Rattle.hm_model.specs.Call.{Call};
ghost use Rattle.hm_model.specs.Due.{refuse_if};
ghost use Rattle.hm_model.specs.Sites.{Parts, last_name};
ghost use Rattle.hm_model.specs.declared.command.Command.TheVariants.{Mv as mv};
ghost use Rattle.hm_model.specs.declared.reply.Reply.TheVariants.{Done as done, IntoItself as into_itself};
ghost use Rattle.hm_dirs.specs.declared.position.Course.{Course as Way};
ghost use Rattle.hm_calls.specs.Known.{AreBelowIn, AreKnown};
ghost use Rattle.hm_calls.specs.Links.{AreSeen};
ghost use Rattle.hm_calls.specs.Moves.{HasRoomToMove, IsMovable, IsMoveOf, LeadsBy, TellsMoved, beside_checks};
ghost use Rattle.hm_calls.specs.Moves.{leads_to, move_checks, on_a_move, over_checks, seen_of};
ghost use Rattle.hm_calls.specs.Possible.{Gives};
ghost use Rattle.hm_calls.specs.Replies.{Acts};
ghost use Rattle.hm_calls.specs.Scenes.{InScenes, call_in};
ghost use Rattle.hm_calls.specs.Space.{TakesAtMost};
ghost use Rattle.hm_calls.specs.Stages.{AnswersAll, IsAmong, IsNewName, place_checks};
ghost use Rattle.hm_calls.specs.Stop.{Decides, HasStopCause, IfRefused};
ghost use Rattle.hm_calls.specs.Writes.{reserves};

use crate::checks::{check_one_pfs, find_entry, spot_in};
use crate::course::{NAMES_HELD, course_before, read_last};
use crate::kinds::{check_way, moved_of};
use crate::places::{reach_directory, reach_name};
use crate::rename::{Move, Moved, Named, Replaced, write_move};
use crate::room::admit_names;
use crate::stages::{NewName, check_masters, check_words};
use crate::stop::Stop;
use crate::words::{named_end, read_path};
use hm_cursor::find_inode;
use hm_dirs::{Course, NameHash, Stand};
use hm_key::{ElementStore, Extents, HasElements, HasRoom};
use hm_model::Reply;
use hm_path::Part;
use hm_types::{Counted, Id, Name, Obj, Text};
use std::alloc::Global;

pub(crate) fn move_to<T: ElementStore + Extents, H: NameHash>(
    alloc: Global,
    store: &mut T,
    hash: &H,
    old: &Text,
    new: &Text,
    id: Id,
) -> Result<Reply, Stop>
    requires id { (1 ≤ id.0) × (id.0 ≤ GREATEST_ID) }
    requires balanced { InBalance T.HasElements store.old }
    requires known { AreKnown (T.elements store.old) (T.extents store.old) id.0 }
    ensures answers { Acts T.elements T.mark T.extents T.room T.free (H.hash_of hash.now) id.0
        (λ (call : Call). call.command ≡ mv old.now new.now) store.old store.new result }
    ensures gives { Gives id.0 (mv old.now new.now) result }
    ensures done { IfOk result (λ reply. reply ≡ done) }
    ensures known { OnOk result (AreKnown (T.elements store.new) (T.extents store.new)
        (id.0 + 1)) }
    ensures keeps { KeepsTold T.HasElements store.old store.new result }
    ensures room { TakesAtMost T.room T.free reserves store.old store.new result
        × (T.name store.new ≡ T.name store.old)
        × (T.frame store.new ≡ T.frame store.old) }
    ensures cause { HasStopCause (T.elements store.old) (T.extents store.old)
        (T.faults store.old) (T.faults store.new) result }
{
    let course = course_before(id, None);
    let old = read_path(alloc, old)?;
    let parts = old.parts();
    let (_, old_name) = named_end(parts)?;
    let new = read_path(alloc, new)?;
    let more = new.parts();
    let named = check_words(parts, more, course.last)?;
    let found = reach_moved(alloc, store, hash, parts, named, course)?;
    let change = check_moved(alloc, store, hash, &found, named.name)?;
    let from = Named {
        directory: &found.from,
        name: old_name,
    };
    let to = Named {
        directory: &found.to,
        name: named.name,
    };
    write_move(alloc, store, hash, from, to, found.moved, change, id)?;
    Ok(Reply::Done)
}

// Where the paths lead: to the directory of the old name and the object there, and to the directory
// of the new name.
#[derive(Clone, Copy)]
pub(crate) struct Moving {
    pub from: Stand,
    pub object: Stand,
    pub moved: Moved,
    pub to: Stand,
}

// These places, none of which lies in a slave. The walk to the new name watches for the object.
fn reach_moved<T: ElementStore + Extents, H: NameHash>(
    alloc: Global,
    store: &mut T,
    hash: &H,
    parts: &[Part],
    new: NewName,
    course: Course,
) -> Result<Moving, Stop>
    requires balanced { InBalance T.HasElements store.old }
    ensures places { (old word name : List ℕ) (more : List PathPart) →
        last_name parts.now ≡ Some name → IsNewName parts.now more new.entry →
        InScenes (H.hash_of hash.now) course (T.elements store.old) (T.extents store.old) (λ scene.
        (busy : Option ℕ) → AnswersAll (place_checks (call_in (H.hash_of hash.now) (mv old word)
        (Parts parts.now ∷ Parts more ∷ []) busy scene)) result) }
    ensures found { IfOk result (λ found. (name : List ℕ) (more : List PathPart) (id : ℕ) →
        last_name parts.now ≡ Some name → IsNewName parts.now more new.entry →
        AreKnown (T.elements store.old) (T.extents store.old) id →
        InScenes (H.hash_of hash.now) course (T.elements store.old) (T.extents store.old)
        (IsMovable parts.now more id name new.entry.name.now found)) }
    ensures moved { IfOk result TellsMoved }
    ensures below { IfOk result (λ found. (id : ℕ) →
        AreKnown (T.elements store.old) (T.extents store.old) id →
        AreBelowIn (T.elements store.old) (T.extents store.old) found.to.at.pfs.0 id) }
    ensures gives { (name : List ℕ) (more : List PathPart) → last_name parts.now ≡ Some name →
        IsNewName parts.now more new.entry → IfRefused result (IsAmong on_a_move) }
    ensures keeps { IsSame T.HasElements store.old store.new }
    ensures borrowed { KeepsFrame T.Counted store.old store.new }
    ensures cause { HasStopCause (T.elements store.old) (T.extents store.old)
        (T.faults store.old) (T.faults store.new) result }
{
    let (from, object) = reach_name(alloc, store, hash, parts, course)?;
    let Some(moved) = moved_of(&object) else {
        return Err(Stop::Refused(Reply::NotFound));
    };
    let watching = Course {
        watch: Some((object.at.pfs, object.at.object)),
        ..course
    };
    let to = reach_directory(alloc, store, hash, new.front, watching)?;
    check_masters(alloc, store, from.at.pfs, to.at.pfs)?;
    Ok(Moving {
        from,
        object,
        moved,
        to: read_last(to, course),
    })
}

// The checks of these places, and room: what the move comes to.
fn check_moved<T: ElementStore + Extents, H: NameHash>(
    alloc: Global,
    store: &mut T,
    hash: &H,
    found: &Moving,
    name: &Name,
) -> Result<Move, Stop>
    requires balanced { InBalance T.HasElements store.old }
    ensures checks { (course : Way) →
        InScenes (H.hash_of hash.now) course (T.elements store.old) (T.extents store.old)
        (AreSeen (seen_of found.now)) →
        InScenes (H.hash_of hash.now) course (T.elements store.old) (T.extents store.old) (λ scene.
        (call : Call) → AnswersAll (move_checks (H.hash_of hash.now) (T.room store.old)
        (T.free store.old) name.now found.now.from found.now.object found.now.to call scene) result) }
    ensures change { IfOk result (λ change. (course : Way) →
        InScenes (H.hash_of hash.now) course (T.elements store.old) (T.extents store.old)
        (AreSeen (seen_of found.now)) →
        InScenes (H.hash_of hash.now) course (T.elements store.old) (T.extents store.old)
        (IsMoveOf (H.hash_of hash.now) name.now found.now change)) }
    ensures one_pfs { OnOk result (found.now.from.at.pfs ≡ found.now.to.at.pfs) }
    ensures gives { IfRefused result (IsAmong on_a_move) }
    ensures reserves { IfOk result (λ change. HasRoomToMove change (T.room store.new)) }
    ensures content { OnOk result (HasSameContent T.HasElements store.old store.new) }
    ensures refused { IfRefused result (λ _.
        IsSame T.HasElements store.old store.new) }
    ensures room { TakesAtMost T.room T.free nothing store.old store.new result
        × (T.name store.new ≡ T.name store.old)
        × (T.frame store.new ≡ T.frame store.old) }
    ensures cause { HasStopCause (T.elements store.old) (T.extents store.old)
        (T.faults store.old) (T.faults store.new) result }
{
    check_one_pfs(&found.from, &found.to)?;
    check_passed(&found.to)?;
    match find_entry(store, hash, &found.to, name.bytes())? {
        None => check_beside(alloc, store, hash, found, name),
        Some((key, there)) => check_over(store, found, key, there),
    }
}

// Beside the names that are there: that those of its hash leave a key, and room.
fn check_beside<T: ElementStore + Extents, H: NameHash>(
    alloc: Global,
    store: &mut T,
    hash: &H,
    found: &Moving,
    name: &Name,
) -> Result<Move, Stop>
    requires balanced { InBalance T.HasElements store.old }
    ensures checks { (course : Way) →
        InScenes (H.hash_of hash.now) course (T.elements store.old) (T.extents store.old)
        (AreSeen (seen_of found.now)) →
        InScenes (H.hash_of hash.now) course (T.elements store.old) (T.extents store.old) (λ scene.
        AnswersAll (beside_checks (H.hash_of hash.now) (T.room store.old) (T.free store.old) name.now
        found.now.to scene) result) }
    ensures change { IfOk result (λ change. (course : Way) →
        InScenes (H.hash_of hash.now) course (T.elements store.old) (T.extents store.old)
        (AreSeen (seen_of found.now)) →
        InScenes (H.hash_of hash.now) course (T.elements store.old) (T.extents store.old) (λ scene.
        leads_to scene found.now.to name.now ≡ None →
        IsMoveOf (H.hash_of hash.now) name.now found.now change scene)) }
    ensures gives { IfRefused result (IsAmong on_a_move) }
    ensures reserves { IfOk result (λ change. HasRoomToMove change (T.room store.new)) }
    ensures content { OnOk result (HasSameContent T.HasElements store.old store.new) }
    ensures refused { IfRefused result (λ _.
        IsSame T.HasElements store.old store.new) }
    ensures room { TakesAtMost T.room T.free nothing store.old store.new result
        × (T.name store.new ≡ T.name store.old)
        × (T.frame store.new ≡ T.frame store.old) }
    ensures cause { HasStopCause (T.elements store.old) (T.extents store.old)
        (T.faults store.old) (T.faults store.new) result }
{
    let spot = spot_in(alloc, store, hash, &found.to, name)?;
    admit_names(store, NAMES_HELD)?;
    Ok(Move::Beside(spot))
}

// Where the new name leads to an object: that it gives way, and room unless it is the moved one.
fn check_over<T: ElementStore + Extents>(
    store: &mut T,
    found: &Moving,
    key: u64,
    there: Obj,
) -> Result<Move, Stop>
    requires balanced { InBalance T.HasElements store.old }
    ensures checks { (hash : List ℕ → ℕ) (course : Way) →
        InScenes hash course (T.elements store.old) (T.extents store.old) (AreSeen (seen_of found.now)) →
        InScenes hash course (T.elements store.old) (T.extents store.old) (λ scene. (call : Call) →
        AnswersAll (over_checks call scene found.now.object there (T.room store.old) (T.free store.old))
        result) }
    ensures change { IfOk result (λ change. (hash : List ℕ → ℕ) (course : Way) (name : List ℕ) →
        InScenes hash course (T.elements store.old) (T.extents store.old) (AreSeen (seen_of found.now)) →
        InScenes hash course (T.elements store.old) (T.extents store.old) (λ scene.
        LeadsBy name found.now key there scene → IsMoveOf hash name found.now change scene)) }
    ensures gives { IfRefused result (IsAmong on_a_move) }
    ensures reserves { IfOk result (λ change. HasRoomToMove change (T.room store.new)) }
    ensures content { OnOk result (HasSameContent T.HasElements store.old store.new) }
    ensures refused { IfRefused result (λ _.
        IsSame T.HasElements store.old store.new) }
    ensures room { TakesAtMost T.room T.free nothing store.old store.new result
        × (T.name store.new ≡ T.name store.old)
        × (T.frame store.new ≡ T.frame store.old) }
    ensures cause { HasStopCause (T.elements store.old) (T.extents store.old)
        (T.faults store.old) (T.faults store.new) result }
{
    let object = &found.object;
    let answer = find_inode(store, object.at.pfs, there, object.as_of)?;
    let inode = check_way(object, there, answer)?;
    if there.0 == object.at.object.0 {
        return Ok(Move::Itself);
    }
    admit_names(store, NAMES_HELD)?;
    Ok(Move::Over(Replaced {
        obj: there,
        links: inode.links,
        key,
    }))
}

// `into itself` where the walk to a new name passed the object that it watched for.
fn check_passed(to: &Stand) -> Result<(), Stop>
    ensures check { Decides (refuse_if to.now.passed into_itself) result }
    ensures gives { IfRefused result (λ reply. reply ≡ into_itself) }
{
    if to.passed {
        return Err(Stop::Refused(Reply::IntoItself));
    }
    Ok(())
}
