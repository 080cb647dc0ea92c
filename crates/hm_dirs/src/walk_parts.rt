// From an object to one that it leads to: over a link, to a name, or as of another id.
ghost use Rattle.std.specs.Prelude.{◌≡◌, IfOk, None, Some};
ghost use Rattle.hm_types.specs.declared.object.Object.{Object};
ghost use Rattle.hm_key.specs.Members.{InBalance, IsSame, KeepsFrame};
ghost use Rattle.hm_model.specs.View.{object_at};
ghost use Rattle.hm_model.specs.Walk.{Follows as follows, by_id as seen, by_name as named, find_name, find_object};
ghost use Rattle.hm_model.specs.Walk.{from_found as gone, over_link as led};
ghost use Rattle.hm_records.specs.KeysFit.{KeysFit};
ghost use Rattle.hm_cursor.specs.Told.{ReadsWithCause};
ghost use Rattle.hm_dirs.specs.Walk.{WalkGoesOn, IsDrawn, OnShown, StaysNow, mode_of, place_of};

use crate::hash::NameHash;
use crate::lookup::look_up;
use crate::position::{Course, Follow, Lost, Position, Stand};
use crate::walk_roots::{enter, look_at, take_pfs};
use hm_cursor::find_record;
use hm_key::{ElementStore, Extents, HasElements, HasRoom};
use hm_path::Part;
use hm_types::{Counted, Fault, Id, Obj, Pfs};
use std::alloc::Global;

// From a PFS link.
fn over_link<T: ElementStore + Extents>(
    alloc: Global,
    store: &mut T,
    course: Course,
    follow: Follow,
    pfs: Pfs,
    stand: Stand,
) -> Result<Result<Stand, Lost>, Fault>
    requires balanced { InBalance T.HasElements store.old }
    ensures ok { IfOk result (λ walked.
        OnShown (T.elements store.old) (T.extents store.old) course (λ scene.
        WalkGoesOn scene (mode_of follow)
        (led scene.volume scene.view (mode_of follow) pfs.0) stand walked)) }
    ensures now { stand.at.when ≡ None → IfOk result StaysNow }
    ensures keeps { IsSame T.HasElements store.old store.new }
    ensures borrowed { KeepsFrame T.Counted store.old store.new }
    ensures cause { ReadsWithCause T.HasElements store.old store.new result }
{
    match follow {
        Follow::Stays => Ok(Ok(stand)),
        Follow::Follows => enter(alloc, store, course, pfs, stand.at.when, stand.passed),
        Follow::TakesPfs => take_pfs(alloc, store, course, pfs, stand.at.when, stand.passed),
    }
}

// From an object that was found.
fn from_found<T: ElementStore + Extents>(
    alloc: Global,
    store: &mut T,
    course: Course,
    follow: Follow,
    stand: Stand,
) -> Result<Result<Stand, Lost>, Fault>
    requires balanced { InBalance T.HasElements store.old }
    ensures ok { IfOk result (λ walked.
        OnShown (T.elements store.old) (T.extents store.old) course (λ scene.
        (object : Object) → object_at scene.view (place_of stand.at) ≡ Some object
        → WalkGoesOn scene (mode_of follow)
        (gone scene.volume scene.view (mode_of follow) object) stand walked)) }
    ensures now { stand.at.when ≡ None → IfOk result StaysNow }
    ensures keeps { IsSame T.HasElements store.old store.new }
    ensures borrowed { KeepsFrame T.Counted store.old store.new }
    ensures cause { ReadsWithCause T.HasElements store.old store.new result }
{
    match stand.link() {
        Some(pfs) => over_link(alloc, store, course, follow, pfs, stand),
        None => Ok(Ok(stand)),
    }
}

// To the object with this number, which the tree in hand must have.
fn to_object<T: ElementStore + Extents>(
    alloc: Global,
    store: &mut T,
    course: Course,
    follow: Follow,
    object: Obj,
    stand: Stand,
) -> Result<Result<Stand, Lost>, Fault>
    requires balanced { InBalance T.HasElements store.old }
    ensures ok { IfOk result (λ walked.
        OnShown (T.elements store.old) (T.extents store.old) course (λ scene.
        WalkGoesOn scene (mode_of follow) (λ here. find_object scene.volume scene.view
        (mode_of follow) (record here { object = object })) stand walked)) }
    ensures now { stand.at.when ≡ None → IfOk result StaysNow }
    ensures keeps { IsSame T.HasElements store.old store.new }
    ensures borrowed { KeepsFrame T.Counted store.old store.new }
    ensures cause { ReadsWithCause T.HasElements store.old store.new result }
{
    let at = Position { object, ..stand.at };
    match look_at(store, at, stand.as_of, course.passes(stand.passed, at))? {
        Ok(found) => from_found(alloc, store, course, follow, found),
        Err(lost) => Ok(Err(lost)),
    }
}

// To a name in the directory in hand.
fn to_name<T: ElementStore + Extents, H: NameHash>(
    alloc: Global,
    store: &mut T,
    hash: &H,
    course: Course,
    follow: Follow,
    name: &[u8],
    stand: Stand,
) -> Result<Result<Stand, Lost>, Fault>
    requires balanced { InBalance T.HasElements store.old }
    ensures ok { IfOk result (λ walked.
        OnShown (T.elements store.old) (T.extents store.old) course (λ scene.
        KeysFit (H.hash_of hash.now) scene.elements → WalkGoesOn scene (mode_of follow)
        (find_name scene.volume scene.view (mode_of follow) name.now) stand walked)) }
    ensures now { stand.at.when ≡ None → IfOk result StaysNow }
    ensures keeps { IsSame T.HasElements store.old store.new }
    ensures borrowed { KeepsFrame T.Counted store.old store.new }
    ensures cause { ReadsWithCause T.HasElements store.old store.new result }
{
    match look_up(
        store,
        hash,
        stand.at.pfs,
        stand.at.object,
        name,
        stand.as_of,
    )? {
        Some((_, object)) => to_object(alloc, store, course, follow, object, stand),
        None => Ok(Err(Lost::NotFound)),
    }
}

// By the name of a part, if it has one: the object in hand must be a directory.
pub(crate) fn by_name<T: ElementStore + Extents, H: NameHash>(
    alloc: Global,
    store: &mut T,
    hash: &H,
    course: Course,
    follow: Follow,
    part: &Part,
    stand: Stand,
) -> Result<Result<Stand, Lost>, Fault>
    requires balanced { InBalance T.HasElements store.old }
    ensures ok { IfOk result (λ walked.
        OnShown (T.elements store.old) (T.extents store.old) course (λ scene.
        KeysFit (H.hash_of hash.now) scene.elements → WalkGoesOn scene (mode_of follow)
        (named scene.volume scene.view (mode_of follow) part.now.name) stand walked)) }
    ensures now { stand.at.when ≡ None → IfOk result StaysNow }
    ensures keeps { IsSame T.HasElements store.old store.new }
    ensures borrowed { KeepsFrame T.Counted store.old store.new }
    ensures cause { ReadsWithCause T.HasElements store.old store.new result }
{
    let Some(name) = &part.name else {
        return Ok(Ok(stand));
    };
    if !stand.is_directory() {
        return Ok(Err(Lost::NotDir));
    }
    to_name(alloc, store, hash, course, follow, name.bytes(), stand)
}

// By the id of a part, if it has one: the PFS in hand must keep it, and its tree as of then must
// have the object in hand.
pub(crate) fn by_id<T: ElementStore + Extents>(
    alloc: Global,
    store: &mut T,
    as_of: Option<Id>,
    stand: Stand,
) -> Result<Result<Stand, Lost>, Fault>
    requires balanced { InBalance T.HasElements store.old }
    ensures ok { IfOk result (λ walked. (course : Course) →
        OnShown (T.elements store.old) (T.extents store.old) course (λ scene.
        IsDrawn scene.course.last as_of
        → WalkGoesOn scene follows (seen scene.volume scene.view as_of) stand walked)) }
    ensures now { as_of ≡ None → stand.at.when ≡ None → IfOk result StaysNow }
    ensures keeps { IsSame T.HasElements store.old store.new }
    ensures borrowed { KeepsFrame T.Counted store.old store.new }
    ensures cause { ReadsWithCause T.HasElements store.old store.new result }
{
    let Some(id) = as_of else {
        return Ok(Ok(stand));
    };
    let Some(record) = find_record(alloc, store, stand.at.pfs)? else {
        return Ok(Err(Lost::NotRetained));
    };
    if !record.retention.keeps(id) {
        return Ok(Err(Lost::NotRetained));
    }
    let at = Position {
        when: Some(id),
        ..stand.at
    };
    look_at(store, at, id, stand.passed)
}
