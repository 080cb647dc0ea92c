// The roots of pseudo file systems: where walks begin, and where links lead.
ghost use Rattle.std.specs.Prelude.{◌≡◌, [], ◌∷◌, IfOk, None};
ghost use Rattle.hm_model.specs.Walk.{Passed, enter as entered, start as begin, take_pfs as taken};
ghost use Rattle.hm_model.specs.Walk.{Follows as follows, TakesPfs as takes_pfs};
ghost use Rattle.hm_records.specs.View.{IsViewOf};
ghost use Rattle.hm_cursor.specs.Told.{ReadsWithCause};
ghost use Rattle.hm_dirs.specs.Walk.{ComesOut, EndsAt, IsDrawn, IsSeenAs, IsShownAs, IsTold, OnShown, StaysNow};
ghost use Rattle.hm_dirs.specs.Walk.{found_at, place_of, root_at, shown_by, when_of};
ghost use Rattle.hm_key.specs.Members.{InBalance, IsSame, KeepsFrame};

use crate::position::{Course, Lost, Position, Stand};
use hm_cursor::{find_inode, find_record};
use hm_key::{ElementStore, Extents, HasElements, HasRoom};
use hm_records::PfsRecord;
use hm_types::{Counted, Fault, Id, Obj, Pfs};
use std::alloc::Global;

/// The number of every root directory.
const ROOT: Obj = Obj(1);

/// Where each walk starts: in the root of PFS 0, now.
pub(crate) fn start<T: ElementStore + Extents>(
    alloc: Global,
    store: &mut T,
    course: Course,
) -> Result<Stand, Fault>
    requires balanced { InBalance T.HasElements store.old }
    ensures ok { IfOk result (λ stand.
        OnShown (T.elements store.old) (T.extents store.old) course (λ scene.
        EndsAt scene follows begin ((0, 1) ∷ []) stand)) }
    ensures now { IfOk result (λ stand. stand.at.when ≡ None) }
    ensures keeps { IsSame T.HasElements store.old store.new }
    ensures borrowed { KeepsFrame T.Counted store.old store.new }
    ensures cause { ReadsWithCause T.HasElements store.old store.new result }
{
    let first = find_record(alloc, store, Pfs(0))?;
    let as_of = first_as_of(&first, course.last);
    let at = root_of(Pfs(0), None);
    let inode = find_inode(store, at.pfs, at.object, as_of)?;
    Ok(Stand {
        at,
        as_of,
        inode,
        passed: course.passes(false, at),
    })
}

/// Into the PFS that a link leads to: there must be one, and it must keep the id that is in force.
/// Then its tree must have a root.
pub(crate) fn enter<T: ElementStore + Extents>(
    alloc: Global,
    store: &mut T,
    course: Course,
    pfs: Pfs,
    when: Option<Id>,
    passed: bool,
) -> Result<Result<Stand, Lost>, Fault>
    requires balanced { InBalance T.HasElements store.old }
    ensures ok { IfOk result (λ walked.
        OnShown (T.elements store.old) (T.extents store.old) course (λ scene.
        (list : Passed) → IsTold scene list passed → IsDrawn scene.course.last when
        → ComesOut scene follows
        (entered scene.volume scene.view pfs.0 (when_of when) list) walked)) }
    ensures now { when ≡ None → IfOk result StaysNow }
    ensures keeps { IsSame T.HasElements store.old store.new }
    ensures borrowed { KeepsFrame T.Counted store.old store.new }
    ensures cause { ReadsWithCause T.HasElements store.old store.new result }
{
    let Some(record) = find_record(alloc, store, pfs)? else {
        return Ok(Err(Lost::NotFound));
    };
    let Some(as_of) = seen_as_of(&record, course.last, when) else {
        return Ok(Err(Lost::NotRetained));
    };
    let at = root_of(pfs, when);
    look_at(store, at, as_of, course.passes(passed, at))
}

/// The PFS that a link leads to, without a look at its root.
pub(crate) fn take_pfs<T: ElementStore + Extents>(
    alloc: Global,
    store: &mut T,
    course: Course,
    pfs: Pfs,
    when: Option<Id>,
    passed: bool,
) -> Result<Result<Stand, Lost>, Fault>
    requires balanced { InBalance T.HasElements store.old }
    ensures ok { IfOk result (λ walked.
        OnShown (T.elements store.old) (T.extents store.old) course (λ scene.
        (list : Passed) → IsTold scene list passed → ComesOut scene takes_pfs
        (taken scene.volume pfs.0 (when_of when) list) walked)) }
    ensures now { when ≡ None → IfOk result StaysNow }
    ensures keeps { IsSame T.HasElements store.old store.new }
    ensures borrowed { KeepsFrame T.Counted store.old store.new }
    ensures cause { ReadsWithCause T.HasElements store.old store.new result }
{
    let Some(record) = find_record(alloc, store, pfs)? else {
        return Ok(Err(Lost::NotFound));
    };
    Ok(Ok(Stand {
        at: root_of(pfs, when),
        as_of: when.unwrap_or(shown_as_of(&record, course.last)),
        inode: None,
        passed,
    }))
}

/// To an object of a tree that is read as of an id, which the tree must have.
pub(crate) fn look_at<T: ElementStore + Extents>(
    store: &mut T,
    at: Position,
    as_of: Id,
    passed: bool,
) -> Result<Result<Stand, Lost>, Fault>
    requires balanced { InBalance T.HasElements store.old }
    ensures ok { IfOk result (λ walked. (course : Course) →
        OnShown (T.elements store.old) (T.extents store.old) course (λ scene.
        (list : Passed) → IsTold scene list passed → IsDrawn scene.course.last at.when
        → IsViewOf scene.elements at.pfs.0 as_of.0 (scene.view at.pfs.0 (when_of at.when))
        → ComesOut scene follows (found_at scene.view (place_of at) list) walked)) }
    ensures now { at.when ≡ None → IfOk result StaysNow }
    ensures keeps { IsSame T.HasElements store.old store.new }
    ensures borrowed { KeepsFrame T.Counted store.old store.new }
    ensures cause { ReadsWithCause T.HasElements store.old store.new result }
{
    match find_inode(store, at.pfs, at.object, as_of)? {
        Some(inode) => Ok(Ok(Stand {
            at,
            as_of,
            inode: Some(inode),
            passed,
        })),
        None => Ok(Err(Lost::NotFound)),
    }
}

// The root of a PFS.
fn root_of(pfs: Pfs, when: Option<Id>) -> Position
    ensures { result ≡ root_at pfs when }
{
    Position {
        pfs,
        object: ROOT,
        when,
    }
}

// The id as of which the first PFS is shown. Where there is none it is 0, as of which there is
// nothing.
fn first_as_of(first: &Option<PfsRecord>, last: Id) -> Id
    ensures { IsShownAs last.0 first.now result.0 }
{
    match first {
        Some(pfs) => shown_as_of(pfs, last),
        None => Id(0),
    }
}

// The id as of which a PFS is read, where it is seen as of then. None where it does not keep the
// id.
fn seen_as_of(pfs: &PfsRecord, last: Id, when: Option<Id>) -> Option<Id>
    ensures { IsSeenAs last.0 pfs.now when result }
{
    match when {
        None => Some(shown_as_of(pfs, last)),
        Some(id) if pfs.retention.keeps(id) => Some(id),
        Some(_) => None,
    }
}

// The id as of which a PFS is shown now.
fn shown_as_of(pfs: &PfsRecord, last: Id) -> Id
    ensures { result.0 ≡ shown_by last.0 pfs.now }
{
    if pfs.master { last } else { pfs.sync_end }
}
