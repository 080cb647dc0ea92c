// New versions, and old ones that are closed.
ghost use Rattle.std.specs.Prelude.{◌≡◌, ◌<◌, None, Some, IfSome, IsNone, IsSome, IsSomeAnd, OnOk};
ghost use Rattle.hm_types.specs.Space.{nothing};
ghost use Rattle.hm_key.specs.Counts.{subject_of};
ghost use Rattle.hm_key.specs.Elements.{element_at};
ghost use Rattle.hm_key.specs.Key.{key_of};
ghost use Rattle.hm_key.specs.Versions.{Adds};
ghost use Rattle.hm_key.specs.Members.{HasContentCause, InBalance, KeepsFrame, KeepsTold, SpendsAtMost};
ghost use Rattle.hm_cursor.specs.Write.{AddsOfType, ClosesAt, ClosesIfOpen, FollowWith, HasRoomFor, IsClosedIn};
ghost use Rattle.hm_cursor.specs.Write.{IsFresh, IsNew, Rewrites, StayPlaced, full_with, taken, WritesStore};

use crate::version::newest_made;
use hm_key::{Base, Element, ElementStore, Extents, HasElements, HasRoom};
use hm_types::{Counted, Fault, Id};

/// Adds an element and its payload, which is put into a new extent of a zone. The versions of its
/// subject are older. From its create id on it counts, and nothing else does about that subject. What
/// is new has the type of object of the base.
/// The faults are those of the store; after one nothing is known of the content.
pub fn add_version<T: ElementStore + Extents>(
    store: &mut T,
    base: &Base,
    zone: u8,
    bytes: &[u8],
) -> Result<(), Fault>
    requires new { IsNew base.now zone bytes.now }
    requires balanced { InBalance T.HasElements store.old }
    requires fresh { IsFresh (T.elements store.old) (T.extents store.old)
        (subject_of (key_of base.now)) base.now.create }
    requires room { HasRoomFor (T.room store.old) zone bytes.now }
    ensures ok { OnOk result (WritesStore T.HasElements
        (Rewrites (subject_of (key_of base.now)) (Some bytes.now) base.now.create)
        store.old store.new) }
    ensures kind { OnOk result (WritesStore T.HasElements (AddsOfType base.now.obj_type)
        store.old store.new) }
    ensures keeps { KeepsTold T.HasElements store.old store.new result }
    ensures space { SpendsAtMost T.HasElements (taken zone bytes.now) store.old store.new }
    ensures borrowed { KeepsFrame T.Counted store.old store.new }
    ensures cause { HasContentCause T.HasElements store.old store.new result }
{
    insert_with_payload(store, base, zone, bytes)
}

/// Closes the open version at the key of `old` and adds an element about the same subject with its
/// payload, as `add_version` does. From the new one's create id on it counts, and at that id the old
/// one is closed, so that versions which followed one another do so still.
pub fn renew_version<T: ElementStore + Extents>(
    store: &mut T,
    old: &Base,
    base: &Base,
    zone: u8,
    bytes: &[u8],
) -> Result<(), Fault>
    requires new { IsNew base.now zone bytes.now }
    requires about { subject_of (key_of old.now) ≡ subject_of (key_of base.now) }
    requires there { IfSome (T.elements store.old) (λ es.
        IsSomeAnd (element_at (key_of old.now) es) (λ e. e.base.delete ≡ 0)) }
    requires balanced { InBalance T.HasElements store.old }
    requires fresh { IsFresh (T.elements store.old) (T.extents store.old)
        (subject_of (key_of base.now)) base.now.create }
    requires room { HasRoomFor (T.room store.old) zone bytes.now }
    ensures ok { OnOk result (WritesStore T.HasElements
        (Rewrites (subject_of (key_of base.now)) (Some bytes.now) base.now.create)
        store.old store.new) }
    ensures follows { OnOk result (WritesStore T.HasElements
        (FollowWith (subject_of (key_of base.now)) bytes.now base.now.create)
        store.old store.new) }
    ensures closed { OnOk result (IsClosedIn (T.elements store.new) (key_of old.now)
        base.now.create) }
    ensures keeps { KeepsTold T.HasElements store.old store.new result }
    ensures space { SpendsAtMost T.HasElements (taken zone bytes.now) store.old store.new }
    ensures borrowed { KeepsFrame T.Counted store.old store.new }
    ensures cause { HasContentCause T.HasElements store.old store.new result }
{
    close_older(store, old, Id(base.create))?;
    insert_with_payload(store, base, zone, bytes)
}

/// Closes the newest version of what `at` is about at an id above those of all, whatever the create
/// id of `at`, if it is open. From that id on nothing counts about it, and each payload stays where it
/// stands. It takes one search. The faults are those of the store; after one nothing
/// is known of the content.
pub fn close_versions<T: ElementStore + Extents>(
    store: &mut T,
    at: &Base,
    id: Id,
) -> Result<(), Fault>
    requires balanced { InBalance T.HasElements store.old }
    requires fresh { IsFresh (T.elements store.old) (T.extents store.old)
        (subject_of (key_of at.now)) id.0 }
    ensures ok { OnOk result (WritesStore T.HasElements
        (Rewrites (subject_of (key_of at.now)) None id.0) store.old store.new) }
    ensures placed { OnOk result (StayPlaced T.elements T.extents store.old store.new) }
    ensures keeps { KeepsTold T.HasElements store.old store.new result }
    ensures space { SpendsAtMost T.HasElements nothing store.old store.new }
    ensures borrowed { KeepsFrame T.Counted store.old store.new }
    ensures cause { HasContentCause T.HasElements store.old store.new result }
{
    let Some(newest) = newest_made(store, at, id)? else {
        return Ok(());
    };
    if newest.base.create >= id.0 {
        return Ok(());
    }
    close_if_open(store, &newest, id)
}

/// Puts bytes into a new extent of a zone, and adds an element that refers to it. No element stands
/// at its key; whether others about its subject are older is not asked. The faults are those of the
/// store; after one nothing is known of the content.
pub fn insert_with_payload<T: ElementStore + Extents>(
    store: &mut T,
    base: &Base,
    zone: u8,
    bytes: &[u8],
) -> Result<(), Fault>
    requires new { IsNew base.now zone bytes.now }
    requires balanced { InBalance T.HasElements store.old }
    requires lacks { IfSome (T.elements store.old) (λ es.
        IsNone (element_at (key_of base.now) es)) }
    requires room { HasRoomFor (T.room store.old) zone bytes.now }
    ensures ok { OnOk result (WritesStore T.HasElements (Adds (full_with base.now bytes.now))
        store.old store.new) }
    ensures keeps { KeepsTold T.HasElements store.old store.new result }
    ensures space { SpendsAtMost T.HasElements (taken zone bytes.now) store.old store.new }
    ensures borrowed { KeepsFrame T.Counted store.old store.new }
    ensures cause { HasContentCause T.HasElements store.old store.new result }
{
    let payload = store.place(zone, bytes)?;
    store.insert(&Element {
        base: *base,
        payload,
        len: bytes.len() as u32,
    })
}

// Closes a version at an id above the one that made it, if it is open.
fn close_if_open<T: ElementStore + Extents>(
    store: &mut T,
    version: &Element,
    id: Id,
) -> Result<(), Fault>
    requires there { IfSome (T.elements store.old) (λ es.
        element_at (key_of version.now.base) es ≡ Some version.now) }
    requires later { version.now.base.create < id.0 }
    ensures ok { OnOk result (ClosesIfOpen T.elements T.extents version.now id.0
        store.old store.new) }
    ensures keeps { KeepsTold T.HasElements store.old store.new result }
    ensures space { SpendsAtMost T.HasElements nothing store.old store.new }
    ensures borrowed { KeepsFrame T.Counted store.old store.new }
    ensures cause { HasContentCause T.HasElements store.old store.new result }
{
    if version.base.delete != 0 {
        return Ok(());
    }
    store.set_delete(&version.base, id.0)
}

// Closes the version at a key at an id. Where the store tells its content the version is older than
// the id; where it does not, one that is no older stays.
fn close_older<T: ElementStore + Extents>(store: &mut T, at: &Base, id: Id) -> Result<(), Fault>
    requires there { IfSome (T.elements store.old) (λ es.
        IsSome (element_at (key_of at.now) es)) }
    requires older { IfSome (T.elements store.old) (λ _. at.now.create < id.0) }
    ensures ok { OnOk result (ClosesAt T.elements T.extents (key_of at.now) id.0
        store.old store.new) }
    ensures keeps { KeepsTold T.HasElements store.old store.new result }
    ensures space { SpendsAtMost T.HasElements nothing store.old store.new }
    ensures borrowed { KeepsFrame T.Counted store.old store.new }
    ensures cause { HasContentCause T.HasElements store.old store.new result }
{
    if at.create >= id.0 {
        return Ok(());
    }
    store.set_delete(at, id.0)
}
