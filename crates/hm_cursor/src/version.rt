// The element that counts about a subject as of an id: the newest of its versions that were made by
// then, where it is seen.
ghost use Rattle.std.specs.Prelude.{◌≡◌, ◌↔◌, ◌≤◌, IfSome, IfOk, IsTrue};
ghost use Rattle.hm_key.specs.Counts.{subject_of};
ghost use Rattle.hm_key.specs.Element.{IsElement};
ghost use Rattle.hm_key.specs.Key.{key_of};
ghost use Rattle.hm_key.specs.Members.{HasElementsCause, IsSame, KeepsFrame};
ghost use Rattle.hm_cursor.specs.Version.{AreOfOneKind, IsFirst, IsFoundAbout, IsFoundIn, IsLast, IsMadeUpTo};
ghost use Rattle.hm_cursor.specs.Version.{IsNewestMade, IsNewestMadeOf, IsOldestOf, IsVersion, numbered};

use crate::cursor::is_seen;
use hm_key::{Base, Element, ElementStore};
use hm_types::{Counted, Fault, Id};

/// The element that counts about what `at` is about, as of an id: of those with its localization,
/// object, type and key, whatever their create ids, the newest one that was made by then, where it
/// is seen. None exactly where that one is closed, whatever the older ones are, or none was made.
///
/// It takes one search, however many versions there are. The faults are those of the store.
pub fn version_at<T: ElementStore>(
    store: &mut T,
    at: &Base,
    as_of: Id,
) -> Result<Option<Element>, Fault>
    ensures ok { IfSome (T.elements store.old) (λ es.
        IfOk result (IsVersion es (subject_of (key_of at.now)) as_of.0)) }
    ensures found { IfOk result (λ found.
        IfSome found (IsFoundAbout (subject_of (key_of at.now)) as_of.0)) }
    ensures keeps { IsSame T.HasElements store.old store.new }
    ensures borrowed { KeepsFrame T.Counted store.old store.new }
    ensures cause { HasElementsCause T.HasElements store.old store.new result }
{
    let Some(newest) = newest_made(store, at, as_of)? else {
        return Ok(None);
    };
    if is_seen(&newest.base, as_of) {
        return Ok(Some(newest));
    }
    Ok(None)
}

/// The first element that counts as of an id among those about the object and of the type of `at`
/// with a key from its own to `last`. None exactly where none of them counts. It takes two searches
/// for each key in the span up to the one that is found, and one where all was made later. The
/// faults are those of the store.
pub fn first_version<T: ElementStore>(
    store: &mut T,
    at: &Base,
    last: u64,
    as_of: Id,
) -> Result<Option<Element>, Fault>
    ensures ok { IfSome (T.elements store.old) (λ es.
        IfOk result (IsFirst es (key_of at.now) last as_of.0)) }
    ensures found { IfOk result (λ found.
        IfSome found (IsFoundIn (key_of at.now) last as_of.0)) }
    ensures keeps { IsSame T.HasElements store.old store.new }
    ensures borrowed { KeepsFrame T.Counted store.old store.new }
    ensures cause { HasElementsCause T.HasElements store.old store.new result }
{
    let mut key = at.key;
    while key <= last {
        let from = Base {
            key,
            create: 0,
            ..*at
        };
        let Some(oldest) = store.first_at_or_after(&from)? else {
            return Ok(None);
        };
        if !is_of_one_kind(&oldest.base, at) || oldest.base.key > last {
            return Ok(None);
        }
        if let Some(seen) = seen_from(store, &oldest, as_of)? {
            return Ok(Some(seen));
        }
        if oldest.base.key == last {
            return Ok(None);
        }
        key = oldest.base.key + 1;
    }
    Ok(None)
}

/// The last element that counts as of an id among those about the object and of the type of `at`
/// with a key from `first` to its own. None exactly where none of them counts. For each key in the
/// span down to the one that is found it takes one search, and one more where a version was made
/// later. The faults are those of the store.
pub fn last_version<T: ElementStore>(
    store: &mut T,
    at: &Base,
    first: u64,
    as_of: Id,
) -> Result<Option<Element>, Fault>
    ensures ok { IfSome (T.elements store.old) (λ es.
        IfOk result (IsLast es (numbered (key_of at.now) first) at.now.key as_of.0)) }
    ensures found { IfOk result (λ found.
        IfSome found (IsFoundIn (numbered (key_of at.now) first) at.now.key as_of.0)) }
    ensures keeps { IsSame T.HasElements store.old store.new }
    ensures borrowed { KeepsFrame T.Counted store.old store.new }
    ensures cause { HasElementsCause T.HasElements store.old store.new result }
{
    let mut key = at.key;
    while first <= key {
        let to = Base {
            key,
            create: as_of.0,
            ..*at
        };
        let Some(newest) = store.last_at_or_before(&to)? else {
            return Ok(None);
        };
        if !is_of_one_kind(&newest.base, at) || newest.base.key < first {
            return Ok(None);
        }
        if let Some(seen) = seen_to(store, &newest, as_of)? {
            return Ok(Some(seen));
        }
        if newest.base.key == first {
            return Ok(None);
        }
        key = newest.base.key - 1;
    }
    Ok(None)
}

// The version that counts, of those from the oldest one on.
fn seen_from<T: ElementStore>(
    store: &mut T,
    oldest: &Element,
    as_of: Id,
) -> Result<Option<Element>, Fault>
    requires { IfSome (T.elements store.old) (λ es.
        IsOldestOf es (subject_of (key_of oldest.now.base)) oldest.now) }
    ensures ok { IfSome (T.elements store.old) (λ es.
        IfOk result (IsVersion es (subject_of (key_of oldest.now.base)) as_of.0)) }
    ensures found { IfOk result (λ found.
        IfSome found (IsFoundAbout (subject_of (key_of oldest.now.base)) as_of.0)) }
    ensures keeps { IsSame T.HasElements store.old store.new }
    ensures borrowed { KeepsFrame T.Counted store.old store.new }
    ensures cause { HasElementsCause T.HasElements store.old store.new result }
{
    if oldest.base.create > as_of.0 {
        return Ok(None);
    }
    version_at(store, &oldest.base, as_of)
}

// The version that counts, of those up to the latest one.
fn seen_to<T: ElementStore>(
    store: &mut T,
    latest: &Element,
    as_of: Id,
) -> Result<Option<Element>, Fault>
    requires element { IsElement latest.now }
    requires newest { IfSome (T.elements store.old) (λ es. latest.now.base.create ≤ as_of.0 →
        IsNewestMadeOf es (subject_of (key_of latest.now.base)) as_of.0 latest.now) }
    ensures ok { IfSome (T.elements store.old) (λ es.
        IfOk result (IsVersion es (subject_of (key_of latest.now.base)) as_of.0)) }
    ensures found { IfOk result (λ found.
        IfSome found (IsFoundAbout (subject_of (key_of latest.now.base)) as_of.0)) }
    ensures keeps { IsSame T.HasElements store.old store.new }
    ensures borrowed { KeepsFrame T.Counted store.old store.new }
    ensures cause { HasElementsCause T.HasElements store.old store.new result }
{
    if latest.base.create > as_of.0 {
        return version_at(store, &latest.base, as_of);
    }
    if is_seen(&latest.base, as_of) {
        return Ok(Some(*latest));
    }
    Ok(None)
}

// The newest version of what `at` is about, of those made by an id.
pub(crate) fn newest_made<T: ElementStore>(
    store: &mut T,
    at: &Base,
    as_of: Id,
) -> Result<Option<Element>, Fault>
    ensures ok { IfSome (T.elements store.old) (λ es.
        IfOk result (IsNewestMade es (subject_of (key_of at.now)) as_of.0)) }
    ensures found { IfOk result (λ found.
        IfSome found (IsMadeUpTo (subject_of (key_of at.now)) as_of.0)) }
    ensures keeps { IsSame T.HasElements store.old store.new }
    ensures borrowed { KeepsFrame T.Counted store.old store.new }
    ensures cause { HasElementsCause T.HasElements store.old store.new result }
{
    let to = Base {
        create: as_of.0,
        ..*at
    };
    let Some(found) = store.last_at_or_before(&to)? else {
        return Ok(None);
    };
    if !is_about(&found.base, at) {
        return Ok(None);
    }
    Ok(Some(found))
}

// Whether two bases are about one subject.
fn is_about(base: &Base, other: &Base) -> bool
    ensures { IsTrue result ↔ (subject_of (key_of base.now) ≡ subject_of (key_of other.now)) }
{
    is_of_one_kind(base, other) && base.key == other.key
}

// Whether two bases are about one object of one localization, and of one type.
fn is_of_one_kind(base: &Base, other: &Base) -> bool
    ensures { IsTrue result ↔ AreOfOneKind (key_of base.now) (key_of other.now) }
{
    base.localization == other.localization
        && base.obj == other.obj
        && base.rec_type == other.rec_type
}
