// An element with its bytes, and which one counts.
ghost use Rattle.std.specs.Prelude.{◌≡◌, ◌↔◌, IsTrue};
ghost use Rattle.std.specs.List.{list_any};
ghost use Rattle.std.specs.Option.{option_copied};
ghost use Rattle.std.specs.Ordering.{is_eq};
ghost use Rattle.hm_types.specs.Elements.{key_cmp};
ghost use Rattle.hm_key.specs.Counts.{IsSeen};
ghost use Rattle.hm_key.specs.Versions.{HaveOwnKeys, is_about};
ghost use Rattle.hm_records.specs.PlainView.{
  IsAtLeast,
  IsCounted,
  IsNewerVersion,
  IsNewest,
  is_at_key,
  full_of,
};

use crate::plain::subject::Subject;
use hm_key::Base;
use hm_types::Obj;
use std::marker::Model;

/// An element with the bytes of its payload. A contract sees its key, the id that closed it and its
/// bytes.
#[derive(Debug, Drop)]
pub struct FullElement {
    base: Base,
    bytes: Vec<u8>,
}

impl Model for FullElement {
    ghost use Rattle.hm_types.specs.Elements.{FullElement as Element};
    ghost use Rattle.hm_records.specs.PlainView.{full_of as viewed};

    ghost Value = { Element };

    ghost view = { λ e. viewed e.base e.bytes.items };
}

impl FullElement {
    pub fn of(base: Base, bytes: Vec<u8>) -> FullElement
        ensures { result ≡ full_of base bytes.items }
    {
        FullElement { base, bytes }
    }

    /// The object that it belongs to.
    pub(crate) fn obj(&self) -> Obj
        ensures { result.0 ≡ self.now.key.obj }
    {
        self.base.obj
    }

    /// Where it stands among those of its object and its type.
    pub(crate) fn key(&self) -> u64
        ensures { result ≡ self.now.key.key }
    {
        self.base.key
    }

    /// The id that made it.
    pub(crate) fn create(&self) -> u64
        ensures { result ≡ self.now.key.create }
    {
        self.base.create
    }

    /// The bytes of its payload.
    pub(crate) fn bytes(&self) -> &[u8]
        ensures { result.now ≡ self.now.bytes }
    {
        &self.bytes
    }

    /// Whether it has the key of another one.
    fn is_at(&self, other: &FullElement) -> bool
        ensures { result ≡ is_eq (key_cmp self.now.key other.now.key) }
    {
        self.base.order(&other.base).is_eq()
    }

    /// Whether it is a version of this subject.
    pub(crate) fn is_about(&self, subject: &Subject) -> bool
        ensures { result ≡ is_about subject.now self.now.key }
    {
        self.base.localization == subject.localization
            && self.base.obj.0 == subject.obj.0
            && self.base.rec_type == subject.rec_type
            && self.base.key == subject.key
    }

    /// Whether it is seen as of an id.
    pub(crate) fn is_seen(&self, id: u64) -> bool
        ensures { IsTrue result ↔ IsSeen id self.now }
    {
        self.base.create <= id && (self.base.delete == 0 || id < self.base.delete)
    }
}

/// Whether no two elements have one key. Slow: its work grows with the square of their number.
pub fn have_own_keys(elements: &[FullElement]) -> bool
    ensures { IsTrue result → HaveOwnKeys elements.now }
{
    for (i, element) in elements.iter().enumerate() {
        if has_key(&elements[..i], element) {
            return false;
        }
    }
    true
}

// Whether one of the elements has the key of another one.
fn has_key(elements: &[FullElement], element: &FullElement) -> bool
    ensures { result ≡ list_any (is_at_key element.now.key) elements.now }
{
    elements.iter().any(|e| e.is_at(element))
}

/// The newest version of a subject that was made by an id, if one was.
fn newest<'a>(elements: &'a [FullElement], subject: &Subject, id: u64) -> Option<&'a FullElement>
    ensures { IsNewest elements.now id subject.now (option_copied result) }
{
    let mut newest: Option<&FullElement> = None;
    let mut since: Option<u64> = None;
    for element in elements {
        if is_newer_version(element, subject, id, since) {
            newest = Some(element);
            since = Some(element.create());
        }
    }
    newest
}

// Whether an element is a version of the subject that was made by an id, and at least as new as
// another one.
fn is_newer_version(element: &FullElement, subject: &Subject, id: u64, since: Option<u64>) -> bool
    ensures { IsTrue result ↔ IsNewerVersion id subject.now since element.now }
{
    element.is_about(subject) && element.create() <= id && is_from(element.create(), since)
}

// Whether a number is at least another one, or there is no other.
fn is_from(number: u64, other: Option<u64>) -> bool
    ensures { IsTrue result ↔ IsAtLeast number other }
{
    match other {
        Some(other) => other <= number,
        None => true,
    }
}

/// The bytes that count for a subject as of an id, if any do: those of its newest version that was
/// made by then, where it is seen then.
pub(crate) fn counted<'a>(
    elements: &'a [FullElement],
    subject: &Subject,
    id: u64,
) -> Option<&'a [u8]>
    requires { HaveOwnKeys elements.now }
    ensures { IsCounted elements.now id subject.now (option_copied result) }
{
    let Some(element) = newest(elements, subject, id) else {
        return None;
    };
    if !element.is_seen(id) {
        return None;
    }
    Some(element.bytes())
}
