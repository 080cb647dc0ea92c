// A walk along the elements that are seen as of an id.
ghost use Rattle.std.specs.Prelude.{◌≡◌, ◌↔◌, IfSome, IfOk, OnErr, OnOk, IsTrue};
ghost use Rattle.hm_types.specs.Elements.{Sees};
ghost use Rattle.hm_key.specs.Key.{key_of, least_key};
ghost use Rattle.hm_key.specs.Members.{HasElementsCause, IsSame, KeepsFrame};
ghost use Rattle.hm_cursor.specs.Shown.{IsNext, GoesPast, StandsAt};

use hm_key::{Base, Element, ElementStore};
use hm_types::{Counted, Fault, Id};

/// Goes through the elements of one localization that are seen as of an id, in the order of their
/// keys, each once. It keeps no place in the store but the key that it came to, so the store may
/// change between two calls.
#[derive(Clone, Copy, Debug)]
pub struct Cursor {
    pub(crate) localization: u32,
    pub(crate) as_of: Id,
    // The key from which on elements are still to come, and None where the last one has come.
    pub(crate) from: Option<Base>,
}

impl Cursor {
    /// A cursor before the first element of a localization. Takes no memory.
    pub fn new(localization: u32, as_of: Id) -> Cursor
        ensures { StandsAt localization as_of.0 least_key result }
    {
        Cursor {
            localization,
            as_of,
            from: Some(Base {
                localization,
                ..Base::least()
            }),
        }
    }

    /// Goes to a key: what comes next stands at it or after it. It asks nothing of the store.
    pub fn seek<T: ElementStore>(&mut self, store: &mut T, at: &Base) -> Result<(), Fault>
        ensures ok { OnOk result (StandsAt self.old.localization self.old.as_of.0 (key_of at.now)
            self.new) }
        ensures keeps { IsSame T.HasElements store.old store.new }
        ensures name { T.name store.new ≡ T.name store.old }
        ensures frame { T.frame store.new ≡ T.frame store.old }
        ensures cause { HasElementsCause T.HasElements store.old store.new result }
    {
        self.from = Some(if at.localization < self.localization {
            Base {
                localization: self.localization,
                ..Base::least()
            }
        } else {
            *at
        });
        Ok(())
    }

    /// The next element that is seen, and None exactly where no further one is. After an error and
    /// after None the cursor stands where it stood. The faults are those of the store.
    pub fn next<T: ElementStore>(&mut self, store: &mut T) -> Result<Option<Element>, Fault>
        ensures ok { IfSome (T.elements store.old) (λ es.
            IfOk result (IsNext es self.old)) }
        ensures passes { IfOk result (λ found. GoesPast self.old found self.new) }
        ensures err { OnErr result (self.new ≡ self.old) }
        ensures keeps { IsSame T.HasElements store.old store.new }
        ensures borrowed { KeepsFrame T.Counted store.old store.new }
        ensures cause { HasElementsCause T.HasElements store.old store.new result }
    {
        let mut from = self.from;
        while let Some(at) = from {
            let Some(element) = store.first_at_or_after(&at)? else {
                return Ok(None);
            };
            if element.base.localization > self.localization {
                return Ok(None);
            }
            from = element.base.key_after();
            if element.base.localization == self.localization
                && is_seen(&element.base, self.as_of)
            {
                self.from = from;
                return Ok(Some(element));
            }
        }
        Ok(None)
    }
}

/// Whether an element with these ids is seen as of an id: it was made by then, and is open, or was
/// closed later.
pub(crate) fn is_seen(base: &Base, as_of: Id) -> bool
    ensures { IsTrue result ↔ Sees base.now.create base.now.delete as_of.0 }
{
    base.create <= as_of.0 && (base.delete == 0 || as_of.0 < base.delete)
}
