// A sorted list of elements with a mark for each key.
ghost use Rattle.std.specs.Prelude.{◌≡◌, ◌⊎◌, ℕ, ◌<◌, ◌≤◌, List, Option, IfSome, IsSome, IsNone, IfOk, OnOk, All};
ghost use Rattle.hm_types.specs.Elements.{Key};
ghost use Rattle.hm_types.specs.Space.{nothing, in_zone};
ghost use Rattle.hm_key.specs.Key.{key_of, greatest_key, IsBefore};
ghost use Rattle.hm_key.specs.Element.{IsElement};
ghost use Rattle.hm_key.specs.Elements.{IsContent, element_at, first_from, last_to, last_id, inserted, removed};
ghost use Rattle.hm_key.specs.Elements.{with_delete, with_payload};
ghost use Rattle.hm_key.specs.Marks.{Marks, MarksJoin, MarksStay, IsQuiet, IsMarked};
ghost use Rattle.hm_key.specs.Stores.{ElementsChange, IsFound, IsFoundTo, IsEnd};
ghost use Rattle.hm_key.specs.declared.element.Element.{Element};
ghost use Rattle.hm_key.specs.Members.{HasElementsCause, IsSame, KeepsTold, SpendsAtMost};

use crate::base::Base;
use crate::element::Element;
use crate::room::HasRoom;
use hm_types::{Counted, Fault, HOff, INSERT_ROOM, Id, TREE_ZONE};

/// What a store tells of its elements.
pub trait HasElements: HasRoom {
    /// Its elements in the order of their keys, where it tells them.
    ghost elements: { Self → Option (List Element) };

    /// For each key an id that is at least each one ever written there.
    ghost mark: { Self → Key → ℕ };
}

impl<T: HasElements> HasElements for &mut T {
    ghost elements = { λ t. T.elements t.now };

    ghost mark = { λ t. T.mark t.now };
}

/// A list of elements in the order of their keys, in which each key has a mark: an id that is at
/// least each one ever written there. Keys side by side may share one. Nothing but what was written
/// raises a mark, so that a reader may skip all that did not change after an id. A condition that
/// speaks of the content binds only where the store tells it.
///
/// Each call can answer `Media` where the count of faults rose in it, `NoMemory` where an
/// allocation was refused, and `Damaged` where the bytes that it read break their grammar, which is
/// never where the content is told. After an error of a call that writes, nothing is known of the
/// content, also not whether it is told: a tree that was left in the middle of a change has no list
/// to tell. A call that reads changes nothing, whatever it answers.
pub trait ElementStore: HasElements {
    /// The first element at the key of `at` or after it, and None where no element is there.
    fn first_at_or_after(&mut self, at: &Base) -> Result<Option<Element>, Fault>
        ensures ok { IfSome (Self.elements self.old) (λ es.
            IfOk result (λ found. found ≡ first_from (key_of at.now) es)) }
        ensures found { IfOk result (λ found. IfSome found (IsFound (key_of at.now))) }
        ensures keeps { IsSame Self.HasElements
            self.old self.new }
        ensures name { Self.name self.new ≡ Self.name self.old }
        ensures frame { Self.frame self.new ≡ Self.frame self.old }
        ensures cause { HasElementsCause Self.HasElements self.old self.new result };

    /// The last element at the key of `at` or before it, and None where no element is there.
    fn last_at_or_before(&mut self, at: &Base) -> Result<Option<Element>, Fault>
        ensures ok { IfSome (Self.elements self.old) (λ es.
            IfOk result (λ found. found ≡ last_to (key_of at.now) es)) }
        ensures found { IfOk result (λ found. IfSome found (IsFoundTo (key_of at.now))) }
        ensures keeps { IsSame Self.HasElements
            self.old self.new }
        ensures name { Self.name self.new ≡ Self.name self.old }
        ensures frame { Self.frame self.new ≡ Self.frame self.old }
        ensures cause { HasElementsCause Self.HasElements self.old self.new result };

    /// Adds an element, at whose key there is none. Takes at most 40,960 bytes of zone 8, which
    /// must have so much room.
    fn insert(&mut self, e: &Element) -> Result<(), Fault>
        requires new { IfSome (Self.elements self.old) (λ es.
            IsNone (element_at (key_of e.now.base) es)) }
        requires element { IsElement e.now }
        requires room { INSERT_ROOM ≤ Self.room self.old TREE_ZONE }
        ensures ok { OnOk result (ElementsChange Self.elements Self.mark Self.extents
            (inserted e.now) (Marks (key_of e.now.base) (last_id e.now)) self.old self.new) }
        ensures keeps { KeepsTold Self.HasElements self.old self.new result }
        ensures space { SpendsAtMost Self.HasElements (in_zone TREE_ZONE INSERT_ROOM)
            self.old self.new }
        ensures name { Self.name self.new ≡ Self.name self.old }
        ensures frame { Self.frame self.new ≡ Self.frame self.old }
        ensures cause { HasElementsCause Self.HasElements self.old self.new result };

    /// Closes the element at the key of `at` at the id `delete`, or opens it where that is 0.
    fn set_delete(&mut self, at: &Base, delete: u64) -> Result<(), Fault>
        requires there { IfSome (Self.elements self.old) (λ es.
            IsSome (element_at (key_of at.now) es)) }
        requires later { (delete ≡ 0) ⊎ (at.now.create < delete) }
        ensures ok { OnOk result (ElementsChange Self.elements Self.mark Self.extents
            (with_delete (key_of at.now) delete) (Marks (key_of at.now) delete) self.old self.new) }
        ensures keeps { KeepsTold Self.HasElements self.old self.new result }
        ensures space { SpendsAtMost Self.HasElements nothing self.old self.new }
        ensures name { Self.name self.new ≡ Self.name self.old }
        ensures frame { Self.frame self.new ≡ Self.frame self.old }
        ensures cause { HasElementsCause Self.HasElements self.old self.new result };

    /// Takes the element at the key of `at` out of the list. Its payload's extent stays.
    fn remove(&mut self, at: &Base) -> Result<(), Fault>
        requires there { IfSome (Self.elements self.old) (λ es.
            IsSome (element_at (key_of at.now) es)) }
        ensures ok { OnOk result (ElementsChange Self.elements Self.mark Self.extents
            (removed (key_of at.now)) (MarksJoin (key_of at.now)) self.old self.new) }
        ensures keeps { KeepsTold Self.HasElements self.old self.new result }
        ensures space { SpendsAtMost Self.HasElements nothing self.old self.new }
        ensures name { Self.name self.new ≡ Self.name self.old }
        ensures frame { Self.frame self.new ≡ Self.frame self.old }
        ensures cause { HasElementsCause Self.HasElements self.old self.new result };

    /// Lets the payload of the element at the key of `at` stand at `to`. No extent changes.
    fn readdress(&mut self, at: &Base, to: HOff) -> Result<(), Fault>
        requires there { IfSome (Self.elements self.old) (λ es.
            IsSome (element_at (key_of at.now) es)) }
        ensures ok { OnOk result (ElementsChange Self.elements Self.mark Self.extents
            (with_payload (key_of at.now) to) MarksStay self.old self.new) }
        ensures keeps { KeepsTold Self.HasElements self.old self.new result }
        ensures space { SpendsAtMost Self.HasElements nothing self.old self.new }
        ensures name { Self.name self.new ≡ Self.name self.old }
        ensures frame { Self.frame self.new ≡ Self.frame self.old }
        ensures cause { HasElementsCause Self.HasElements self.old self.new result };

    /// How far from the key of `at` on nothing was written after `since`: a boundary after that
    /// key, before which the marks of all keys are at most `since`. None exactly where the mark of
    /// the key itself is above `since`.
    fn unchanged_until(&mut self, at: &Base, since: Id) -> Result<Option<Base>, Fault>
        requires before { IsBefore (key_of at.now) greatest_key }
        ensures ok { IfSome (Self.elements self.old) (λ _.
            IfOk result (IsQuiet (Self.mark self.old) (key_of at.now) since.0)) }
        ensures found { IfOk result (λ end. IfSome end (IsEnd (key_of at.now))) }
        ensures keeps { IsSame Self.HasElements
            self.old self.new }
        ensures name { Self.name self.new ≡ Self.name self.old }
        ensures frame { Self.frame self.new ≡ Self.frame self.old }
        ensures cause { HasElementsCause Self.HasElements self.old self.new result };

    /// Told elements are in the order of their keys, and each may stand in a leaf.
    ghost sorted: { (s : Self) → IfSome (Self.elements s) IsContent };

    /// Where elements are told, the mark at the key of each is at least its two ids.
    ghost marked: { (s : Self) → IfSome (Self.elements s) (All (IsMarked (Self.mark s))) };
}

impl<T: ElementStore> ElementStore for &mut T {
    ghost sorted = { λ t. T.ElementStore.sorted t.now };

    ghost marked = { λ t. T.ElementStore.marked t.now };

    fn first_at_or_after(&mut self, at: &Base) -> Result<Option<Element>, Fault> {
        (**self).first_at_or_after(at)
    }

    fn last_at_or_before(&mut self, at: &Base) -> Result<Option<Element>, Fault> {
        (**self).last_at_or_before(at)
    }

    fn insert(&mut self, e: &Element) -> Result<(), Fault> {
        (**self).insert(e)
    }

    fn set_delete(&mut self, at: &Base, delete: u64) -> Result<(), Fault> {
        (**self).set_delete(at, delete)
    }

    fn remove(&mut self, at: &Base) -> Result<(), Fault> {
        (**self).remove(at)
    }

    fn readdress(&mut self, at: &Base, to: HOff) -> Result<(), Fault> {
        (**self).readdress(at, to)
    }

    fn unchanged_until(&mut self, at: &Base, since: Id) -> Result<Option<Base>, Fault> {
        (**self).unchanged_until(at, since)
    }
}
