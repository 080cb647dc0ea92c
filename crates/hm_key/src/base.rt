// What an element or a boundary stands by: its key, and the id that closed it.
ghost use Rattle.hm_types.specs.Elements.{key_cmp};
ghost use Rattle.hm_key.specs.Key.{key_of, least_key, greatest_key, IsBoundary, IsKeyAfter};

use hm_types::Obj;
use std::cmp::Ordering;

/// The `btype` of an element.
pub const ELEMENT: u8 = 1;

/// The `btype` of a boundary, which stands between the elements of two nodes.
pub const BOUNDARY: u8 = 2;

/// The place of an element or of a boundary in the tree. Its key is made of five fields, of which
/// the first in which two bases differ decides: localization, object, type, key, create id.
#[derive(Clone, Copy, Debug, PartialEq, Eq)]
pub struct Base {
    /// The object that it belongs to, within its pseudo file system.
    pub obj: Obj,
    /// Where it stands among the object's elements of its type.
    pub key: u64,
    /// The id that made it, above 0 in an element.
    pub create: u64,
    /// The id that closed it, above the one that made it, or 0 while it is open.
    pub delete: u64,
    /// What it is about.
    pub rec_type: u16,
    /// The kind of its object: 1 a directory, 2 a file, 3 a softlink, 4 a PFS link.
    pub obj_type: u8,
    /// 1 for an element and 2 for a boundary.
    pub btype: u8,
    /// The number of its pseudo file system in the upper 16 bits; in the lower ones 1 for an inode,
    /// and 2 for all else.
    pub localization: u32,
}

impl Default for Base {
    ghost is_default = { λ base. IsBoundary base least_key };

    /// The left boundary of the whole tree.
    fn default() -> Base {
        Base::least()
    }
}

impl Base {
    ghost use Rattle.std.specs.Prelude.{◌≡◌};

    /// The left boundary of the whole tree: no base stands before it.
    pub fn least() -> Base
        ensures { IsBoundary result least_key }
    {
        Base {
            obj: Obj(0),
            key: 0,
            create: 0,
            delete: 0,
            rec_type: 0,
            obj_type: 0,
            btype: BOUNDARY,
            localization: 0,
        }
    }

    /// The right boundary of the whole tree: no base stands after it.
    pub fn greatest() -> Base
        ensures { IsBoundary result greatest_key }
    {
        Base {
            obj: Obj(u64::MAX),
            key: u64::MAX,
            create: u64::MAX,
            delete: 0,
            rec_type: u16::MAX,
            obj_type: 0,
            btype: BOUNDARY,
            localization: u32::MAX,
        }
    }

    /// The boundary at the key of this base.
    pub fn boundary(&self) -> Base
        ensures { IsBoundary result (key_of self.now) }
    {
        Base {
            delete: 0,
            obj_type: 0,
            btype: BOUNDARY,
            ..*self
        }
    }

    /// The boundary at the key that comes next after that of this base. None exactly where this is
    /// the greatest key.
    pub fn key_after(&self) -> Option<Base>
        ensures { IsKeyAfter (key_of self.now) result }
    {
        let at = self.boundary();
        if at.create < u64::MAX {
            return Some(Base {
                create: at.create + 1,
                ..at
            });
        }
        at.next_number()
    }

    // The first key about the next number of the same type, or else of the next type.
    fn next_number(self) -> Option<Base>
        requires create { self.create ≡ u64.MAX }
        requires boundary { IsBoundary self (key_of self) }
        ensures { IsKeyAfter (key_of self) result }
    {
        if self.key < u64::MAX {
            return Some(Base {
                key: self.key + 1,
                create: 0,
                ..self
            });
        }
        if self.rec_type < u16::MAX {
            return Some(Base {
                rec_type: self.rec_type + 1,
                key: 0,
                create: 0,
                ..self
            });
        }
        self.next_object()
    }

    // The first key of the next object, or else of the next localization.
    fn next_object(self) -> Option<Base>
        requires create { self.create ≡ u64.MAX }
        requires number { self.key ≡ u64.MAX }
        requires rec_type { self.rec_type ≡ u16.MAX }
        requires boundary { IsBoundary self (key_of self) }
        ensures { IsKeyAfter (key_of self) result }
    {
        if self.obj.0 < u64::MAX {
            return Some(Base {
                obj: Obj(self.obj.0 + 1),
                rec_type: 0,
                key: 0,
                create: 0,
                ..self
            });
        }
        if self.localization < u32::MAX {
            return Some(Base {
                localization: self.localization + 1,
                ..Base::least()
            });
        }
        None
    }

    /// How this base stands to the other in the tree. Bases with one key are equal here, whatever
    /// their other fields are.
    pub fn order(&self, other: &Base) -> Ordering
        ensures { result ≡ key_cmp (key_of self.now) (key_of other.now) }
    {
        self.localization
            .cmp(&other.localization)
            .then(self.obj.cmp(&other.obj))
            .then(self.rec_type.cmp(&other.rec_type))
            .then(self.key.cmp(&other.key))
            .then(self.create.cmp(&other.create))
    }
}

#[cfg(test)]
mod tests {
    use super::*;

    fn of(localization: u32, obj: u64, rec_type: u16, key: u64, create: u64) -> Base {
        Base {
            obj: Obj(obj),
            key,
            create,
            rec_type,
            localization,
            ..Base::least()
        }
    }

    #[test]
    fn compares_the_five_fields_in_turn(rt: HostRuntime) {
        let middle = of(5, 5, 5, 5, 5);
        for (other, wanted) in [
            (of(6, 4, 4, 4, 4), Ordering::Less),
            (of(5, 6, 4, 4, 4), Ordering::Less),
            (of(5, 5, 6, 4, 4), Ordering::Less),
            (of(5, 5, 5, 6, 4), Ordering::Less),
            (of(5, 5, 5, 5, 6), Ordering::Less),
            (of(5, 5, 5, 5, 5), Ordering::Equal),
            (of(5, 5, 5, 5, 4), Ordering::Greater),
            (of(5, 5, 5, 4, 6), Ordering::Greater),
            (of(5, 5, 4, 6, 6), Ordering::Greater),
            (of(5, 4, 6, 6, 6), Ordering::Greater),
            (of(4, 6, 6, 6, 6), Ordering::Greater),
            (Base::least(), Ordering::Greater),
            (Base::greatest(), Ordering::Less),
        ] {
            assert_eq!(rt; middle.order(&other), wanted, "{other:?}");
        }
    }

    #[test]
    fn goes_to_the_next_key(rt: HostRuntime) {
        const LONG: u64 = u64::MAX;
        const SHORT: u16 = u16::MAX;
        for (at, next) in [
            (of(5, 5, 5, 5, 5), of(5, 5, 5, 5, 6)),
            (of(5, 5, 5, 5, LONG - 1), of(5, 5, 5, 5, LONG)),
            (of(5, 5, 5, 5, LONG), of(5, 5, 5, 6, 0)),
            (of(5, 5, 5, LONG, LONG), of(5, 5, 6, 0, 0)),
            (of(5, 5, SHORT, LONG, LONG), of(5, 6, 0, 0, 0)),
            (of(5, LONG, SHORT, LONG, LONG), of(6, 0, 0, 0, 0)),
        ] {
            assert_eq!(rt; at.key_after(), Some(next), "{at:?}");
        }
        let mut element = of(5, 5, 5, 5, 5);
        element.delete = 9;
        element.btype = ELEMENT;
        assert_eq!(rt; element.key_after(), Some(of(5, 5, 5, 5, 6)));
        assert_eq!(rt; Base::greatest().key_after(), None);
    }

    #[test]
    fn finds_bases_equal_whatever_their_other_fields_are(rt: HostRuntime) {
        let mut other = of(5, 5, 5, 5, 5);
        other.delete = 9;
        other.obj_type = 2;
        other.btype = ELEMENT;
        assert_eq!(rt; other.order(&of(5, 5, 5, 5, 5)), Ordering::Equal);
        assert_eq!(rt; other.boundary(), of(5, 5, 5, 5, 5));
    }
}
