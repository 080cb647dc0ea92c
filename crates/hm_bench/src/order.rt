// The keys of a job.
ghost use Rattle.hm_key.specs.Element.{IsElement};

use hm_key::{Base, ELEMENT, Element, OTHER_PART, SNAPSHOT};
use hm_types::{HOff, Obj};

// An odd number, by which each number up to 2^64 gives another one.
const FACTOR: u64 = 6_364_136_223_846_793_005;

/// In which order the keys of a job come.
#[derive(Clone, Copy, Debug, PartialEq, Eq)]
pub enum Order {
    Random,
    Rising,
}

impl Order {
    /// The order with this name.
    pub fn of(name: &str) -> Option<Order> {
        match name {
            "random" => Some(Order::Random),
            "rising" => Some(Order::Rising),
            _ => None,
        }
    }

    /// The element that comes after so many.
    pub fn element(self, before: u32) -> Element
        ensures { IsElement result }
    {
        let key = match self {
            Order::Random => u64::from(before).wrapping_mul(FACTOR),
            Order::Rising => u64::from(before),
        };
        Element {
            base: Base {
                obj: Obj(1),
                key,
                create: 1,
                delete: 0,
                rec_type: SNAPSHOT,
                obj_type: 1,
                btype: ELEMENT,
                localization: OTHER_PART,
            },
            payload: HOff::default(),
            len: 8,
        }
    }
}
