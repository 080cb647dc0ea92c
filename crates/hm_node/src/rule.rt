// What may be broken in a page.
ghost use Rattle.std.specs.Prelude.{◌≡◌};
ghost use Rattle.hm_node.specs.Damage.{number_of};

use hm_types::{BAD_COUNT, BAD_FIELD, BAD_LEVEL, BAD_MIRROR, BAD_ORDER};

/// A rule that a page breaks, if it spells no node.
#[derive(Clone, Copy, Debug, PartialEq, Eq)]
pub enum Rule {
    /// The kind is 1 and the level 1, or the kind is 2 and the level 2 to 9.
    Level,
    /// A leaf has at most 63 elements, and an inner node has 1 to 62 children.
    Count,
    /// The elements or the boundaries are in strictly rising order.
    Order,
    /// Each field of a place has a value that may stand there, and each byte without a meaning is 0.
    Fields,
    /// The node's `mirror` is at least each id of its elements, or each `mirror` of its children.
    Mirror,
}

impl Rule {
    /// The number under which damage is told. `BAD_BOUNDS`, for what lies outside the boundaries
    /// that the node's parent has for it, is told by the crate that descends from the root.
    pub fn kind(self) -> u8
        ensures { result ≡ number_of self }
    {
        match self {
            Rule::Level => BAD_LEVEL,
            Rule::Count => BAD_COUNT,
            Rule::Order => BAD_ORDER,
            Rule::Fields => BAD_FIELD,
            Rule::Mirror => BAD_MIRROR,
        }
    }
}
