// What a node's place asks of it.
ghost use Rattle.std.specs.Prelude.{◌≡◌};
ghost use Rattle.hm_search.specs.Place.{place_number};

use hm_types::{BAD_BOUNDS, BAD_COUNT, BAD_LEVEL, BAD_MIRROR};

/// A rule that a node breaks where it stands, beside those that its page tells by itself.
#[derive(Clone, Copy, Debug, PartialEq, Eq)]
pub enum PlaceRule {
    /// The level of a node below the root is its parent's less 1.
    Level,
    /// A leaf below the root has an element, and an inner node below it 16 children.
    Count,
    /// The elements of a leaf lie inside the boundaries that its parent has for it. The first
    /// boundary of an inner node and its right one are those.
    Bounds,
    /// The `mirror` of a node below the root is the one that its parent has for it.
    Mirror,
}

impl PlaceRule {
    /// The number under which damage is told.
    pub fn kind(self) -> u8
        ensures { result ≡ place_number self }
    {
        match self {
            PlaceRule::Level => BAD_LEVEL,
            PlaceRule::Count => BAD_COUNT,
            PlaceRule::Bounds => BAD_BOUNDS,
            PlaceRule::Mirror => BAD_MIRROR,
        }
    }
}
