// Where a search comes to that looks beside its way down as well.
ghost use Rattle.std.specs.Prelude.{◌≡◌};
ghost use Rattle.hm_search.specs.Near.{element_of, reached_beside, reached_here};

use hm_key::Element;

/// Where a search for the nearest element on one side of a key came to, below a place.
#[derive(Clone, Copy)]
pub(crate) enum Reached {
    /// That element.
    Found(Element),
    /// None stands below the place, and what stands beside it was not looked at.
    Missed,
    /// The neighbour of the way down had none either, as happens in no sound tree.
    Nothing,
}

impl Reached {
    /// Where a search comes to by what the leaf of the key has.
    pub(crate) fn here(found: Option<Element>) -> Reached
        ensures { result ≡ reached_here found }
    {
        match found {
            Some(found) => Reached::Found(found),
            None => Reached::Missed,
        }
    }

    /// Where it comes to by what the neighbour of its way has.
    pub(crate) fn beside(found: Option<Element>) -> Reached
        ensures { result ≡ reached_beside found }
    {
        match found {
            Some(found) => Reached::Found(found),
            None => Reached::Nothing,
        }
    }

    /// The element that was found.
    pub(crate) fn element(self) -> Option<Element>
        ensures { result ≡ element_of self }
    {
        match self {
            Reached::Found(found) => Some(found),
            Reached::Missed | Reached::Nothing => None,
        }
    }
}
