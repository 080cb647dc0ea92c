// How far a reblock came.
use hm_key::{Base, Element};

/// What the next unit does.
#[derive(Clone, Copy)]
pub(crate) enum Stage {
    /// It collects elements of the choice, from a key on, or puts them in the order of their
    /// payloads where that walk is at its end.
    Collect(Option<Base>),
    /// It moves an extent of what was collected, from a place of that list on.
    Move(usize),
}

/// An element of the choice, and the stage that goes on with it.
#[derive(Clone, Copy)]
pub(crate) struct Left {
    pub element: Element,
    pub stage: Stage,
}
