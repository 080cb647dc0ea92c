// What an open call did with extents.

use hm_types::HOff;

/// What the open call did with an extent of a payload.
#[derive(Clone, Copy, Debug, PartialEq, Eq)]
pub enum Change {
    /// It placed one of so many bytes, with one reference.
    Placed { at: HOff, len: u32 },
    /// It added a reference.
    Shared { at: HOff },
    /// It took one off.
    GivenBack { at: HOff },
}
