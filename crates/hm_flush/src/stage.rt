// The stages of a flush, as they are told.

/// A stage of a flush that was made, with its number.
#[derive(Clone, Copy, Debug, PartialEq, Eq)]
pub enum Stage {
    /// The current group became the frozen one, and its flush has begun.
    Freeze,
    /// The old bytes of the frozen page of this number stand in the log.
    Undo(u32),
    /// The log is settled.
    UndoSync,
    /// One of three, from 1 on: the header that names the range of the log.
    Arm(u8),
    /// The frozen page of this number stands where it belongs.
    Place(u32),
    /// The frozen pages are settled.
    PlaceSync,
    /// One of three, from 1 on: the header with the new state. The last ends the flush.
    Commit(u8),
}
