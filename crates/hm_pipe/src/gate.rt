// Where lanes pass between their steps.

/// Where a lane passes between its steps, so that a test can hold it there.
///
/// A call has no effect that a contract sees. `lane` is the number of the lane, and `line` that of the
/// line in the script; both are counted from 1.
pub trait Gate {
    /// A lane is about to make the first step of a line.
    fn before(&self, lane: u8, line: u32);

    /// A lane is between two steps of a line, and another may have the turn.
    fn between(&self, lane: u8);

    /// A line of a lane was answered.
    fn after(&self, lane: u8, line: u32);
}

/// A gate that holds no lane.
#[derive(Clone, Copy, Debug, PartialEq, Eq)]
pub struct NoGate;

impl Gate for NoGate {
    fn before(&self, _lane: u8, _line: u32) {}

    fn between(&self, _lane: u8) {}

    fn after(&self, _lane: u8, _line: u32) {}
}
