// How much one call moves.

/// The most bytes that one read or one write moves.
pub const MOST_CALL_BYTES: usize = 131_072;
