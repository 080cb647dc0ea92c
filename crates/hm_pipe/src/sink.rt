// Where bytes go.
ghost use Rattle.std.specs.Prelude.{◌≡◌, ℕ, List, Option, OnOk, OnErr, take};
ghost use Rattle.hm_types.specs.Faults.{HasCause};
ghost use Rattle.hm_pipe.specs.Pipe.{Gains};

use hm_types::Failed;

/// Where replies or a stream go.
///
/// A sink may tell what it holds; one over a file or a terminal tells nothing. No call changes whether
/// it tells. Its count of faults never falls, and stands still at the greatest `u64`.
pub trait Sink {
    ghost held: { Self → Option (List ℕ) };

    ghost faults: { Self → ℕ };

    /// Appends the whole piece. After `Failed`, which comes only where the count of faults rose, the
    /// sink has gained a front of the piece, which may be empty or all of it.
    fn put(&mut self, piece: &[u8]) -> Result<(), Failed>
        ensures ok { OnOk result (Gains (held self.old) piece.now (held self.new)) }
        ensures err { OnErr result ((n : ℕ) × Gains (held self.old) (take n piece.now) (held self.new)) }
        ensures cause { HasCause (faults self.old) (faults self.new) result };

    /// How many faults there were.
    fn faults(&self) -> u64
        ensures { result ≡ faults self.now };
}
