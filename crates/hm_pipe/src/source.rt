// Where bytes come from.
ghost use Rattle.std.specs.Prelude.{◌≡◌, ℕ, ◌<◌, ◌≤◌, List, Option, IfOk, OnErr, length, take};
ghost use Rattle.hm_types.specs.Faults.{HasCause};
ghost use Rattle.hm_pipe.specs.Pipe.{Gives, IsAtEnd};

use hm_types::Failed;

/// Where a script or a stream comes from.
///
/// A source may tell what is left in it; one over a file or a terminal tells nothing. No call changes
/// whether it tells. Its count of faults never falls, and stands still at the greatest `u64`.
pub trait Source {
    ghost left: { Self → Option (List ℕ) };

    ghost faults: { Self → ℕ };

    /// Takes the next bytes into the front of `buf`, and says how many they are: 0 only at the end of
    /// the input. After `Failed`, which comes only where the count of faults rose, nothing is taken.
    fn take(&mut self, buf: &mut [u8]) -> Result<usize, Failed>
        requires { 0 < length buf.old }
        ensures within { IfOk result (λ n. n ≤ length buf.new) }
        ensures ok { IfOk result (λ n. Gives (left self.old) (take n buf.new) (left self.new)) }
        ensures end { IfOk result (λ n. n ≡ 0 → IsAtEnd (left self.new)) }
        ensures err { OnErr result (left self.new ≡ left self.old) }
        ensures cause { HasCause (faults self.old) (faults self.new) result };

    /// How many faults there were.
    fn faults(&self) -> u64
        ensures { result ≡ faults self.now };
}
