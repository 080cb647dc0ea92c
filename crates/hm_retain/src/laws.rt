// What follows from the definitions alone: each function states one law, and does nothing.
ghost use Rattle.std.specs.Prelude.{◌≡◌, ℕ, List};
ghost use Rattle.hm_types.specs.declared.id.Id.{Id};
ghost use Rattle.hm_types.specs.Intervals.{Keeps};
ghost use Rattle.hm_retain.specs.Intervals.{IsIntervals, KeepsExactly};
ghost use Rattle.hm_retain.specs.Retention.{IsRetention, IsCut, IsJoin, IsTooMany};

/// One list alone of maximal intervals stands for a set of ids. So what a cut or a join answers is
/// settled by the set that its contract names.
pub fn one_list_for_each_set()
    ensures { (a b : List (ℕ × ℕ)) →
        IsIntervals a → IsIntervals b → KeepsExactly a (Keeps b) → a ≡ b }
{}

/// A cut that has too many intervals is no retention.
pub fn no_cut_is_both()
    ensures { (set : List (ℕ × ℕ)) (ids : List Id) (from count : ℕ) (cut : List (ℕ × ℕ)) →
        IsTooMany (IsCut set ids from) count → IsCut set ids from cut → ¬ IsRetention cut }
{}

/// A join that has too many intervals is no retention.
pub fn no_join_is_both()
    ensures { (set other : List (ℕ × ℕ)) (begin end count : ℕ) (join : List (ℕ × ℕ)) →
        IsTooMany (IsJoin set other begin end) count → IsJoin set other begin end join
        → ¬ IsRetention join }
{}
