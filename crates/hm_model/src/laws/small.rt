// Laws of the intervals that retentions have in a history.
ghost use Rattle.std.specs.Prelude.{◌≡◌, ℕ, List, [], ◌∷◌, ◌++◌};
ghost use Rattle.hm_types.specs.declared.text.Text.{Text};
ghost use Rattle.hm_model.specs.declared.command.Command.TheVariants.{PfsMaster};
ghost use Rattle.hm_model.specs.After.{Event};
ghost use Rattle.hm_model.specs.Due.{new_pfs};
ghost use Rattle.hm_model.specs.Laws.{AreSmall, IsMasterFrom, IsOpenEnded, Makes, retention_of};
ghost use Rattle.hm_model.specs.Legal.{IsLegal, Setting, state_after};
ghost use Rattle.hm_types.specs.Intervals.{open_end};

/// No retention has more than 4,096 intervals after any event of a legal history, where none had more
/// in the volume at the start.
pub fn retentions_stay_small()
    ensures { (run : Setting) (events : List Event) → IsLegal run events → AreSmall run.opening →
        AreSmall (state_after run events).volume }
{}

/// A master's last interval keeps its open end, whatever is pruned: where it has one at some moment of
/// a legal history, it has one later on. A made master has one at once.
pub fn masters_last_intervals_stay_open()
    ensures stays { (run : Setting) (before rest : List Event) (pfs : ℕ) →
        IsLegal run (before ++ rest) → IsMasterFrom run before rest pfs →
        IsOpenEnded (retention_of (state_after run before).volume pfs) →
        IsOpenEnded (retention_of (state_after run (before ++ rest)).volume pfs) }
    ensures made { (run : Setting) (before : List Event) (event : Event) (path : Text)
        (shared : ℕ) → Makes event (PfsMaster path shared) →
        IsOpenEnded (retention_of (state_after run (before ++ event ∷ [])).volume
        (new_pfs (state_after run before).volume)) }
    ensures last { (retention : List (ℕ × ℕ)) → IsOpenEnded retention →
        (front : List (ℕ × ℕ)) × (last : ℕ × ℕ)
        × (retention ≡ front ++ last ∷ []) × (last.1 ≡ open_end) }
{}
