// The law of slaves that are fed from another volume, over a whole history.
ghost use Rattle.std.specs.Prelude.{ℕ, List, ◌∷◌, ◌++◌, Bool};
ghost use Rattle.std.specs.List.{AllByRecursion};
ghost use Rattle.hm_types.specs.declared.text.Text.{Text};
ghost use Rattle.hm_model.specs.declared.command.Command.TheVariants.{PfsSlave};
ghost use Rattle.hm_model.specs.After.{Event};
ghost use Rattle.hm_model.specs.Due.{new_pfs};
ghost use Rattle.hm_model.specs.Laws.{FollowsForeign, IsThere, Makes, ShowsTrees};
ghost use Rattle.hm_model.specs.Legal.{IsLegal, Setting, state_after};
ghost use Rattle.hm_types.specs.Tree.{FileTree};

/// A slave whose only source is one foreign master has, as of each id up to its sync end at which all
/// streams from that source show one tree, this tree: if so in the volume at the start, then after every
/// legal history, whatever passes it had, cut short or whole, and whatever was pruned meanwhile. Asked
/// of the volume at the start is that it has PFS 0, as each has.
pub fn slaves_show_their_foreign_masters_trees()
    ensures { (source : ℕ) (kept : ℕ → Bool) (trees : ℕ → FileTree) (run : Setting)
        (events : List Event) (slave : ℕ) → IsThere run.opening 0 → IsLegal run events →
        AllByRecursion (ShowsTrees source kept trees) run.foreigners.streams →
        FollowsForeign run.opening slave source kept trees →
        FollowsForeign (state_after run events).volume slave source kept trees }
{}

/// So has a slave that `pfs-slave` made in the run, from then on.
pub fn made_slaves_show_their_foreign_masters_trees()
    ensures { (source : ℕ) (kept : ℕ → Bool) (trees : ℕ → FileTree) (run : Setting)
        (before : List Event) (event : Event) (rest : List Event) (path : Text) (shared : ℕ) →
        IsThere run.opening 0 → IsLegal run (before ++ event ∷ rest) →
        Makes event (PfsSlave path shared) →
        AllByRecursion (ShowsTrees source kept trees) run.foreigners.streams →
        FollowsForeign (state_after run (before ++ event ∷ rest)).volume
        (new_pfs (state_after run before).volume) source kept trees }
{}
