// The law of slaves over a whole history.
ghost use Rattle.std.specs.Prelude.{ℕ, List};
ghost use Rattle.hm_model.specs.After.{Event};
ghost use Rattle.hm_model.specs.Laws.{
  AreRising,
  BeginBy,
  FollowsMaster,
  IsMasterThroughout,
  versions_of,
};
ghost use Rattle.hm_model.specs.Legal.{IsLegal, Setting, state_after};

/// A slave whose only source is a master of its volume has, as of each id up to its sync end that
/// both keep, the tree that its master has: if so in the volume at the start, then after every legal
/// history, whatever passes it had, cut or whole, from whatever source, and whatever was pruned.
/// Asked of the master is what `masters_have_what_was_done` asks, and that its versions do not fall.
pub fn slaves_show_their_masters_trees()
    ensures { (run : Setting) (events : List Event) (slave master : ℕ) →
        IsLegal run events → IsMasterThroughout run events master →
        AreRising (versions_of run.opening master) →
        BeginBy run.opening.last (versions_of run.opening master) →
        FollowsMaster run.opening slave master →
        FollowsMaster (state_after run events).volume slave master }
{}
