// Laws of PFS that are made in a run, from the entry on that makes them. Asked of the volume at the start
// is that it has PFS 0, as each has.
ghost use Rattle.std.specs.Prelude.{◌≡◌, ℕ, ◌≤◌, List, [], ◌∷◌, ◌++◌, Bool, false};
ghost use Rattle.hm_types.specs.declared.text.Text.{Text};
ghost use Rattle.hm_model.specs.declared.command.Command.TheVariants.{PfsMaster, PfsSlave};
ghost use Rattle.hm_model.specs.After.{Event};
ghost use Rattle.hm_model.specs.Due.{new_pfs};
ghost use Rattle.hm_model.specs.Laws.{
  AreRising,
  BeginBy,
  FollowsMaster,
  IsMasterFrom,
  IsSteadyMaster,
  IsThere,
  Makes,
  events_to,
  versions_of,
};
ghost use Rattle.hm_model.specs.Legal.{IsLegal, Setting, state_after};
ghost use Rattle.hm_model.specs.Volume.{at, shown};

/// What `pfs-master` made is a master from then on, and no pass into it and no upgrade of it is ever
/// open. So is each PFS that is such a master at some moment.
pub fn made_masters_stay_masters()
    ensures made { (run : Setting) (before : List Event) (event : Event) (rest : List Event)
        (path : Text) (shared : ℕ) → IsThere run.opening 0 →
        IsLegal run (before ++ event ∷ rest) → Makes event (PfsMaster path shared) →
        IsMasterFrom run (before ++ event ∷ []) rest (new_pfs (state_after run before).volume) }
    ensures stays { (run : Setting) (before rest : List Event) (pfs : ℕ) →
        IsLegal run (before ++ rest) → IsSteadyMaster (state_after run before) pfs →
        IsMasterFrom run before rest pfs }
{}

/// The versions of a master go on rising, and begin by the last id: those of a made one do at once.
pub fn masters_versions_rise()
    ensures made { (run : Setting) (before : List Event) (event : Event) (path : Text)
        (shared : ℕ) → IsLegal run (before ++ event ∷ []) → Makes event (PfsMaster path shared) →
        AreRising (versions_of (state_after run (before ++ event ∷ [])).volume
        (new_pfs (state_after run before).volume))
        × BeginBy (state_after run (before ++ event ∷ [])).volume.last
        (versions_of (state_after run (before ++ event ∷ [])).volume
        (new_pfs (state_after run before).volume)) }
    ensures later { (run : Setting) (before rest : List Event) (pfs : ℕ) →
        IsLegal run (before ++ rest) → IsMasterFrom run before rest pfs →
        AreRising (versions_of (state_after run before).volume pfs) →
        BeginBy (state_after run before).volume.last (versions_of (state_after run before).volume pfs) →
        AreRising (versions_of (state_after run (before ++ rest)).volume pfs)
        × BeginBy (state_after run (before ++ rest)).volume.last
        (versions_of (state_after run (before ++ rest)).volume pfs) }
{}

/// What a made master has as of an id from its own on is what it showed when the calls up to that id
/// were done, whatever came after them.
pub fn made_masters_have_what_was_done()
    ensures { (run : Setting) (before : List Event) (event : Event) (rest : List Event)
        (path : Text) (shared id : ℕ) → IsThere run.opening 0 →
        IsLegal run (before ++ event ∷ rest) → Makes event (PfsMaster path shared) →
        event.entry.id.0 ≤ id →
        at (state_after run (before ++ event ∷ rest)).volume
        (new_pfs (state_after run before).volume) id
        ≡ shown (state_after run (events_to id (before ++ event ∷ rest))).volume
        (new_pfs (state_after run before).volume) }
{}

/// What `pfs-slave` made has from then on, as long as a master of its volume is its only source, the
/// trees that its master has: as of each id up to its sync end that both keep, after any number of
/// passes, cut or whole. Asked of the master is that it is one from then on, and that its versions do
/// not fall and begin by the last id, as those of each made one do.
pub fn made_slaves_show_their_masters_trees()
    ensures { (run : Setting) (before : List Event) (event : Event) (rest : List Event)
        (path : Text) (shared master : ℕ) → IsThere run.opening 0 →
        IsLegal run (before ++ event ∷ rest) → Makes event (PfsSlave path shared) →
        IsMasterFrom run (before ++ event ∷ []) rest master →
        AreRising (versions_of (state_after run (before ++ event ∷ [])).volume master) →
        BeginBy (state_after run (before ++ event ∷ [])).volume.last
        (versions_of (state_after run (before ++ event ∷ [])).volume master) →
        FollowsMaster (state_after run (before ++ event ∷ rest)).volume
        (new_pfs (state_after run before).volume) master }
{}
