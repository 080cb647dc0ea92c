// Laws of masters: what they show stays, and is what was done.
ghost use Rattle.std.specs.Prelude.{◌≡◌, ℕ, ◌≤◌, List, Some};
ghost use Rattle.hm_model.specs.After.{Event, State, after_event};
ghost use Rattle.hm_model.specs.Laws.{
  BeginBy,
  IsMasterThroughout,
  IsUnfed,
  events_to,
  versions_of,
};
ghost use Rattle.hm_model.specs.Legal.{IsLegal, Setting, state_after};
ghost use Rattle.hm_model.specs.Volume.{PseudoFileSystem, Role, Master, at, shown, system_of};

/// The tree of a PFS as of an id that was drawn stays, whatever event comes, but where a pass into
/// that PFS or an upgrade of it is open and may end.
pub fn only_passes_and_upgrades_rewrite()
    ensures { (state : State) (event : Event) (pfs id : ℕ) →
        IsUnfed state pfs → id ≤ state.volume.last →
        at (after_event state event).volume pfs id ≡ at state.volume pfs id }
{}

/// In a legal history a master stays one, and no pass into it and no upgrade of it is ever open.
pub fn masters_stay_masters()
    ensures { (run : Setting) (events : List Event) (pfs : ℕ) (s : PseudoFileSystem) →
        IsLegal run events → system_of run.opening pfs ≡ Some s → s.role ≡ Master →
        IsMasterThroughout run events pfs }
{}

/// What a master has as of an id is what it showed when the calls up to that id were done, whatever
/// came after them. It is asked that the PFS was a master all the time, with no pass into it and no
/// upgrade of it open, that its versions in the volume at the start began by that volume's last id,
/// and that the id is not below that one.
pub fn masters_have_what_was_done()
    ensures { (run : Setting) (events : List Event) (pfs id : ℕ) →
        IsLegal run events → IsMasterThroughout run events pfs →
        BeginBy run.opening.last (versions_of run.opening pfs) → run.opening.last ≤ id →
        at (state_after run events).volume pfs id
        ≡ shown (state_after run (events_to id events)).volume pfs }
{}
