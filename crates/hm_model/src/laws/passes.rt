// Laws of passes into a slave.
ghost use Rattle.std.specs.Prelude.{◌≡◌, ◌≢◌, ℕ, ◌-◌, ◌^◌, ◌<◌, ◌≤◌, List, Option, Some, min};
ghost use Rattle.hm_types.specs.declared.id.Id.{Id};
ghost use Rattle.hm_types.specs.declared.limits.TheConstants.{MOST_INTERVALS};
ghost use Rattle.hm_types.specs.declared.text.Text.{Text};
ghost use Rattle.hm_model.specs.declared.command.Command.TheVariants.{MirrorCopy, MirrorWrite};
ghost use Rattle.hm_model.specs.After.{Event, OpenCall, State, after_event, given_in};
ghost use Rattle.hm_model.specs.Cut.{join};
ghost use Rattle.hm_model.specs.Foreign.{ForeignMaster, StreamEnd};
ghost use Rattle.hm_model.specs.Laws.{AreRising, EndsPass, versions_of};
ghost use Rattle.hm_model.specs.Legal.{
  IsPassEnd,
  IsPassed,
  IsTooMany,
  MayFollow,
  Setting,
  begin_of,
  gained_count,
  state_after,
};
ghost use Rattle.hm_model.specs.Volume.{PseudoFileSystem, Volume, at, system_of};

/// A pass that comes to its end leaves what the slave showed as of each id up to the pass's begin
/// id, which in a legal history is the slave's sync end before it. It changes no other PFS.
pub fn passes_keep_what_was_shown()
    ensures views { (state : State) (event : Event) (o : OpenCall) (begin end : Id) (id : ℕ) →
        EndsPass state event o begin end → id ≤ begin.0 →
        at (after_event state event).volume o.pfs id ≡ at state.volume o.pfs id }
    ensures begin { (run : Setting) (before : List Event) (event : Event) (o : OpenCall)
        (begin end : Id) → MayFollow run before event →
        EndsPass (state_after run before) event o begin end →
        begin.0 ≡ begin_of (state_after run before).volume o }
    ensures others { (state : State) (event : Event) (o : OpenCall) (begin end : Id) (pfs : ℕ) →
        EndsPass state event o begin end → pfs ≢ o.pfs →
        system_of (after_event state event).volume pfs ≡ system_of state.volume pfs }
{}

/// After a pass the slave's sync end is the pass's end id, and it keeps besides its own ids those
/// that the master keeps between the two ids of the pass.
pub fn passes_set_the_sync_end()
    ensures { (state : State) (event : Event) (o : OpenCall) (begin end : Id)
        (slave : PseudoFileSystem) →
        EndsPass state event o begin end → system_of state.volume o.pfs ≡ Some slave →
        (after : PseudoFileSystem)
        × (system_of (after_event state event).volume o.pfs ≡ Some after)
        × (after.sync_end ≡ end.0)
        × (after.retention
        ≡ join slave.retention (given_in state.volume o).retention begin.0 end.0) }
{}

/// After a pass of `mirror-copy` the slave has as of each id above the begin id and up to the end id
/// its master's tree, where the first ids of the master's versions do not fall.
pub fn copies_bring_the_masters_trees()
    ensures { (state : State) (event : Event) (o : OpenCall) (begin end : Id)
        (from into : Text) (limit : Option ℕ) (slave : PseudoFileSystem) (id : ℕ) →
        EndsPass state event o begin end → o.command ≡ MirrorCopy from into limit →
        system_of state.volume o.pfs ≡ Some slave →
        AreRising (versions_of state.volume o.master) → begin.0 < id → id ≤ end.0 →
        at (after_event state event).volume o.pfs id ≡ at state.volume o.master id }
{}

/// After a pass of `mirror-write` the slave has as of each id above the begin id and up to the end
/// id the tree of the stream's master, where the first ids of that one's versions do not fall.
pub fn streams_bring_their_masters_trees()
    ensures { (state : State) (event : Event) (o : OpenCall) (begin end : Id) (into : Text)
        (slave : PseudoFileSystem) (foreign : ForeignMaster) (id : ℕ) →
        EndsPass state event o begin end → o.command ≡ MirrorWrite into →
        system_of state.volume o.pfs ≡ Some slave → o.stream.master ≡ Some foreign →
        AreRising (versions_of foreign.volume foreign.master) → begin.0 < id → id ≤ end.0 →
        at (after_event state event).volume o.pfs id ≡ at foreign.volume foreign.master id }
{}

/// In a legal history a pass of `mirror-write` joins to the slave's retention what the end of its
/// stream brought, also where nobody answers for the stream.
pub fn streams_join_what_their_end_brought()
    ensures { (run : Setting) (before : List Event) (event : Event) (o : OpenCall) (begin end : Id)
        (into : Text) (slave : PseudoFileSystem) → MayFollow run before event →
        EndsPass (state_after run before) event o begin end → o.command ≡ MirrorWrite into →
        system_of (state_after run before).volume o.pfs ≡ Some slave →
        (t : StreamEnd) × (after : PseudoFileSystem)
        × (o.stream.term ≡ Some t) × (t.end ≡ end.0)
        × (system_of (after_event (state_after run before) event).volume o.pfs ≡ Some after)
        × (after.retention ≡ join slave.retention t.retention begin.0 end.0) }
{}

/// A pass that reads its master, or its stream, to the end has passed where the slave's retention gets
/// no more than 4,096 intervals, and else answers how many there would be.
pub fn passes_fit_or_have_too_many_intervals()
    ensures fits { (volume : Volume) (o : OpenCall) (ending end : ℕ) →
        IsPassEnd volume o ending end → gained_count volume o end ≤ MOST_INTERVALS →
        IsPassed volume o ending (begin_of volume o) end }
    ensures too_many { (volume : Volume) (o : OpenCall) (ending end : ℕ) →
        IsPassEnd volume o ending end → MOST_INTERVALS < gained_count volume o end →
        IsTooMany volume o ending (min (gained_count volume o end) (2 ^ 32 - 1)) }
    ensures not_both { (volume : Volume) (o : OpenCall) (ending begin end : ℕ) →
        IsPassed volume o ending begin end → MOST_INTERVALS < gained_count volume o end → ⊥ }
{}
