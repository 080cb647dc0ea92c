// Laws of how passes into a slave and upgrades leave its trees.
ghost use Rattle.std.specs.Prelude.{◌≡◌, ℕ, ◌≤◌, List, ◌++◌, Bool, true, Some, min};
ghost use Rattle.hm_model.specs.declared.reply.Reply.TheVariants.{Cut};
ghost use Rattle.hm_model.specs.After.{Event, OpenCall, State, after_event, opened_end};
ghost use Rattle.hm_model.specs.Caused.{is_ending};
ghost use Rattle.hm_model.specs.Laws.{EndsUpgrade};
ghost use Rattle.hm_model.specs.Legal.{IsLegal, MayFollow, Setting, state_after, sync_end_of};
ghost use Rattle.hm_model.specs.Volume.{Master, PseudoFileSystem, Role, Slave, at, system_of};

/// A pass that was cut leaves every PFS as it was before its ending, so each tree as of each id.
pub fn cut_passes_change_nothing()
    ensures { (state : State) (event : Event) (items : ℕ) →
        is_ending event.entry.call ≡ true → event.entry.reply ≡ Cut items →
        (after_event state event).volume.systems ≡ state.volume.systems }
{}

/// What a slave has as of an id up to its sync end stays, whatever event comes: while a pass into it
/// is open, at that pass's end, however it comes out, and at the end of an upgrade. Asked is that the
/// sync end was drawn.
pub fn slaves_keep_their_past()
    ensures { (run : Setting) (before : List Event) (event : Event) (slave id : ℕ)
        (s : PseudoFileSystem) → MayFollow run before event →
        system_of (state_after run before).volume slave ≡ Some s → id ≤ s.sync_end →
        s.sync_end ≤ (state_after run before).volume.last →
        at (after_event (state_after run before) event).volume slave id
        ≡ at (state_after run before).volume slave id }
{}

/// Over a history from any of its moments on, what a slave had at that moment as of an id up to its
/// sync end stays: while passes into it are open, over any number of passes that come to their end or
/// are cut, whatever is pruned, and over an upgrade and all that comes after it. As long as it is a
/// slave its sync end does not fall. Asked of the volume at the start is that the sync end was drawn.
pub fn slaves_keep_their_past_for_good()
    ensures views { (run : Setting) (before rest : List Event) (slave id : ℕ)
        (s : PseudoFileSystem) → IsLegal run (before ++ rest) →
        sync_end_of run.opening slave ≤ run.opening.last →
        system_of (state_after run before).volume slave ≡ Some s → s.role ≡ Slave →
        id ≤ s.sync_end →
        at (state_after run (before ++ rest)).volume slave id
        ≡ at (state_after run before).volume slave id }
    ensures sync_end { (run : Setting) (before rest : List Event) (slave : ℕ)
        (s t : PseudoFileSystem) → IsLegal run (before ++ rest) →
        sync_end_of run.opening slave ≤ run.opening.last →
        system_of (state_after run before).volume slave ≡ Some s → s.role ≡ Slave →
        system_of (state_after run (before ++ rest)).volume slave ≡ Some t → t.role ≡ Slave →
        s.sync_end ≤ t.sync_end }
{}

/// An upgraded PFS has its trees up to the sync end, and from then on the last of them. It is a
/// master, which keeps what it kept, and all later ids where it kept any.
pub fn upgrades_leave_the_past()
    ensures views { (state : State) (event : Event) (o : OpenCall) (s : PseudoFileSystem)
        (id : ℕ) → EndsUpgrade state event o → system_of state.volume o.pfs ≡ Some s →
        at (after_event state event).volume o.pfs id
        ≡ at state.volume o.pfs (min id s.sync_end) }
    ensures system { (state : State) (event : Event) (o : OpenCall) (s : PseudoFileSystem) →
        EndsUpgrade state event o → system_of state.volume o.pfs ≡ Some s →
        (after : PseudoFileSystem)
        × (system_of (after_event state event).volume o.pfs ≡ Some after)
        × (after.role ≡ Master) × (after.sync_end ≡ 0)
        × (after.retention ≡ opened_end s.retention) }
{}
