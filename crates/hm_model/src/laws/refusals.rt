// Laws of refusals: what they leave as it was.
ghost use Rattle.std.specs.Prelude.{◌≡◌, ℕ, Bool, true, false, Some};
ghost use Rattle.std.specs.List.{AllZip};
ghost use Rattle.hm_model.specs.After.{Event, State, after_event, nothing_merged};
ghost use Rattle.hm_model.specs.declared.reply.Reply.{Reply};
ghost use Rattle.hm_model.specs.Call.{Call};
ghost use Rattle.hm_model.specs.Caused.{is_ending};
ghost use Rattle.hm_model.specs.Due.{refusal};
ghost use Rattle.hm_model.specs.Laws.{IsButOrigin};
ghost use Rattle.hm_model.specs.Reply.{is_refusal};
ghost use Rattle.hm_model.specs.Volume.{at};

/// Where a check of a call fails, the reply that it gives is a refusal.
pub fn checks_give_refusals()
    ensures { (call : Call) (reply : Reply) →
        refusal call ≡ Some reply → is_refusal reply ≡ true }
{}

/// A refused call leaves every PFS as it was, so its retention and its trees as of every id, and
/// which housekeeping calls are open. Only an id was drawn.
pub fn refused_calls_change_nothing()
    ensures systems { (state : State) (event : Event) →
        is_refusal event.entry.reply ≡ true → is_ending event.entry.call ≡ false →
        (after_event state event).volume.systems ≡ state.volume.systems }
    ensures opened { (state : State) (event : Event) →
        is_refusal event.entry.reply ≡ true → is_ending event.entry.call ≡ false →
        (after_event state event).opened ≡ state.opened }
    ensures views { (state : State) (event : Event) (pfs id : ℕ) →
        is_refusal event.entry.reply ≡ true → is_ending event.entry.call ≡ false →
        at (after_event state event).volume pfs id ≡ at state.volume pfs id }
{}

/// A refused ending leaves every PFS as it was, but for the source of one: where its reply tells
/// that nothing of a stream was merged, the slave's source is again what it was before. Every tree
/// as of every id stays in any case.
pub fn refused_endings_keep_all_but_sources()
    ensures systems { (state : State) (event : Event) →
        is_refusal event.entry.reply ≡ true → is_ending event.entry.call ≡ true →
        AllZip IsButOrigin state.volume.systems (after_event state event).volume.systems }
    ensures sources { (state : State) (event : Event) →
        is_refusal event.entry.reply ≡ true → is_ending event.entry.call ≡ true →
        nothing_merged event.entry.reply ≡ false →
        (after_event state event).volume.systems ≡ state.volume.systems }
    ensures views { (state : State) (event : Event) (pfs id : ℕ) →
        is_refusal event.entry.reply ≡ true → is_ending event.entry.call ≡ true →
        at (after_event state event).volume pfs id ≡ at state.volume pfs id }
{}
