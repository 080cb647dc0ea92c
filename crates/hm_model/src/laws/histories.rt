// Laws of histories as they go on.
ghost use Rattle.std.specs.Prelude.{◌≡◌, ◌↔◌, ℕ, List, [], ◌∷◌, ◌++◌};
ghost use Rattle.hm_model.specs.After.{Event, after, after_event};
ghost use Rattle.hm_model.specs.Foreign.{Foreigners};
ghost use Rattle.hm_model.specs.History.{IsHistory};
ghost use Rattle.hm_model.specs.Laws.{events_to};
ghost use Rattle.hm_model.specs.Legal.{IsLegal, MayFollow, Setting, entries_of};
ghost use Rattle.hm_model.specs.Volume.{Volume};

/// What a history and one more event make is one step on from what the history makes.
pub fn after_goes_on()
    ensures { (volume : Volume) (foreigners : Foreigners) (events : List Event) (event : Event) →
        after volume foreigners (events ++ event ∷ [])
        ≡ after_event (after volume foreigners events) event }
{}

/// The ids of a legal history rise strictly, whatever volume it began on.
pub fn legal_ids_rise()
    ensures { (run : Setting) (events : List Event) →
        IsLegal run events → IsHistory (entries_of events) }
{}

/// Each beginning of a legal history is legal.
pub fn beginnings_are_legal()
    ensures { (run : Setting) (events rest : List Event) →
        IsLegal run (events ++ rest) → IsLegal run events }
{}

/// A history with one more event is legal exactly where it was legal and that event may follow it.
pub fn legal_goes_on()
    ensures { (run : Setting) (events : List Event) (event : Event) →
        (IsLegal run (events ++ event ∷ [])
        ↔ (IsLegal run events × MayFollow run events event)) }
{}

/// The events of a legal history with ids up to one are a beginning of it, and legal.
pub fn past_is_a_beginning()
    ensures begins { (run : Setting) (events : List Event) (id : ℕ) → IsLegal run events →
        (later : List Event) × (events ≡ events_to id events ++ later) }
    ensures legal { (run : Setting) (events : List Event) (id : ℕ) → IsLegal run events →
        IsLegal run (events_to id events) }
{}
