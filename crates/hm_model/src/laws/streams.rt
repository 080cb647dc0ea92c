// Laws of streams: what is asked of a foreign master and of its stream can be met.
ghost use Rattle.std.specs.Prelude.{◌≡◌, ℕ, ◌≤◌, List, [], ◌∷◌};
ghost use Rattle.hm_types.specs.Intervals.{Keeps};
ghost use Rattle.hm_model.specs.Foreign.{MasterList};
ghost use Rattle.hm_model.specs.Streams.{Begin, Follows, IsStreamOver, Term};

/// A master that does not change follows itself, whatever pass reads it.
pub fn lists_follow_themselves()
    ensures { (end : ℕ) (list : MasterList) → Follows end list list }
{}

/// A master without elements has a stream of two items, where it keeps the end id: the first one, and
/// the last with its retention.
pub fn masters_without_elements_have_streams()
    ensures { (shared begin end : ℕ) (list : MasterList) →
        list.elements ≡ [] → begin ≤ end → Keeps list.retention end →
        IsStreamOver shared end (list ∷ []) (Begin shared begin end ∷ Term list.retention ∷ []) }
{}
