// Laws of examples: what a run would print is a legal history, entry by entry. So no definition asks for
// what cannot be.
ghost use Rattle.std.specs.Prelude.{ℕ, [], ◌∷◌, true};
ghost use Rattle.hm_model.specs.Examples.{
  a_foreign_stream,
  a_pruned_end,
  a_stream_is_sent,
  a_stream_of_nobody,
  an_upgrade,
  fed_with,
  mirror_copies,
  new_volume,
  of_new_volume,
  of_nobody,
  on_fresh,
  on_new,
  reads_of_the_past,
  snapshots_and_prune,
};
ghost use Rattle.hm_model.specs.Laws.{ShowsTrees};
ghost use Rattle.hm_model.specs.Legal.{IsLegal};
ghost use Rattle.hm_model.specs.Volume.{at};

/// A file that is written twice is read as of each id, and now. What a prune takes is gone, and what
/// snapshots name stays.
pub fn examples_of_the_past_are_legal()
    ensures reads { IsLegal on_fresh reads_of_the_past }
    ensures prune { IsLegal on_fresh snapshots_and_prune }
{}

/// Copies into a slave, whole and cut; the upgrade of a slave; a stream that is sent whole; one whose
/// end id is pruned.
pub fn examples_of_mirrors_are_legal()
    ensures copies { IsLegal on_fresh mirror_copies }
    ensures upgrade { IsLegal on_fresh an_upgrade }
    ensures sent { IsLegal (on_new 24) a_stream_is_sent }
    ensures pruned { IsLegal on_fresh a_pruned_end }
{}

/// Streams into a slave: one of a known master, whose trees it shows, and one for which nobody
/// answers.
pub fn examples_of_streams_are_legal()
    ensures foreign { IsLegal (fed_with (of_new_volume ∷ [])) a_foreign_stream }
    ensures shown { ShowsTrees 1 (λ (id : ℕ). true) (at new_volume.volume 0) of_new_volume }
    ensures nobody { IsLegal (fed_with (of_nobody ∷ [])) a_stream_of_nobody }
{}
