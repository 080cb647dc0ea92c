// The law of generated lines.
ghost use Rattle.std.specs.Prelude.{ℕ, ◌≤◌};
ghost use Rattle.hm_model.specs.Generator.{past_id};

/// A generated read of the past asks for an id up to its line's number. Each line before it drew one,
/// above that of a new volume, so the id is not in the future.
pub fn generated_reads_are_of_the_past()
    ensures { (number bits : ℕ) → 1 ≤ number → past_id number bits ≤ number }
{}
