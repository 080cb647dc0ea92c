// Laws of causes: what is asked of an entry, whatever a disk holds.
ghost use Rattle.std.specs.Prelude.{◌≡◌, ℕ};
ghost use Rattle.hm_model.specs.Caused.{HasCause, known_at};
ghost use Rattle.hm_model.specs.SingleCalls.{bad_at};
ghost use Rattle.hm_model.specs.Legal.{no_counts};

/// A path is bad where its word is: of a word that does not begin with a slash, its first byte is
/// told, and no other one may be.
pub fn bad_paths_are_told_by_their_words()
    ensures first { HasCause no_counts (known_at 1 no_counts) (bad_at 0) }
    ensures alone { (place : ℕ) →
        HasCause no_counts (known_at 1 no_counts) (bad_at place) → place ≡ 0 }
{}
