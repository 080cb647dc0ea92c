// What follows from the definitions alone: each function states one law, and does nothing.
ghost use Rattle.std.specs.Prelude.{◌≡◌, ◌⊎◌, ℕ, List};
ghost use Rattle.hm_path.specs.declared.part.Part.{Part};
ghost use Rattle.hm_path.specs.Path.{IsPath, IsBadPlace};

/// A text is one path only.
pub fn parts_are_one()
    ensures { (text : List ℕ) (a b : List Part) → IsPath text a → IsPath text b → a ≡ b }
{}

/// A text that is no path has one bad place only.
pub fn bad_places_are_one()
    ensures { (text : List ℕ) (a b : ℕ) → IsBadPlace text a → IsBadPlace text b → a ≡ b }
{}

/// No text is a path and has a bad place too.
pub fn no_path_has_a_bad_place()
    ensures { (text : List ℕ) (parts : List Part) (place : ℕ) → IsPath text parts →
        IsBadPlace text place → ⊥ }
{}

/// Every text is a path, or has a bad place.
pub fn every_text_is_read()
    ensures { (text : List ℕ) →
        ((parts : List Part) × IsPath text parts) ⊎ ((place : ℕ) × IsBadPlace text place) }
{}
