// A volume as it is made.
ghost use Rattle.std.specs.Prelude.{ℕ, List};
ghost use Rattle.hm_header.specs.Range.{IsSize};
ghost use Rattle.hm_model.specs.Volume.{fresh};
ghost use Rattle.hm_image.specs.Fresh.{IsFresh, fresh_header};
ghost use Rattle.hm_image.specs.Sound.{IsSoundBy};
ghost use Rattle.hm_image.specs.Stands.{StandsFor};

/// A volume as it is made is sound, of each size that a volume may have.
pub fn a_fresh_volume_is_sound()
    ensures { (bigblocks : ℕ) (image : List ℕ) → IsSize bigblocks → IsFresh bigblocks image →
        IsSoundBy image (fresh_header bigblocks) }
{}

/// It stands for the volume that the model makes: one master, whose tree has the root directory
/// alone, and the id 1 drawn.
pub fn a_fresh_volume_stands()
    ensures { (bigblocks : ℕ) (image : List ℕ) → IsSize bigblocks → IsFresh bigblocks image →
        StandsFor image (fresh bigblocks) }
{}

/// There is one of each size. So the laws above speak of something, and a sound image exists.
pub fn there_is_a_fresh_volume()
    ensures { (bigblocks : ℕ) → IsSize bigblocks → (image : List ℕ) × IsFresh bigblocks image }
{}
