// What an image means by its tree depends on what that tree refers to, and on nothing else.
ghost use Rattle.std.specs.Prelude.{◌≡◌, ℕ, List};
ghost use Rattle.hm_header.specs.declared.header.Header.{Header};
ghost use Rattle.hm_model.specs.Volume.{Volume};
ghost use Rattle.hm_search.specs.Tree.{IsSoundTree};
ghost use Rattle.hm_header.specs.OnDisk.{HasHeader};
ghost use Rattle.hm_image.specs.Image.{elements_from, pages_of, references_from};
ghost use Rattle.hm_image.specs.Same.{HasSameFreemap, HasSameNamed, HasSameTree};
ghost use Rattle.hm_image.specs.Sound.{IsSoundBy};
ghost use Rattle.hm_image.specs.Stands.{StandsFor};

/// Two images that have the same bytes wherever a tree of one refers to have the same elements
/// there, and refer to the same extents. The tree is sound in both or in neither.
pub fn trees_are_what_they_refer_to()
    ensures elements { (old new : List ℕ) (root : ℕ) → HasSameTree old new root →
        elements_from new root ≡ elements_from old root }
    ensures references { (old new : List ℕ) (root : ℕ) → HasSameTree old new root →
        references_from (pages_of new) root ≡ references_from (pages_of old) root }
    ensures sound { (old new : List ℕ) (root : ℕ) → HasSameTree old new root →
        IsSoundTree (pages_of old) root → IsSoundTree (pages_of new) root }
    ensures back { (old new : List ℕ) (root : ℕ) → HasSameTree old new root →
        HasSameTree new old root }
{}

/// An image that has the freemap of a sound one, and its bytes wherever its tree refers to, is
/// sound by the same header where that counts in it too. So it is with the volume that it stands
/// for.
pub fn images_are_their_freemaps_and_trees()
    ensures sound { (old new : List ℕ) (header : Header) (slot : ℕ) →
        HasSameFreemap old new header.bigblocks → HasSameTree old new header.root →
        HasHeader new header slot → IsSoundBy old header → IsSoundBy new header }
    ensures stands { (old new : List ℕ) (volume : Volume) (stands : StandsFor old volume)
        (slot : ℕ) → HasSameFreemap old new stands.header.bigblocks →
        HasSameTree old new stands.header.root → HasHeader new stands.header slot →
        StandsFor new volume }
{}

/// Said byte by byte: an image that differs from one that stands for a volume only in bytes that no
/// header slot, no freemap and no tree names stands for the same volume.
pub fn images_are_what_they_name()
    ensures sound { (old new : List ℕ) (header : Header) → HasSameNamed old new header →
        IsSoundBy old header → IsSoundBy new header }
    ensures stands { (old new : List ℕ) (volume : Volume) (stands : StandsFor old volume) →
        HasSameNamed old new stands.header → StandsFor new volume }
{}
