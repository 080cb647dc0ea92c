// The extents of the payloads of elements, read from an image.
ghost use Rattle.std.specs.Prelude.{◌≡◌, ℕ, List, map};
ghost use Rattle.hm_key.specs.Balance.{IsBalanced, full_elements};
ghost use Rattle.hm_key.specs.Extents.{AreExtents};
ghost use Rattle.hm_key.specs.declared.element.Element.{Element};
ghost use Rattle.hm_image.specs.Extents.{HavePlaces, extents_of};
ghost use Rattle.hm_image.specs.Image.{full_of};

/// The extents of elements whose payloads may stand where they do are live ones. Each payload is in
/// one of its length, and each has as many references as elements refer to it. The payloads that
/// the elements have by these extents are those that they have in the image.
pub fn extents_of_elements_are_balanced()
    ensures live { (image : List ℕ) (bigblocks : ℕ) (es : List Element) →
        HavePlaces image bigblocks es → AreExtents (extents_of image es) }
    ensures balanced { (image : List ℕ) (bigblocks : ℕ) (es : List Element) →
        HavePlaces image bigblocks es → IsBalanced es (extents_of image es) }
    ensures payloads { (image : List ℕ) (bigblocks : ℕ) (es : List Element) →
        HavePlaces image bigblocks es →
        full_elements es (extents_of image es) ≡ map (full_of image) es }
{}
