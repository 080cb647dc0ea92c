// What makes an image sound, and what follows.
ghost use Rattle.std.specs.Prelude.{◌≡◌, ℕ, List};
ghost use Rattle.std.specs.List.{Contains};
ghost use Rattle.hm_types.specs.References.{DoNotOverlap, NoneOverlap, Reference};
ghost use Rattle.hm_header.specs.declared.header.Header.{Header};
ghost use Rattle.hm_key.specs.Elements.{IsContent};
ghost use Rattle.hm_search.specs.Tree.{elements_of};
ghost use Rattle.hm_image.specs.Extents.{HavePlaces};
ghost use Rattle.hm_image.specs.Image.{pages_of, references_from};
ghost use Rattle.hm_image.specs.Sound.{IsSoundBy};

use hm_header::chosen_header_is_one;
use hm_search::elements_are_in_order;

/// A sound image has one header: two by which it is sound are the same.
pub fn a_sound_image_has_one_header()
    ensures { (image : List ℕ) (one other : Header) → IsSoundBy image one → IsSoundBy image other →
        one ≡ other }
{
    chosen_header_is_one();
}

/// The elements of a sound image are in the order of their keys, and each may stand in a leaf.
pub fn elements_of_a_sound_image_are_in_order()
    ensures { (image : List ℕ) (header : Header) → IsSoundBy image header →
        IsContent (elements_of (pages_of image) header.root) }
{
    elements_are_in_order();
}

/// Of a list of references in which none overlaps one behind it, no two overlap. So any two extents
/// of a sound image are one, or share no byte.
pub fn extents_of_a_sound_image_are_apart()
    ensures list { (rs : List Reference) (r s : Reference) → NoneOverlap rs →
        Contains rs r → Contains rs s → DoNotOverlap r s }
    ensures image { (image : List ℕ) (header : Header) (r s : Reference) → IsSoundBy image header →
        Contains (references_from (pages_of image) header.root) r →
        Contains (references_from (pages_of image) header.root) s → DoNotOverlap r s }
{}

/// The payloads of a sound image may stand where they do, so that its elements have their extents.
pub fn payloads_of_a_sound_image_have_places()
    ensures { (image : List ℕ) (header : Header) → IsSoundBy image header →
        HavePlaces image header.bigblocks (elements_of (pages_of image) header.root) }
{}
