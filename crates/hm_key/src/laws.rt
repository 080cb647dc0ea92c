// What follows from the definitions alone: each function states one law, and does nothing.
ghost use Rattle.std.specs.Prelude.{◌≡◌, ◌≢◌, ◌^◌, ◌<◌, ℕ, List, Some};
ghost use Rattle.std.specs.Cmp.{IsTotalOrder};
ghost use Rattle.std.specs.declared.cmp.Ordering.TheVariants.{Equal};
ghost use Rattle.hm_types.specs.Elements.{Key, key_cmp};
ghost use Rattle.hm_key.specs.Balance.{IsBalanced, full_elements, payload_of};
ghost use Rattle.hm_key.specs.Elements.{element_at, with_payload};
ghost use Rattle.hm_key.specs.Extents.{AreExtents, Extent, given_back_at};
ghost use Rattle.hm_key.specs.Key.{IsFrom, least_key, greatest_key};
ghost use Rattle.hm_key.specs.Moves.{GainsReference};
ghost use Rattle.hm_key.specs.declared.element.Element.{Element};

/// The order of keys is total, and tells all keys apart.
pub fn keys_are_in_total_order()
    ensures total { IsTotalOrder key_cmp }
    ensures apart { (a b : Key) → key_cmp a b ≡ Equal → a ≡ b }
{}

/// No key is before the left boundary of the whole tree, and none whose fields are as wide as those
/// of a base is after the right one.
pub fn keys_are_between_the_boundaries()
    ensures least { (key : Key) → IsFrom least_key key }
    ensures greatest { (key : Key) → key.localization < 2 ^ 32 → key.obj < 2 ^ 64 →
        key.rec_type < 2 ^ 16 → key.key < 2 ^ 64 → key.create < 2 ^ 64 → IsFrom key greatest_key }
{}

/// A balanced store is so still, with the same elements and payloads, where the element at a key is
/// moved to another extent with the same bytes, to which a reference came, and its reference to the
/// old extent is given back.
pub fn moved_elements_leave_balance()
    ensures { (at : Key) (e : Element) (to : ℕ) (es : List Element) (xs ys : List Extent) →
        element_at at es ≡ Some e → to ≢ e.payload →
        GainsReference to e.len (payload_of xs e) xs ys → AreExtents xs → AreExtents ys →
        IsBalanced es xs → IsBalanced (with_payload at to es) (given_back_at e.payload ys)
        × (full_elements (with_payload at to es) (given_back_at e.payload ys)
        ≡ full_elements es xs) }
{}
