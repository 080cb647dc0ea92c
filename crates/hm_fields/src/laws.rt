// What follows from the definitions alone: each function states one law, and does nothing.
ghost use Rattle.std.specs.Prelude.{◌≡◌, ◌≤◌, ◌<◌, ◌+◌, ◌^◌, ◌++◌, ℕ, List, length, take, drop, slice_range};
ghost use Rattle.byteorder.specs.Endian.{little_bytes, little_number};
ghost use Rattle.hm_fields.specs.Fields.{Apart, AreBytes, get, put, zero_page};

/// A field holds the number that was put into it.
#[tactic(auto, using(crate::proofs::FieldLemmas::fields))]
pub fn field_holds_what_was_put()
    ensures { (page : List ℕ) (at size value : ℕ) → value < 256 ^ size →
        get (put page at size value) at size ≡ value }
{}

/// A field keeps its number when one that shares no byte with it is put.
#[tactic(auto, using(crate::proofs::FieldLemmas::fields))]
pub fn field_apart_is_kept()
    ensures { (page : List ℕ) (at size value other width : ℕ) → Apart at size other width →
        get (put page at size value) other width ≡ get page other width }
{}

/// Each field of a page of zeros is 0.
#[tactic(auto, using(crate::proofs::FieldLemmas::fields))]
pub fn field_of_zeros_is_zero()
    ensures { (at size : ℕ) → get zero_page at size ≡ 0 }
{}

/// The number in a field is that of its bytes, the lowest first.
#[tactic(auto, using(crate::proofs::FieldLemmas::get_bytes))]
pub fn field_is_its_bytes()
    ensures { (page : List ℕ) (at size : ℕ) →
        get page at size ≡ little_number size (slice_range page at (at + size)) }
{}

/// A put into a field of a page writes the bytes of the number, the lowest first, and leaves each byte
/// before and after the field as it was.
#[tactic(auto, using(crate::proofs::FieldLemmas::put_bytes))]
pub fn put_changes_its_bytes_alone()
    ensures { (page : List ℕ) (at size value : ℕ) → at + size ≤ length page →
        put page at size value ≡ take at page ++ (little_bytes size value ++ drop (at + size) page) }
{}

/// A put into a field of a page keeps the length of the page.
#[tactic(auto, using(crate::proofs::FieldLemmas::put_length))]
pub fn put_keeps_the_length()
    ensures { (page : List ℕ) (at size value : ℕ) → at + size ≤ length page →
        length (put page at size value) ≡ length page }
{}

/// A field is 0 exactly where each of its bytes is.
pub fn field_is_zero_where_its_bytes_are()
    ensures there { (page : List ℕ) (at size : ℕ) → get page at size ≡ 0 →
        (k : ℕ) → at ≤ k → k < at + size → get page k 1 ≡ 0 }
    ensures back { (page : List ℕ) (at size : ℕ) →
        ((k : ℕ) → at ≤ k → k < at + size → get page k 1 ≡ 0) → get page at size ≡ 0 }
{}

/// The number in a field fixes its bytes, and its bytes fix a page.
pub fn fields_fix_the_page()
    ensures bytes { (p q : List ℕ) (at size : ℕ) → AreBytes p → AreBytes q →
        get p at size ≡ get q at size →
        (k : ℕ) → at ≤ k → k < at + size → get p k 1 ≡ get q k 1 }
    ensures page { (p q : List ℕ) → length p ≡ length q →
        ((k : ℕ) → k < length p → get p k 1 ≡ get q k 1) → p ≡ q }
{}
