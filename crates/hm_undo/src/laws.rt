// What follows from the definitions alone: each function states one law, and does nothing.
ghost use Rattle.std.specs.Prelude.{◌≡◌, ◌≢◌, ◌≤◌, ◌<◌, ◌+◌, ◌-◌, ◌*◌, ◌^◌, ℕ};
ghost use Rattle.std.specs.Prelude.{List, ◌∷◌, ◌++◌, length, slice_index, slice_range};
ghost use Rattle.hm_types.specs.declared.limits.TheConstants.{BIGBLOCK_BYTES, PAGE_BYTES, UNDO_ENTRY_BYTES};
ghost use Rattle.hm_types.specs.Layout.{IsLayer2, IsPool, block_of, first_pool, first_undo, start_of};
ghost use Rattle.hm_types.specs.Offset.{byte_of};
ghost use Rattle.hm_disk.specs.Crash.{MayLeave, Outside};
ghost use Rattle.hm_disk.specs.Disk.{overwritten};
ghost use Rattle.hm_fields.specs.Fields.{Apart};
ghost use Rattle.hm_header.specs.declared.header.Header.{Header};
ghost use Rattle.hm_header.specs.declared.header.TheConstants.{SLOT_BYTES};
ghost use Rattle.hm_header.specs.OnDisk.{HasHeader, slot_place};
ghost use Rattle.hm_header.specs.Range.{HasRoom, IsCount, IsEntry, IsSize};
ghost use Rattle.hm_undo.specs.Entry.{IsBrokenEntry, IsUndoPageOf, SpellsUndoEntry, undo_entry_of};
ghost use Rattle.hm_undo.specs.Log.{IsInEntry, IsUndo, entry_at, entry_place};
ghost use Rattle.hm_undo.specs.Range.{Fit, HasUndoEntry, HasRange, OldPage, old_places_of, put_back};
ghost use Rattle.hm_undo.specs.Recovered.{RecoversTo, recovered_header, with_slot};

/// Bytes are the entry of one offset, one generation and one page, at most.
pub fn bytes_are_one_entry_at_most()
    ensures { (bytes : List ℕ) (at generation : ℕ) (page : List ℕ)
        (other other_generation : ℕ) (other_page : List ℕ) →
        SpellsUndoEntry bytes at generation page →
        SpellsUndoEntry bytes other other_generation other_page →
        (at ≡ other) × (generation ≡ other_generation) × (page ≡ other_page) }
{}

/// Bytes of which a part is broken are no entry. So `decode` answers None exactly for what is none.
pub fn broken_bytes_are_no_entry()
    ensures { (bytes : List ℕ) (at generation : ℕ) (page : List ℕ) →
        IsBrokenEntry bytes → ¬ SpellsUndoEntry bytes at generation page }
{}

/// An entry lies in the UNDO big-blocks, inside the volume, and past the header slots.
pub fn an_entry_lies_in_the_log()
    ensures from { (bigblocks entry : ℕ) →
        start_of (first_undo bigblocks) ≤ entry_place bigblocks entry }
    ensures to { (bigblocks entry : ℕ) → IsEntry entry →
        entry_place bigblocks entry + UNDO_ENTRY_BYTES ≤ start_of (first_pool bigblocks) }
    ensures within { (bigblocks entry : ℕ) → IsSize bigblocks → IsEntry entry →
        entry_place bigblocks entry + UNDO_ENTRY_BYTES ≤ bigblocks * BIGBLOCK_BYTES }
    ensures block { (bigblocks entry byte : ℕ) → IsEntry entry →
        IsInEntry bigblocks entry byte → IsUndo bigblocks (block_of byte) }
    ensures past_the_slots { (bigblocks entry : ℕ) →
        2 * SLOT_BYTES ≤ entry_place bigblocks entry }
{}

/// An UNDO big-block is neither that of the header slots nor layer 1, which are 0 and 1, nor one of
/// layer 2, nor one of the pool.
pub fn an_undo_big_block_serves_nothing_else()
    ensures { (bigblocks block : ℕ) → IsUndo bigblocks block →
        (2 ≤ block) × ¬ IsLayer2 bigblocks block × ¬ IsPool bigblocks block }
{}

/// Two entries share no byte, and those of a range are different ones.
pub fn entries_share_no_byte()
    ensures apart { (bigblocks entry other : ℕ) → entry ≢ other →
        Apart (entry_place bigblocks entry) UNDO_ENTRY_BYTES
        (entry_place bigblocks other) UNDO_ENTRY_BYTES }
    ensures range { (bigblocks first count i j : ℕ) → IsCount count → i < j → j < count →
        Apart (entry_place bigblocks (entry_at first i)) UNDO_ENTRY_BYTES
        (entry_place bigblocks (entry_at first j)) UNDO_ENTRY_BYTES }
{}

/// A page that an entry may name lies past the header slots, inside the volume, and apart from all
/// entries.
pub fn a_page_lies_apart_from_slots_and_log()
    ensures past_the_slots { (bigblocks at : ℕ) → IsUndoPageOf bigblocks at →
        2 * SLOT_BYTES ≤ byte_of at }
    ensures within { (bigblocks at : ℕ) → IsSize bigblocks → IsUndoPageOf bigblocks at →
        byte_of at + PAGE_BYTES ≤ bigblocks * BIGBLOCK_BYTES }
    ensures log { (bigblocks at entry : ℕ) → IsEntry entry → IsUndoPageOf bigblocks at →
        Apart (byte_of at) PAGE_BYTES (entry_place bigblocks entry) UNDO_ENTRY_BYTES }
{}

/// An image has an entry that was written there.
pub fn a_written_entry_stands()
    ensures { (image : List ℕ) (header : Header) (entry : ℕ) (old : OldPage) →
        IsSize header.bigblocks → HasRoom (length image) header.bigblocks → IsEntry entry →
        header.generation < 2 ^ 64 → IsUndoPageOf header.bigblocks old.at →
        length old.bytes ≡ PAGE_BYTES →
        HasUndoEntry (overwritten image (entry_place header.bigblocks entry)
        (undo_entry_of old.at header.generation old.bytes)) header entry old }
{}

/// An image has the entries that another one of its size has, where it has their bytes.
pub fn entries_hang_on_their_bytes()
    ensures entry { (old new : List ℕ) (header : Header) (entry : ℕ) (page : OldPage) →
        length new ≡ length old →
        ((byte : ℕ) → IsInEntry header.bigblocks entry byte → byte < length old →
        slice_index new byte ≡ slice_index old byte) →
        HasUndoEntry old header entry page → HasUndoEntry new header entry page }
    ensures range { (old new : List ℕ) (header : Header) (olds : List OldPage) →
        length new ≡ length old →
        ((i byte : ℕ) → i < header.undo_count →
        IsInEntry header.bigblocks (entry_at header.undo_first i) byte → byte < length old →
        slice_index new byte ≡ slice_index old byte) →
        HasRange old header olds → HasRange new header olds }
{}

/// The entries that a header names have one list of pages, at most.
pub fn a_header_names_one_range_at_most()
    ensures { (image : List ℕ) (header : Header) (olds others : List OldPage) →
        HasRange image header olds → HasRange image header others → olds ≡ others }
{}

/// The pages of a range lie inside the image.
pub fn pages_of_a_range_fit()
    ensures { (image : List ℕ) (header : Header) (slot : ℕ) (olds : List OldPage) →
        HasHeader image header slot → HasRange image header olds → Fit (length image) olds }
{}

/// Where pages are put back, each byte outside them is as before, and so is the size.
pub fn pages_put_back_leave_the_rest()
    ensures { (image : List ℕ) (olds : List OldPage) → Fit (length image) olds →
        MayLeave image (old_places_of olds) (put_back image olds) }
{}

/// Where pages are put back, a byte is that of the first page that has it. So a page stands whole where
/// none before it meets it.
pub fn the_first_page_put_back_stands()
    ensures byte { (image : List ℕ) (before : List OldPage) (old : OldPage)
        (after : List OldPage) → Fit (length image) (before ++ old ∷ after) → (byte : ℕ) →
        byte_of old.at ≤ byte → byte < byte_of old.at + length old.bytes →
        Outside (old_places_of before) byte →
        slice_index (put_back image (before ++ old ∷ after)) byte
        ≡ slice_index old.bytes (byte - byte_of old.at) }
    ensures page { (image : List ℕ) (before : List OldPage) (old : OldPage)
        (after : List OldPage) → Fit (length image) (before ++ old ∷ after) →
        ((byte : ℕ) → byte_of old.at ≤ byte → byte < byte_of old.at + length old.bytes →
        Outside (old_places_of before) byte) →
        slice_range (put_back image (before ++ old ∷ after)) (byte_of old.at)
        (byte_of old.at + length old.bytes) ≡ old.bytes }
{}

/// What stood in the pages before they are put back changes nothing of what stands afterwards.
pub fn pages_put_back_hide_what_stood_there()
    ensures { (image other : List ℕ) (olds : List OldPage) → Fit (length image) olds →
        MayLeave image (old_places_of olds) other → put_back other olds ≡ put_back image olds }
{}

/// An image recovers to one image at most.
pub fn an_image_recovers_to_one_at_most()
    ensures { (image result other : List ℕ) →
        RecoversTo image result → RecoversTo image other → result ≡ other }
{}

/// Where the range of the header that counts is undone, the next header counts, in the other slot. Each
/// byte outside the pages and this slot is as before, and past the slots all stands as it was put back.
pub fn an_undone_range_leaves_the_rest()
    ensures header { (image : List ℕ) (header : Header) (slot : ℕ) (olds : List OldPage) →
        HasHeader image header slot → HasRange image header olds →
        HasHeader (with_slot (put_back image olds) (1 - slot) (recovered_header header))
        (recovered_header header) (1 - slot) }
    ensures others { (image : List ℕ) (header : Header) (slot : ℕ) (olds : List OldPage) →
        HasHeader image header slot → HasRange image header olds →
        MayLeave image ((slot_place (1 - slot), SLOT_BYTES) ∷ old_places_of olds)
        (with_slot (put_back image olds) (1 - slot) (recovered_header header)) }
    ensures past_the_slots { (image : List ℕ) (header : Header) (slot : ℕ) (olds : List OldPage) →
        HasHeader image header slot → HasRange image header olds →
        (from to : ℕ) → 2 * SLOT_BYTES ≤ from →
        slice_range (with_slot (put_back image olds) (1 - slot) (recovered_header header)) from to
        ≡ slice_range (put_back image olds) from to }
{}

/// What an image recovers to recovers to itself.
pub fn what_was_recovered_recovers_to_itself()
    ensures { (image result : List ℕ) → RecoversTo image result → RecoversTo result result }
{}
