// What a sound image cannot have, with numbers, and beside each what it may have.
ghost use Rattle.std.specs.Prelude.{◌≡◌, ◌≢◌, ◌+◌, pos, [], ◌∷◌, replicate, codes};
ghost use Rattle.hm_types.specs.Hash.{name_hash};
ghost use Rattle.hm_types.specs.References.{AreFew, IsPlaced, NoneOverlap};
ghost use Rattle.hm_key.specs.Elements.{moved_to};
ghost use Rattle.hm_records.specs.KeysFit.{KeysFit};
ghost use Rattle.hm_records.specs.Payload.{KeyFits};
ghost use Rattle.hm_image.specs.Examples.{entry_at, key_of_a, payload_at};
ghost use Rattle.hm_image.specs.Fresh.{fresh_entry, inode_element, root_at};
ghost use Rattle.hm_image.specs.Sound.{IsAmongPayloads, IsFilled, free_bytes_in};

/// Two extents that share 16 bytes are refused. One that begins where the other ends is not, and
/// neither are two references to one extent, whose lengths may differ by less than 16 bytes.
pub fn overlapping_extents_are_refused()
    ensures refused { ¬ NoneOverlap (payload_at 0 32 ∷ payload_at 16 48 ∷ []) }
    ensures apart { NoneOverlap (payload_at 0 32 ∷ payload_at 32 48 ∷ []) }
    ensures one { NoneOverlap (payload_at 0 32 ∷ payload_at 0 31 ∷ []) }
{}

/// An extent of 32 bytes that begins 16 bytes before the end of its big-block is refused, and one
/// that ends there is not.
pub fn extents_across_bigblocks_are_refused()
    ensures refused { ¬ IsPlaced 24 (payload_at 8388592 32) }
    ensures inside { IsPlaced 24 (payload_at 8388576 32) }
{}

/// An extent that begins where its big-block is not filled yet is refused, and one that ends there
/// is not: 80 bytes are filled as a volume is made.
pub fn extents_past_the_filled_part_are_refused()
    ensures refused { ¬ IsFilled (fresh_entry 24) (payload_at 80 16) }
    ensures filled { IsFilled (fresh_entry 24) (payload_at 64 16) }
{}

/// A payload that stands in the zone of nodes is refused: here the root directory's inode stands
/// where the root node does. One in the zone of such payloads is not.
pub fn payloads_among_nodes_are_refused()
    ensures refused { ¬ IsAmongPayloads (moved_to (root_at 24) (inode_element 24)) }
    ensures among { IsAmongPayloads (inode_element 24) }
{}

/// A 65th reference to one extent is refused, and the 64th is not.
pub fn references_past_64_are_refused()
    ensures refused { ¬ AreFew (replicate 65 (payload_at 0 32)) }
    ensures few { AreFew (replicate 64 (payload_at 0 32)) }
{}

/// Of a big-block with one extent of 32 bytes and two references to one of 40 bytes, which takes
/// 48, 128 bytes are live, and no other number of free bytes counts than what is left.
pub fn other_counts_of_free_bytes_are_refused()
    ensures counted { free_bytes_in (payload_at 0 32 ∷ payload_at 32 40 ∷ payload_at 32 40 ∷ []) 12
        ≡ pos 8388480 }
    ensures refused { pos 8388481
        ≢ free_bytes_in (payload_at 0 32 ∷ payload_at 32 40 ∷ payload_at 32 40 ∷ []) 12 }
{}

/// A directory entry is refused whose key differs from that of its name above the low 16 bits, and
/// one that differs below them is not.
pub fn keys_of_other_names_are_refused()
    ensures refused { ¬ KeysFit name_hash (entry_at (key_of_a + 65536) ∷ []) }
    ensures collision { KeyFits name_hash (key_of_a + 1023) (codes "a") }
{}
