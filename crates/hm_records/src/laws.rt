// What follows from the definitions alone: each function states one law, and does nothing.
ghost use Rattle.std.specs.Prelude.{◌≡◌, ◌↔◌, ◌+◌, ◌*◌, ◌/◌, ◌^◌, ◌<◌, ◌≤◌, ℕ, List, length};
ghost use Rattle.hm_types.specs.Elements.{FullElement};
ghost use Rattle.hm_retain.specs.Retention.{IsRetention};
ghost use Rattle.hm_records.specs.declared.entry.DirEntry.{DirEntry};
ghost use Rattle.hm_records.specs.declared.inode.Inode.{Inode};
ghost use Rattle.hm_records.specs.declared.pfs_record.PfsRecord.{PfsRecord};
ghost use Rattle.hm_records.specs.Entry.{IsEntry, entry_bytes};
ghost use Rattle.hm_records.specs.Inode.{IsInode, inode_bytes};
ghost use Rattle.hm_records.specs.Payload.{IsPayload, KeyFits};
ghost use Rattle.hm_records.specs.PfsRecord.{EndsOpen, IsOpen, IsPfsRecord, NoneEndsOpen, pfs_bytes};

/// Some bytes spell one inode at most.
pub fn bytes_spell_one_inode()
    ensures { (a b : Inode) → IsInode a → IsInode b → inode_bytes a ≡ inode_bytes b → a ≡ b }
{}

/// Some bytes spell one entry at most.
pub fn bytes_spell_one_entry()
    ensures { (a b : DirEntry) → IsEntry a → IsEntry b → entry_bytes a ≡ entry_bytes b → a ≡ b }
{}

/// Some bytes spell one record of a pseudo file system at most.
pub fn bytes_spell_one_record()
    ensures { (a b : PfsRecord) → IsPfsRecord a → IsPfsRecord b → pfs_bytes a ≡ pfs_bytes b →
        a ≡ b }
{}

/// How long the payloads of inodes, entries and records are.
pub fn payloads_have_their_sizes()
    ensures inode { (inode : Inode) → length (inode_bytes inode) ≡ 32 }
    ensures entry { (entry : DirEntry) → length (entry_bytes entry) ≡ 8 + length entry.name }
    ensures pfs { (r : PfsRecord) → length (pfs_bytes r) ≡ 32 + 16 * length r.retention }
{}

/// A payload is never empty, and has 65,568 bytes at most.
pub fn payload_is_neither_empty_nor_large()
    ensures { (e : FullElement) → IsPayload e →
        (1 ≤ length e.bytes) × (length e.bytes ≤ 65568) }
{}

/// A retention has an open end exactly where its last interval has; and it has none exactly where
/// no interval has.
pub fn open_end_is_that_of_the_last_interval()
    ensures last { (list : List (ℕ × ℕ)) → IsRetention list → (IsOpen list ↔ EndsOpen list) }
    ensures none { (list : List (ℕ × ℕ)) → IsRetention list →
        ((¬ IsOpen list) ↔ NoneEndsOpen list) }
{}

/// A key fits its name whatever its low 16 bits are. The hash of the name `a` is the one below, and
/// so is its key without a collision.
pub fn low_bits_of_a_key_are_free()
    ensures any { (hash : List ℕ → ℕ) (name : List ℕ) (low : ℕ) → low < 2 ^ 16 →
        KeyFits hash (hash name / 2 / 2 ^ 16 * 2 ^ 16 + low) name }
    ensures example { (name : List ℕ) →
        KeyFits (λ _. 0xaf63dc4c8601ec8c) 0x57b1ee2643000000 name }
{}
