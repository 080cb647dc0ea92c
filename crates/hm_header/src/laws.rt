// What follows from the definitions alone: each function states one law, and does nothing.
ghost use Rattle.std.specs.Prelude.{◌≡◌, ◌≢◌, ◌<◌, ◌≤◌, ◌+◌, ◌*◌, ℕ, List, [], ◌∷◌, ◌++◌, length, slice_index};
ghost use Rattle.hm_disk.specs.Crash.{Told};
ghost use Rattle.hm_disk.specs.Transfer.{TornAll};
ghost use Rattle.hm_header.specs.declared.fault.HeaderFault.{HeaderFault};
ghost use Rattle.hm_header.specs.declared.fault.HeaderFault.TheVariants.{BadField};
ghost use Rattle.hm_header.specs.declared.header.Header.{Header};
ghost use Rattle.hm_header.specs.declared.header.TheConstants.{BODY_BYTES, GATE_OPEN, SLOT_BYTES};
ghost use Rattle.hm_header.specs.Change.{AnyCrash, AreSlotsSettled, HaveSameSlots};
ghost use Rattle.hm_header.specs.Change.{HasNextBody, IsClosedBeside, IsCounting};
ghost use Rattle.hm_header.specs.Layout.{body_of, header_in};
ghost use Rattle.hm_header.specs.Parts.{AreInRange, all_parts};
ghost use Rattle.hm_header.specs.Range.{HasRoom, IsHeader};
ghost use Rattle.hm_header.specs.Slots.{Counts, FirstCounts, SecondCounts, Follows, IsChosen, TakesPart};
ghost use Rattle.hm_header.specs.Slots.{IsClosed, IsFault, SpellsHeader, slot_of};

/// A body is that of one header in range at most.
pub fn body_has_one_header()
    ensures { (a b : Header) → IsHeader a → IsHeader b → body_of a ≡ body_of b → a ≡ b }
{}

/// A body has all bytes of a slot but the gate.
pub fn body_has_its_length()
    ensures { (header : Header) → length (body_of header) ≡ BODY_BYTES }
{}

/// A slot that takes part, with each field in range, has the body of a header in range.
pub fn slot_in_range_has_a_header()
    ensures { (slot : List ℕ) (size : ℕ) → ((k : ℕ) → slice_index slot k < 256) →
        TakesPart slot → AreInRange slot size all_parts → (header : Header)
        × SpellsHeader slot header × IsHeader header × HasRoom size header.bigblocks }
{}

/// A slot with the body of a header in range has each field in range.
pub fn slot_of_a_header_is_in_range()
    ensures { (slot : List ℕ) (size : ℕ) (header : Header) → SpellsHeader slot header →
        IsHeader header → HasRoom size header.bigblocks → AreInRange slot size all_parts }
{}

/// A slot with the body of a header and an open gate takes part.
pub fn encoded_slot_takes_part()
    ensures { (header : Header) → TakesPart (body_of header ++ GATE_OPEN ∷ []) }
{}

/// Where such a slot counts, its header is chosen.
pub fn encoded_header_is_chosen()
    ensures { (header : Header) (first second : List ℕ) (size number : ℕ) →
        IsHeader header → HasRoom size header.bigblocks → Counts first second number →
        slot_of first second number ≡ body_of header ++ GATE_OPEN ∷ [] →
        IsChosen first second size header number }
{}

/// Two slots have one header that is chosen, at most.
pub fn chosen_header_is_one()
    ensures { (first second : List ℕ) (size : ℕ) (a b : Header) (m n : ℕ) →
        IsChosen first second size a m → IsChosen first second size b n → (a ≡ b) × (m ≡ n) }
{}

/// Two slots have one fault, at most.
pub fn fault_is_one()
    ensures { (first second : List ℕ) (size : ℕ) (a b : HeaderFault) →
        IsFault first second size a → IsFault first second size b → a ≡ b }
{}

/// Two slots of which a header is chosen have no fault. So what `choose` answers is settled by the
/// slots and the size of the disk.
pub fn no_chosen_header_has_a_fault()
    ensures { (first second : List ℕ) (size : ℕ) (header : Header) (number : ℕ)
        (fault : HeaderFault) → IsChosen first second size header number →
        IsFault first second size fault → ⊥ }
{}

/// Where a slot counts whose version is not 2, as a volume of version 1 has it, the fault is told at 8.
pub fn another_version_is_bad_at_8()
    ensures { (first second : List ℕ) (size number : ℕ) → Counts first second number →
        (header_in (slot_of first second number)).version ≢ 2 →
        IsFault first second size (BadField 8) }
{}

/// Of two slots that take part, the one with the next generation after the other's counts. So the
/// slot that a header change has written counts, whichever of the two it is.
pub fn slot_written_last_counts()
    ensures { (first second : List ℕ) → TakesPart first → TakesPart second →
        (Follows first second → SecondCounts first second)
        × (Follows second first → FirstCounts first second) }
{}

/// A slot with a closed gate does not count.
pub fn closed_slot_does_not_count()
    ensures { (first second : List ℕ) →
        (IsClosed first → ¬ FirstCounts first second)
        × (IsClosed second → ¬ SecondCounts first second) }
{}

/// What stands under a closed gate of the first slot changes nothing of the answer.
pub fn closed_first_slot_is_ignored()
    ensures { (first other second : List ℕ) (size : ℕ) → IsClosed first → IsClosed other →
        ((header : Header) (number : ℕ) →
        IsChosen first second size header number → IsChosen other second size header number)
        × ((fault : HeaderFault) →
        IsFault first second size fault → IsFault other second size fault) }
{}

/// What stands under a closed gate of the second slot changes nothing of the answer.
pub fn closed_second_slot_is_ignored()
    ensures { (first second other : List ℕ) (size : ℕ) → IsClosed second → IsClosed other →
        ((header : Header) (number : ℕ) →
        IsChosen first second size header number → IsChosen first other size header number)
        × ((fault : HeaderFault) →
        IsFault first second size fault → IsFault first other size fault) }
{}

/// Where no unsettled range meets a slot, what a stage of a header change asks for holds whatever a
/// crash leaves, if it holds of the disk as it reads.
pub fn settled_slots_are_left()
    ensures first { (t : Told) (header : Header) (slot : ℕ) → AreSlotsSettled t →
        IsCounting header slot t.bytes → AnyCrash (IsCounting header slot) t }
    ensures second { (t : Told) (header : Header) (slot : ℕ) → AreSlotsSettled t →
        IsClosedBeside header slot t.bytes → AnyCrash (IsClosedBeside header slot) t }
    ensures third { (t : Told) (header next : Header) (slot : ℕ) → AreSlotsSettled t →
        HasNextBody header slot next t.bytes → AnyCrash (HasNextBody header slot next) t }
{}

/// Writes past the slots change nothing of what a stage of a header change asks for, whether they
/// succeed or not.
pub fn writes_past_the_slots_leave_them()
    ensures first { (old new : Told) (place count : ℕ) (header : Header) (slot : ℕ) →
        2 * SLOT_BYTES ≤ place → place + count ≤ length old.bytes → TornAll place count old new →
        AnyCrash (IsCounting header slot) old → AnyCrash (IsCounting header slot) new }
    ensures second { (old new : Told) (place count : ℕ) (header : Header) (slot : ℕ) →
        2 * SLOT_BYTES ≤ place → place + count ≤ length old.bytes → TornAll place count old new →
        AnyCrash (IsClosedBeside header slot) old → AnyCrash (IsClosedBeside header slot) new }
    ensures third { (old new : Told) (place count : ℕ) (header next : Header) (slot : ℕ) →
        2 * SLOT_BYTES ≤ place → place + count ≤ length old.bytes → TornAll place count old new →
        AnyCrash (HasNextBody header slot next) old → AnyCrash (HasNextBody header slot next) new }
{}

/// What a stage of a header change asks for hangs on the two slots alone: another disk of the same size has
/// it too whose slots read the same and are settled in the same bytes.
pub fn same_slots_keep_what_a_stage_asks_for()
    ensures first { (old new : Told) (header : Header) (slot : ℕ) → HaveSameSlots old new →
        AnyCrash (IsCounting header slot) old → AnyCrash (IsCounting header slot) new }
    ensures second { (old new : Told) (header : Header) (slot : ℕ) → HaveSameSlots old new →
        AnyCrash (IsClosedBeside header slot) old → AnyCrash (IsClosedBeside header slot) new }
    ensures third { (old new : Told) (header next : Header) (slot : ℕ) → HaveSameSlots old new →
        AnyCrash (HasNextBody header slot next) old → AnyCrash (HasNextBody header slot next) new }
{}
