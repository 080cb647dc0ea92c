// What follows from the definitions alone: each function states one law, and does nothing.
ghost use Rattle.std.specs.Prelude.{◌≡◌, ◌≤◌, ◌<◌, ◌+◌, ℕ, Bool, List, IsTrue, length, slice_index, slice_range, FitsSigned};
ghost use Rattle.std.specs.Int.{w32};
ghost use Rattle.hm_types.specs.Faults.{IsSpaceUndamaged};
ghost use Rattle.hm_types.specs.Layout.{IsPool};
ghost use Rattle.hm_types.specs.References.{Reference, References, free_blocks, is_free, is_unused};
ghost use Rattle.hm_types.specs.Space.{rounded};
ghost use Rattle.hm_types.specs.declared.fault.SpaceFault.{SpaceFault};
ghost use Rattle.hm_types.specs.declared.zone.TheConstants.{TREE_ZONE};
ghost use Rattle.hm_types.specs.declared.zones.Zones.{Zones};
ghost use Rattle.hm_fields.specs.Fields.{AreBytes, get};
ghost use Rattle.hm_fields.specs.Pages.{PageMap};
ghost use Rattle.hm_freemap.specs.declared.entry.Entry.{Entry};
ghost use Rattle.hm_freemap.specs.Admit.{IsAdmitted, IsFreeAt, IsSpaceDamage, does_lack};
ghost use Rattle.hm_freemap.specs.Change.{MayHold};
ghost use Rattle.hm_freemap.specs.Decide.{is_standing};
ghost use Rattle.hm_freemap.specs.Entry.{entry_in, HoldsEntry, IsEntry, SpellsEntry};
ghost use Rattle.hm_freemap.specs.Extents.{IsReferred, Takes, reference, referred, unreferred};
ghost use Rattle.hm_freemap.specs.Faults.{IsGoodBlock};
ghost use Rattle.hm_freemap.specs.Free.{KeepsFree, MayFree};
ghost use Rattle.hm_freemap.specs.Layer1.{layer1_bytes, HoldsLayer1, IsLayer1};
ghost use Rattle.hm_freemap.specs.Order.{IsReordered};
ghost use Rattle.hm_freemap.specs.Stand.{AreDistinct, Maps, StandBy};
ghost use Rattle.hm_freemap.specs.Stand.{entry_of, free_by, home_of, is_free_by, room_in};

/// Where the freemap stands for some states, each big-block of the pool is good, so that no call
/// tells damage of one.
#[tactic(auto, using(crate::proofs::GoodLemmas::good_block))]
pub fn each_block_is_good_where_the_freemap_stands()
    ensures { (bigblocks : ℕ) (append : List ℕ) (maps : Maps) (states : References) →
        StandBy bigblocks append maps states → (block : ℕ) → IsPool bigblocks block →
        IsGoodBlock bigblocks append maps block }
{}

/// Where the freemap stands for some states, a call that needs room is told no damage: the append
/// big-blocks are of the pool, and so is each other one that is looked at.
#[tactic(auto, using(crate::proofs::GoodLemmas::admission_undamaged))]
pub fn no_room_is_refused_for_damage_where_the_freemap_stands()
    ensures { (bigblocks : ℕ) (append : List ℕ) (maps : Maps) (states : References) →
        StandBy bigblocks append maps states → (fault : SpaceFault) →
        IsSpaceDamage bigblocks append maps fault → IsSpaceUndamaged fault }
{}

/// Where the freemap stands for some states, the big-block of an extent that the current one refers
/// to is good, and its entry leaves room for the extent, so that no call tells damage of it.
pub fn each_extent_is_held_where_the_freemap_stands()
    ensures good { (bigblocks : ℕ) (append : List ℕ) (maps : Maps) (states : References) →
        StandBy bigblocks append maps states → (r : Reference) → IsReferred r states →
        IsGoodBlock bigblocks append maps (home_of r) }
    ensures held { (bigblocks : ℕ) (append : List ℕ) (maps : Maps) (states : References) →
        StandBy bigblocks append maps states → (r : Reference) → IsReferred r states →
        MayHold (rounded r.len) (entry_of maps.current (home_of r)) }
{}

/// Where the freemap stands for some states, no two zones append to one big-block.
#[tactic(auto, using(crate::proofs::GoodLemmas::stand_distinct))]
pub fn zones_append_apart_where_the_freemap_stands()
    ensures { (bigblocks : ℕ) (append : List ℕ) (maps : Maps) (states : References) →
        StandBy bigblocks append maps states → AreDistinct append }
{}

/// A freemap that stands for some states stands for them in any order of their references.
pub fn a_freemap_stands_for_references_in_any_order()
    ensures all { (bigblocks : ℕ) (append : List ℕ) (maps : Maps) (old new : References) →
        StandBy bigblocks append maps old → IsReordered old.committed new.committed →
        IsReordered old.frozen new.frozen → IsReordered old.current new.current →
        StandBy bigblocks append maps new }
    ensures current { (bigblocks : ℕ) (append : List ℕ) (maps : Maps) (states : References) →
        StandBy bigblocks append maps states → (other : List Reference) →
        IsReordered states.current other →
        StandBy bigblocks append maps (record states { current = other }) }
{}

/// A test tells whether a freemap stands for some states: it computes, so that one may ask it where
/// nothing else is known.
pub fn whether_a_freemap_stands_is_decided()
    ensures passed { (bigblocks : ℕ) (append : List ℕ) (maps : Maps) (states : References) →
        IsTrue (is_standing bigblocks append maps states) → StandBy bigblocks append maps states }
    ensures passes { (bigblocks : ℕ) (append : List ℕ) (maps : Maps) (states : References) →
        StandBy bigblocks append maps states → IsTrue (is_standing bigblocks append maps states) }
{}

/// The same big-blocks of the pool are free by the maps as by the references of the states for which
/// they stand: so they are as many, and come one after the other.
pub fn free_blocks_are_those_of_the_states()
    ensures each { (bigblocks : ℕ) (append : List ℕ) (maps : Maps) (states : References) →
        StandBy bigblocks append maps states → (block : ℕ) → IsPool bigblocks block →
        is_free_by append maps block ≡ is_free append states block }
    ensures number { (bigblocks : ℕ) (append : List ℕ) (maps : Maps) (states : References) →
        StandBy bigblocks append maps states →
        free_by bigblocks append maps ≡ free_blocks bigblocks append states }
    ensures order { (bigblocks : ℕ) (append : List ℕ) (maps : Maps) (states : References) →
        StandBy bigblocks append maps states → (rank block : ℕ) →
        IsFreeAt bigblocks (is_free_by append maps) rank block →
        IsFreeAt bigblocks (is_free append states) rank block }
{}

/// One free big-block alone has so many free ones before it, by any test for them. So the big-blocks
/// that zones begin as they are admitted are determined.
pub fn one_free_big_block_has_so_many_before_it()
    ensures { (bigblocks : ℕ) (test : ℕ → Bool) (rank one other : ℕ) →
        IsFreeAt bigblocks test rank one → IsFreeAt bigblocks test rank other → one ≡ other }
{}

/// Taking an extent leaves which big-blocks are free: it stands in the append big-block of its zone.
pub fn taking_leaves_what_is_free()
    ensures { (bigblocks : ℕ) (append : List ℕ) (maps : Maps) (states : References) →
        StandBy bigblocks append maps states → (zone len at : ℕ) (now : PageMap) → 1 ≤ len →
        Takes bigblocks append zone len at maps now →
        KeepsFree bigblocks append states (referred (reference at len) states) }
{}

/// Sharing an extent that is live in the current state leaves which big-blocks are free.
pub fn sharing_leaves_what_is_free()
    ensures { (bigblocks : ℕ) (append : List ℕ) (r : Reference) (states : References) →
        IsReferred r states → KeepsFree bigblocks append states (referred r states) }
{}

/// Giving an extent back leaves which big-blocks are free, or frees that of the extent, where then no
/// zone appends to it and nothing in it is live in any state. So their number never falls.
pub fn giving_frees_one_big_block_at_most()
    ensures { (bigblocks : ℕ) (append : List ℕ) (r : Reference) (states : References) →
        MayFree bigblocks append (home_of r) states (unreferred r states) }
{}

/// A big-block that a zone left for a new one as it was admitted is free, where nothing in it is live.
pub fn a_replaced_big_block_is_free_where_nothing_in_it_is_live()
    ensures { (bigblocks : ℕ) (zones : Zones) (held : ℕ) (append then : List ℕ) (maps : Maps) (now : PageMap)
        (states : References) → StandBy bigblocks append maps states →
        IsAdmitted bigblocks zones held append then maps now → (k : ℕ) → k < 4 →
        IsTrue (does_lack zones (room_in append maps.current) (TREE_ZONE + k)) →
        IsTrue (is_unused states (slice_index append k)) →
        IsTrue (is_free then states (slice_index append k)) }
{}

/// Where the bytes of an entry in range stand in a page, its fields are read there, and the page
/// holds it.
pub fn bytes_of_an_entry_are_its_fields()
    ensures fields { (page : List ℕ) (at : ℕ) (e : Entry) → IsEntry e → FitsSigned w32 e.bytes_free →
        SpellsEntry page at e → entry_in page at ≡ e }
    ensures held { (page : List ℕ) (at : ℕ) (e : Entry) → IsEntry e → FitsSigned w32 e.bytes_free →
        SpellsEntry page at e → HoldsEntry page at }
{}

/// Where a page holds an entry, the bytes of that entry stand in it. The free bytes that are read in
/// any page fit their field.
pub fn fields_of_an_entry_are_its_bytes()
    ensures bytes { (page : List ℕ) (at : ℕ) → AreBytes page → at + 16 ≤ length page →
        HoldsEntry page at → SpellsEntry page at (entry_in page at) }
    ensures fits { (page : List ℕ) (at : ℕ) → AreBytes page →
        FitsSigned w32 (entry_in page at).bytes_free }
{}

/// Bytes are those of one entry in range at most.
pub fn bytes_are_of_one_entry()
    ensures { (page : List ℕ) (at : ℕ) (e f : Entry) → IsEntry e → IsEntry f →
        FitsSigned w32 e.bytes_free → FitsSigned w32 f.bytes_free →
        SpellsEntry page at e → SpellsEntry page at f → e ≡ f }
{}

/// Where the bytes of an offset in range stand in a page as an entry of layer 1, it is read there,
/// and the page holds it.
pub fn bytes_of_layer1_are_its_fields()
    ensures fields { (page : List ℕ) (at raw : ℕ) → IsLayer1 raw →
        slice_range page at (at + 32) ≡ layer1_bytes raw → get page at 8 ≡ raw }
    ensures held { (page : List ℕ) (at raw : ℕ) → IsLayer1 raw →
        slice_range page at (at + 32) ≡ layer1_bytes raw → HoldsLayer1 page at }
{}

/// Where a page holds an entry of layer 1, the bytes of its offset stand in it.
#[tactic(auto, using(crate::proofs::SpellLemmas::layer1_spelled))]
pub fn fields_of_layer1_are_its_bytes()
    ensures { (page : List ℕ) (at : ℕ) → AreBytes page → at + 32 ≤ length page →
        HoldsLayer1 page at → slice_range page at (at + 32) ≡ layer1_bytes (get page at 8) }
{}

/// Bytes are those of one entry of layer 1 in range at most.
pub fn bytes_are_of_one_layer1()
    ensures { (page : List ℕ) (at raw other : ℕ) → IsLayer1 raw → IsLayer1 other →
        slice_range page at (at + 32) ≡ layer1_bytes raw →
        slice_range page at (at + 32) ≡ layer1_bytes other → raw ≡ other }
{}
