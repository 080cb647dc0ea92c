// What follows from the definitions alone: each function states one law, and does nothing.
ghost use Rattle.std.specs.Prelude.{◌≡◌, ◌≢◌, ℕ, ◌+◌, ◌≤◌, IsSome, List, Option, Some};
ghost use Rattle.std.specs.List.{Contains};
ghost use Rattle.hm_types.specs.Elements.{FullElement};
ghost use Rattle.hm_types.specs.Layout.{first_layer2, start_of};
ghost use Rattle.hm_types.specs.Offset.{byte_of};
ghost use Rattle.hm_types.specs.declared.limits.TheConstants.{PAGE_BYTES};
ghost use Rattle.hm_disk.specs.Crash.{Told};
ghost use Rattle.hm_fields.specs.Fields.{AreBytes};
ghost use Rattle.hm_fields.specs.Pages.{PageMap};
ghost use Rattle.hm_header.specs.declared.header.Header.{Header};
ghost use Rattle.hm_header.specs.Change.{HaveSameSlots};
ghost use Rattle.hm_header.specs.OnDisk.{HasHeader};
ghost use Rattle.hm_header.specs.Range.{IsSize};
ghost use Rattle.hm_flush.specs.Recoverable.{RecoversToState};
ghost use Rattle.hm_freemap.specs.Extents.{IsApart};
ghost use Rattle.hm_undo.specs.Recovered.{RecoversTo};
ghost use Rattle.hm_key.specs.declared.element.Element.{Element};
ghost use Rattle.hm_btree.specs.Tree.{IsTreeSpace};
ghost use Rattle.hm_pages.specs.Store.{Store};
ghost use Rattle.hm_model.specs.Volume.{Volume};
ghost use Rattle.hm_image.specs.Image.{to_node, to_payload};
ghost use Rattle.hm_image.specs.Same.{HasSameFreemap, HasSameTree};
ghost use Rattle.hm_image.specs.Stands.{StandsFor};
ghost use Rattle.hm_load.specs.Held.{HoldsImage};
ghost use Rattle.hm_load.specs.Loaded.{IsLoaded};
ghost use Rattle.hm_stored.specs.declared.books.Books.{Books};
ghost use Rattle.hm_stored.specs.Basis.{IsFirm, elements_in, nodes};
ghost use Rattle.hm_stored.specs.Heap.{Heap, frame_of, free_of, heap_of};
ghost use Rattle.hm_stored.specs.Held.{AreOfVolume, AreOnlyOf};
ghost use Rattle.hm_stored.specs.Mounted.{IsBooksOf};
ghost use Rattle.hm_stored.specs.Standing.{Holds, basis_now};
ghost use Rattle.hm_state.specs.AtRest.{HasBeside, HoldsAtRest};
ghost use Rattle.hm_state.specs.Free.{free_in};
ghost use Rattle.hm_state.specs.Volume.{HoldsVolume};
ghost use Rattle.hm_state.specs.Written.{HasSamePayloads, IsHeaderOf, IsWritten};

/// Where the bytes of a disk stand for a volume, the space over the pages that were loaded from them
/// and over that disk, with the books of their header, holds this volume. The header is that of the
/// space, its pages are of its volume, and the disk has all that it holds. As many big-blocks are free as
/// the tree of the bytes leaves free.
pub fn a_mounted_volume_is_held()
    ensures held { (t : Told) (header : Header) (slot : ℕ) (s : Store) (books : Books)
        (volume : Volume) → StandsFor t.bytes volume → HasHeader t.bytes header slot →
        IsLoaded header s → HoldsImage t.bytes header s → IsBooksOf header books →
        HoldsVolume (heap_of s (Some t) books) header.root header.last.0 volume }
    ensures free { (t : Told) (header : Header) (slot : ℕ) (s : Store) (books : Books)
        (volume : Volume) → StandsFor t.bytes volume → HasHeader t.bytes header slot →
        IsLoaded header s → HoldsImage t.bytes header s → IsBooksOf header books →
        free_of (heap_of s (Some t) books) ≡ free_in t.bytes header }
    ensures header { (told : Option Told) (header : Header) (s : Store) (books : Books) →
        IsBooksOf header books →
        IsHeaderOf (heap_of s told books) header.root header.last.0 header }
    ensures pages { (told : Option Told) (header : Header) (s : Store) (books : Books) →
        IsLoaded header s → IsBooksOf header books → AreOfVolume (heap_of s told books) }
    ensures written { (t : Told) (header : Header) (slot : ℕ) (s : Store) (books : Books)
        (volume : Volume) → StandsFor t.bytes volume → HasHeader t.bytes header slot →
        IsLoaded header s → HoldsImage t.bytes header s → IsBooksOf header books →
        ((at : ℕ) (page : List ℕ) → s.current at ≡ Some page → AreBytes page) →
        IsWritten (heap_of s (Some t) books) header.root t.bytes }
{}

/// Where a space holds a volume, bytes to which all of it was written, and whose header is that of
/// the space, stand for the volume.
pub fn a_written_volume_stands()
    ensures { (h : Heap) (root last : ℕ) (volume : Volume) (image : List ℕ) (header : Header)
        (slot : ℕ) → HoldsVolume h root last volume → IsWritten h root image →
        HasHeader image header slot → IsHeaderOf h root last header → StandsFor image volume }
{}

/// Of the bytes of its disk a space holds the payloads of its elements, and nothing else: over
/// another disk that has the same ones it holds the same elements.
pub fn payloads_are_all_that_matters_of_a_disk()
    ensures { (h : Heap) (root : ℕ) (es : List FullElement) (old new : Told) → h.disk ≡ Some old →
        HasSamePayloads h root old.bytes new.bytes → Holds h root es →
        Holds (record h { disk = Some new }) root es }
{}

/// Bytes that have all of a space have it still, where both layers of the freemap stay, and the bytes
/// of all that its tree refers to: nothing else that is written to a disk touches it.
pub fn what_was_written_stays()
    ensures { (h : Heap) (root : ℕ) (old new : List ℕ) → IsTreeSpace (nodes h.pages.current) root →
        AreOfVolume h → IsWritten h root old → HasSameFreemap old new h.bigblocks →
        HasSameTree old new root → IsWritten h root new }
{}

/// Calls of a space, which leave its frame, leave both header slots of its disk as they were, settled
/// where they were, so that the header that counts is the same one.
pub fn what_calls_keep_of_the_slots()
    ensures header { (old new : Heap) (s t : Told) (header : Header) (slot : ℕ) →
        frame_of new ≡ frame_of old → old.disk ≡ Some s → new.disk ≡ Some t →
        HasHeader s.bytes header slot → HasHeader t.bytes header slot }
    ensures same_slots { (old new : Heap) (s t : Told) → frame_of new ≡ frame_of old →
        old.disk ≡ Some s → new.disk ≡ Some t → HaveSameSlots s t }
{}

/// The pages of a space lie within its volume, behind layer 1 of the freemap, and share no byte with
/// each other nor with the payload of an element: each may be written where it stands.
pub fn pages_of_a_space_are_apart()
    ensures pages { (h : Heap) (root : ℕ) → IsFirm (basis_now h root) → AreOfVolume h →
        IsSize h.bigblocks → (a b : ℕ) → IsSome (h.pages.current a) → IsSome (h.pages.current b) →
        a ≢ b → IsApart (to_node a) (to_node b) }
    ensures payloads { (h : Heap) (root : ℕ) → IsFirm (basis_now h root) → AreOfVolume h →
        IsSize h.bigblocks → (at : ℕ) (e : Element) → IsSome (h.pages.current at) →
        Contains (elements_in (basis_now h root)) e → IsApart (to_node at) (to_payload e) }
    ensures within { (h : Heap) (root : ℕ) → IsFirm (basis_now h root) → AreOfVolume h →
        IsSize h.bigblocks → (at : ℕ) → IsSome (h.pages.current at) →
        (start_of first_layer2 ≤ byte_of at) × (byte_of at + PAGE_BYTES ≤ start_of h.bigblocks) }
{}

/// What a space holds between two calls is a state by itself: the one that its header and its current
/// pages make, whatever was committed or frozen before. So it can be spoken of once the space has moved
/// on.
pub fn a_state_at_rest_is_held()
    ensures { (h : Heap) (t : Told) (root last : ℕ) (volume : Volume) (header : Header) →
        h.disk ≡ Some t → HoldsVolume h root last volume → IsHeaderOf h root last header →
        HoldsAtRest t header h.pages.current volume }
{}

/// Where a state by itself holds a volume, an image that recovers to its pages under its header, and has
/// all else of it, recovers to one that stands for the volume.
pub fn a_recovered_image_stands()
    ensures { (t : Told) (header : Header) (map : PageMap) (volume : Volume) (image : List ℕ) →
        HoldsAtRest t header map volume → AreOnlyOf header.bigblocks map →
        ((at : ℕ) (page : List ℕ) → map at ≡ Some page → AreBytes page) →
        HasBeside t header map image → RecoversToState header map image →
        (result : List ℕ) × RecoversTo image result × StandsFor result volume }
{}
