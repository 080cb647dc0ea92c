// How often a tree refers to what it refers to.
ghost use Rattle.std.specs.Prelude.{◌≡◌, ℕ, ◌+◌, List, count_by, is_some};
ghost use Rattle.hm_fields.specs.Pages.{PageMap};
ghost use Rattle.hm_freemap.specs.Extents.{is_extent, reference};
ghost use Rattle.hm_key.specs.Balance.{IsBalanced};
ghost use Rattle.hm_key.specs.Extents.{Extent, extent_at};
ghost use Rattle.hm_key.specs.declared.element.Element.{Element};
ghost use Rattle.hm_search.specs.Tree.{IsSoundTree, IsWhole, elements_of};
ghost use Rattle.hm_image.specs.Image.{references_from};
ghost use Rattle.hm_image.specs.Referred.{begins_at, is_node, is_node_extent, nodes_of, one_if, references_of, takes_extent};

/// A sound tree refers to each of its nodes once. So where no page stands beside the tree, it
/// refers once to each page that there is, and to no other.
pub fn nodes_are_referred_to_once()
    ensures nodes { (pages : PageMap) (root at : ℕ) → IsSoundTree pages root →
        count_by (begins_at at) (nodes_of pages root) ≡ one_if (is_node pages root at) }
    ensures pages { (pages : PageMap) (root at : ℕ) → IsSoundTree pages root →
        IsWhole pages root →
        count_by (begins_at at) (nodes_of pages root) ≡ one_if (is_some (pages at)) }
{}

/// A sound tree refers to an extent once by a node that takes it, and once by each element whose
/// payload does.
pub fn extents_are_referred_to_by_nodes_and_elements()
    ensures { (at len : ℕ) (pages : PageMap) (root : ℕ) → IsSoundTree pages root →
        count_by (is_extent (reference at len)) (references_from pages root) ≡
        one_if (is_node_extent pages root at len)
        + count_by (takes_extent at len) (elements_of pages root) }
{}

/// As many elements of a balanced store refer to an extent as the one that stands there says, if it
/// is as long, and else none.
pub fn elements_refer_as_extents_say()
    ensures { (at len : ℕ) (xs : List Extent) (es : List Element) → IsBalanced es xs →
        count_by (takes_extent at len) es ≡ references_of len (extent_at at xs) }
{}
