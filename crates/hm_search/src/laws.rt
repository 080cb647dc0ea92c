// What follows from the definitions alone: each function states one law, and does nothing.
ghost use Rattle.std.specs.Prelude.{◌≡◌, ◌≢◌, ◌≤◌, ℕ, None, All, length, false};
ghost use Rattle.hm_types.specs.Elements.{Key};
ghost use Rattle.hm_fields.specs.Pages.{PageMap};
ghost use Rattle.hm_key.specs.Elements.{IsContent, element_key};
ghost use Rattle.hm_key.specs.Marks.{IsMarked};
ghost use Rattle.hm_node.specs.Node.{level_of};
ghost use Rattle.hm_node.specs.declared.node.Node.{Node};
ghost use Rattle.hm_search.specs.Place.{IsInside, mirror_of};
ghost use Rattle.hm_search.specs.Reach.{IsSameBelow};
ghost use Rattle.hm_search.specs.Tree.{node_at, elements_in, mark_in, reaches, Reaches, IsTree};
ghost use Rattle.hm_search.specs.declared.subtree.Subtree.{Subtree};

/// The elements of a sound tree are in order, and each may stand in a leaf. They lie inside the
/// boundaries of the tree, and below the root there is one.
pub fn elements_are_in_order()
    ensures content { (map : PageMap) (height : ℕ) (s : Subtree) (node : Node) →
        IsTree map height s node → IsContent (elements_in map height node) }
    ensures inside { (map : PageMap) (height : ℕ) (s : Subtree) (node : Node) →
        IsTree map height s node →
        All (λ e. IsInside s.left s.right (element_key e)) (elements_in map height node) }
    ensures some { (map : PageMap) (height : ℕ) (s : Subtree) (node : Node) → s.parent ≢ None →
        IsTree map height s node → 1 ≤ length (elements_in map height node) }
{}

/// No mark below a node of a sound tree is above its `mirror`, and the mark at the key of each
/// element is at least the element's two ids.
pub fn marks_are_between_ids_and_mirror()
    ensures most { (map : PageMap) (key : Key) (height : ℕ) (s : Subtree) (node : Node) →
        IsTree map height s node → mark_in map height node key ≤ mirror_of node }
    ensures least { (map : PageMap) (height : ℕ) (s : Subtree) (node : Node) →
        IsTree map height s node →
        All (IsMarked (mark_in map height node)) (elements_in map height node) }
{}

/// A sound tree has nine levels at most. Each node that is reached is at a lower level than the one
/// from which it is, so no node is below itself.
pub fn nodes_below_are_lower()
    ensures height { (map : PageMap) (height : ℕ) (s : Subtree) (node : Node) →
        IsTree map height s node → height ≤ 8 }
    ensures level { (map : PageMap) (height : ℕ) (s : Subtree) (node : Node) (x : ℕ) →
        IsTree map height s node → Reaches map height node x → level_of (node_at map x) ≤ height }
    ensures itself { (map : PageMap) (height : ℕ) (s : Subtree) (node : Node) (at : ℕ) →
        IsTree map height s node → node_at map at ≡ node → reaches map height node at ≡ false }
{}

/// Maps that agree on all that a node reaches have the same tree below it: the same elements and
/// marks, the same offsets, and it is sound in both or in neither.
pub fn what_is_not_reached_does_not_matter()
    ensures elements { (old new : PageMap) (height : ℕ) (node : Node) →
        IsSameBelow old new height node →
        elements_in new height node ≡ elements_in old height node }
    ensures mark { (old new : PageMap) (key : Key) (height : ℕ) (node : Node) →
        IsSameBelow old new height node →
        mark_in new height node key ≡ mark_in old height node key }
    ensures reached { (old new : PageMap) (x height : ℕ) (node : Node) →
        IsSameBelow old new height node → reaches new height node x ≡ reaches old height node x }
    ensures sound { (old new : PageMap) (height : ℕ) (s : Subtree) (node : Node) →
        IsSameBelow old new height node → IsTree old height s node → IsTree new height s node }
{}
