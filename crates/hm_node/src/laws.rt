// What follows from the definitions alone: each function states one law, and does nothing.
ghost use Rattle.std.specs.Prelude.{◌≡◌, ℕ, List, length};
ghost use Rattle.hm_types.specs.declared.limits.TheConstants.{PAGE_BYTES};
ghost use Rattle.hm_fields.specs.Fields.{AreBytes};
ghost use Rattle.hm_node.specs.Node.{node_in, IsNode, Spells};
ghost use Rattle.hm_node.specs.Damage.{Keeps, IsLowestKind};
ghost use Rattle.hm_node.specs.Shape.{HoldsNode};
ghost use Rattle.hm_node.specs.declared.node.Node.{Node};
ghost use Rattle.hm_node.specs.declared.rule.Rule.{Rule};

/// A page spells one node at most.
pub fn page_spells_one_node()
    ensures { (page : List ℕ) (a b : Node) → Spells page a → Spells page b → a ≡ b }
{}

/// A node is spelled by one page at most. So what is encoded from a node that was decoded is the page
/// that it was decoded from.
pub fn node_has_one_page()
    ensures { (p q : List ℕ) (node : Node) → AreBytes p → AreBytes q →
        Spells p node → Spells q node → p ≡ q }
{}

/// A page that spells a node that keeps the rules breaks none of them. So a node that keeps them is
/// decoded from the page into which it was encoded.
pub fn spelled_node_is_sound()
    ensures { (page : List ℕ) (node : Node) → IsNode node → Spells page node →
        (rule : Rule) → Keeps page rule }
{}

/// A page that breaks no rule spells the node in it, which keeps the rules.
pub fn sound_page_spells_its_node()
    ensures node { (page : List ℕ) → ((rule : Rule) → Keeps page rule) → IsNode (node_in page) }
    ensures page { (page : List ℕ) → length page ≡ PAGE_BYTES →
        ((rule : Rule) → Keeps page rule) → Spells page (node_in page) }
{}

/// A page that spells a node that keeps the rules has the shape of a node, which is what a search needs
/// to be safe.
pub fn sound_page_holds_its_node()
    ensures { (page : List ℕ) (node : Node) → IsNode node → Spells page node → HoldsNode page }
{}

/// The number of the first broken rule is one at most.
pub fn one_kind_is_the_lowest()
    ensures { (page : List ℕ) (a b : ℕ) → IsLowestKind page a → IsLowestKind page b → a ≡ b }
{}
