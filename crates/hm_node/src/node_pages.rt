// Pages that are nodes wherever a node may stand.
ghost use Rattle.std.specs.Prelude.{◌≡◌, ℕ, List, Some, IfSome};
ghost use Rattle.hm_node.specs.Inner.{IsNodeOffset};
ghost use Rattle.hm_node.specs.Shape.{HoldsNode};

use hm_fields::{Page, Pages};
use hm_types::HOff;

/// Pages of which each that is read where a node may stand holds one, and each that holds one may be
/// put there: what `kept` says of such a page is the shape of a node. A space in memory keeps it from
/// call to call; one over a device checks a page once, as it comes in (`broken_rule`), and not at
/// each read.
pub trait NodePages: Pages {
    /// The page at `at` where it stands in memory, to be looked at without a copy of it. None where
    /// it has to be read, and where a node may stand and none does.
    fn look(&self, at: HOff) -> Option<&Page>
        ensures told { IfSome result (λ page. IfSome (Self.pages self.now) (λ map.
            IsNodeOffset at → map at ≡ Some page.now)) }
        ensures kept { IfSome result (λ page. Self.kept at page.now) };

    /// What is known of a page there is that it holds a node.
    ghost kept_is_node: { (at : ℕ) (bytes : List ℕ) → IsNodeOffset at →
        Self.Pages.kept at bytes → HoldsNode bytes };

    /// A page that holds a node may be put there.
    ghost node_is_kept: { (at : ℕ) (bytes : List ℕ) → IsNodeOffset at →
        HoldsNode bytes → Self.Pages.kept at bytes };
}

impl<P: NodePages> NodePages for &mut P {
    ghost kept_is_node = { P.NodePages.kept_is_node };

    ghost node_is_kept = { P.NodePages.node_is_kept };

    fn look(&self, at: HOff) -> Option<&Page> {
        (**self).look(at)
    }
}
