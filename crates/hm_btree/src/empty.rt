// A tree without elements.
ghost use Rattle.std.specs.Prelude.{◌≡◌, ◌≤◌, IfSome, IfOk, IfErr};
ghost use Rattle.hm_types.specs.Space.{in_zone};
ghost use Rattle.hm_btree.specs.Calls.Space.{HandsBack, StaysWithin};
ghost use Rattle.hm_btree.specs.Tree.{HasNoPage, HasNothing};

use crate::node_edit::add_node;
use crate::space::{NODE_BYTES, NodeSpace};
use crate::tree::BTree;
use arrayvec::ArrayVec;
use hm_node::{Leaf, Node};
use hm_types::{Counted, Fault, TREE_ZONE};

impl<S: NodeSpace> BTree<S> {
    /// The tree without elements, on a space that has no page where it tells its pages, and room for
    /// a node. It takes one node, the root. An error hands back the space.
    pub fn empty(space: S) -> Result<BTree<S>, (S, Fault)>
        requires pages { IfSome (S.pages space) HasNoPage }
        requires room { NODE_BYTES ≤ S.room space TREE_ZONE }
        ensures empty { IfOk result (λ tree. IfSome (S.pages space) (λ _.
            HasNothing tree.intact (S.pages tree.space) tree.root)) }
        ensures extents { IfOk result (λ tree. S.extents tree.space ≡ S.extents space) }
        ensures spent { IfOk result (λ tree.
            StaysWithin S.HasRoom (in_zone TREE_ZONE NODE_BYTES) space tree.space) }
        ensures back { IfErr result (λ e. HandsBack S.Pages space e.0 e.1) }
    {
        let mut space = space;
        let node = Node::Leaf(Leaf {
            mirror: 0,
            places: ArrayVec::new(),
        });
        match add_node(&mut space, &node) {
            Ok(root) => Ok(BTree::over(space, root)),
            Err(fault) => Err((space, fault)),
        }
    }
}
