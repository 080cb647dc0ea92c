// The tree.
ghost use Rattle.hm_types.specs.Offset.{IsOffset};
ghost use Rattle.hm_btree.specs.Tree.{IsIntact};

use crate::space::NodeSpace;
use hm_key::{HasElements, HasRoom};
use hm_node::is_node_offset;
use hm_types::{Counted, Fault, HOff};

/// The B-tree of the elements, over a space of nodes. Once a call has failed in the middle of a
/// change, each call answers `NoMemory`, since the space may hold half of that change.
///
/// A call also answers `NoMemory` where no node may stand at the root: such a root can be handed in only
/// where the space does not tell its pages.
#[derive(Drop)]
pub struct BTree<S: NodeSpace> {
    pub(crate) space: S,
    pub(crate) root: HOff,
    // Whether no call has failed in the middle of a change.
    pub(crate) intact: bool,
    // The leaf to which the last search for a first element came. A walk looks there first, and so does a
    // removal. Nothing rests on it: another node may stand there by now, or none.
    pub(crate) near: HOff,
    ghost sound: { ∥ IsIntact intact (S.pages space) root ∥₁ },
}

impl<S: NodeSpace> Counted for BTree<S> {
    ghost faults = { λ t. S.faults t.space };

    ghost name = { λ t. S.name t.space };

    ghost Frame = { S.Frame };

    ghost frame = { λ t. S.frame t.space };
}

impl<S: NodeSpace> HasRoom for BTree<S> {
    ghost room = { λ t. S.room t.space };

    ghost free = { λ t. S.free t.space };

    ghost extents = { λ t. S.extents t.space };
}

impl<S: NodeSpace> HasElements for BTree<S> {
    ghost use Rattle.hm_btree.specs.Tree.{told_elements, told_mark};

    ghost elements = { λ t. told_elements t.intact (S.pages t.space) t.root };

    ghost mark = { λ t. told_mark (S.pages t.space) t.root };
}

impl<S: NodeSpace> BTree<S> {
    ghost use Rattle.std.specs.Prelude.{◌≡◌, IsOk, IsTrue, IfSome, OnOk, IfErr};
    ghost use Rattle.hm_types.specs.declared.fault.Fault.TheVariants.{NoMemory};
    ghost use Rattle.hm_node.specs.Inner.{IsNodeOffset};
    ghost use Rattle.hm_btree.specs.Tree.{HoldsTree, IsTreeSpace};

    /// The tree from a root on. Where the space tells its pages, they must be that tree.
    pub fn over(space: S, root: HOff) -> BTree<S>
        requires { HoldsTree (S.pages space) root }
        ensures space { result.space ≡ space }
        ensures root { result.root ≡ root }
        ensures intact { IsTrue result.intact }
    {
        BTree::over_near(space, root, HOff::default())
    }

    /// The same, and the leaf at which a walk looks first: the one that `near` of an earlier tree over
    /// these pages gave. Any other place only costs a look.
    pub fn over_near(space: S, root: HOff, near: HOff) -> BTree<S>
        requires { HoldsTree (S.pages space) root }
        ensures space { result.space ≡ space }
        ensures root { result.root ≡ root }
        ensures intact { IsTrue result.intact }
    {
        BTree {
            space,
            root,
            intact: true,
            near,
        }
    }

    /// The leaf to which the last search for a first element came, as a walk goes on from there.
    pub fn near(&self) -> HOff {
        self.near
    }

    /// The space.
    pub fn space(&self) -> &S
        ensures { result.now ≡ self.now.space }
    {
        &self.space
    }

    /// Where the root stands.
    pub fn root(&self) -> HOff
        ensures { result ≡ self.now.root }
    {
        self.root
    }

    /// The space and the root. Where no call has failed, and the space tells its pages, they are
    /// the tree.
    pub fn into_parts(self) -> (S, HOff)
        ensures space { result.0 ≡ self.space }
        ensures root { result.1 ≡ self.root }
        ensures tree { IsTrue self.intact → HoldsTree (S.pages result.0) result.1 }
    {
        let BTree {
            space,
            root,
            intact: _,
            near: _,
        } = self;
        (space, root)
    }

    /// Answers `NoMemory` where a call has failed in the middle of a change.
    pub(crate) fn require_intact(&self) -> Result<(), Fault>
        ensures ok { OnOk result (IsTrue self.now.intact) }
        ensures err { IfErr result (λ fault. fault ≡ NoMemory) }
    {
        if self.intact {
            Ok(())
        } else {
            Err(Fault::NoMemory)
        }
    }

    /// Answers `NoMemory` where no node may stand at the root. The root of a sound tree that is told
    /// always stands where one may.
    pub(crate) fn require_root(&self) -> Result<(), Fault>
        ensures ok { OnOk result (IsNodeOffset self.now.root) }
        ensures err { IfErr result (λ fault. fault ≡ NoMemory) }
        ensures sound { IfSome (S.pages self.now.space) (λ pages.
            IsTreeSpace pages self.now.root → IsOk result) }
    {
        if is_node_offset(self.root) {
            Ok(())
        } else {
            Err(Fault::NoMemory)
        }
    }
}

/// Does nothing, and says what the type of an offset tells of it.
#[inline]
pub(crate) fn known_offset(at: HOff)
    ensures { IsOffset at }
{}
