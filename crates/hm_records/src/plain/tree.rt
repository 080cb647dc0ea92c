// The whole tree.
ghost use Rattle.std.specs.Prelude.{IfOk};
ghost use Rattle.hm_key.specs.Versions.{HaveOwnKeys};
ghost use Rattle.hm_records.specs.PlainView.{tree_of};
ghost use Rattle.hm_records.specs.View.{IsViewOf};

use crate::plain::element::FullElement;
use crate::plain::names::triples_of;
use crate::plain::objects::objects_of;
use hm_types::{Id, NoMemory, Object, Pfs, Triple};
use std::alloc::Global;

/// A whole tree.
#[derive(Debug, PartialEq, Drop)]
pub struct PlainTree {
    /// They rise by number.
    pub objects: Vec<Object>,
    /// They rise by directory, and then by the bytes of the name.
    pub triples: Vec<Triple>,
}

/// The tree that a list of elements shows of a pseudo file system as of an id. No two elements may
/// have one key. Slow: its work grows with the square of the number of elements, and with that
/// number for each byte of a file.
pub fn view_of(
    alloc: Global,
    elements: &[FullElement],
    pfs: Pfs,
    id: Id,
) -> Result<PlainTree, NoMemory>
    requires { HaveOwnKeys elements.now }
    ensures { IfOk result (λ tree. IsViewOf elements.now pfs.0 id.0
        (tree_of tree.objects.items tree.triples.items)) }
{
    Ok(PlainTree {
        objects: objects_of(alloc, elements, pfs, id.0)?,
        triples: triples_of(alloc, elements, pfs, id.0)?,
    })
}
