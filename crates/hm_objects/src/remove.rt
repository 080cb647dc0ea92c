// Objects that go.
ghost use Rattle.std.specs.Prelude.{◌≡◌, OnOk};
ghost use Rattle.hm_types.specs.Space.{nothing};
ghost use Rattle.hm_types.specs.Tree.{without_object};
ghost use Rattle.hm_key.specs.Members.{HasContentCause, InBalance, KeepsFrame, KeepsTold, SpendsAtMost};
ghost use Rattle.hm_cursor.specs.Write.{WritesStore};
ghost use Rattle.hm_objects.specs.Objects.{ChangesBy, IsGone, IsOlderIn};

use hm_cursor::{close_versions, inode_base, target_base};
use hm_key::{ElementStore, Extents, HasElements, HasRoom};
use hm_types::{Counted, Fault, Id, Obj, Pfs};

/// Lets an object be gone from an id on: each open version of its inode and of its target is
/// closed. The names that lead to it stay. The faults are those of the store; after one nothing is
/// known of the content.
pub fn remove_object<T: ElementStore + Extents>(
    store: &mut T,
    pfs: Pfs,
    obj: Obj,
    id: Id,
) -> Result<(), Fault>
    requires balanced { InBalance T.HasElements store.old }
    requires older { IsOlderIn (T.elements store.old) (T.extents store.old) pfs.0 obj.0 id.0 }
    ensures ok { OnOk result (WritesStore T.HasElements (ChangesBy pfs.0 obj.0 id.0
        (λ tree. without_object tree obj)) store.old store.new) }
    ensures gone { OnOk result (WritesStore T.HasElements (λ _ es.
        IsGone pfs.0 obj.0 id.0 es) store.old store.new) }
    ensures keeps { KeepsTold T.HasElements store.old store.new result }
    ensures space { SpendsAtMost T.HasElements nothing store.old store.new }
    ensures borrowed { KeepsFrame T.Counted store.old store.new }
    ensures cause { HasContentCause T.HasElements store.old store.new result }
{
    close_versions(store, &target_base(pfs, obj), id)?;
    close_versions(store, &inode_base(pfs, obj), id)
}
