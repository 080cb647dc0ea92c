// Where a name leads.
ghost use Rattle.std.specs.Prelude.{◌≡◌, IfOk};
ghost use Rattle.hm_cursor.specs.Told.{ReadsWithCause};
ghost use Rattle.hm_dirs.specs.Names.{IsLookedUp, OnNamed};
ghost use Rattle.hm_key.specs.Members.{InBalance, IsSame, KeepsFrame};

use crate::hash::{NameHash, keys_of};
use hm_cursor::find_name;
use hm_key::{ElementStore, Extents, HasElements, HasRoom};
use hm_types::{Counted, Fault, Id, Obj, Pfs};

/// The key of a directory's entry of a name as of an id, and the object that it leads to. None
/// exactly where the directory has no such entry. Of several entries of one name the first in the
/// order of keys leads. It reads the entries under the keys of the name's hash, and no others: one
/// search where there is one, with collision number 0. It takes no memory of its own.
///
/// `Damaged` at the payload of one of these entries, of kind 6, where that spells none. The other
/// faults are those of the store.
pub fn look_up<T: ElementStore + Extents, H: NameHash>(
    store: &mut T,
    hash: &H,
    pfs: Pfs,
    directory: Obj,
    name: &[u8],
    as_of: Id,
) -> Result<Option<(u64, Obj)>, Fault>
    requires balanced { InBalance T.HasElements store.old }
    ensures ok { IfOk result (λ found. OnNamed (H.hash_of hash.now)
        (T.elements store.old) (T.extents store.old)
        (IsLookedUp as_of.0 pfs.0 directory name.now found)) }
    ensures keeps { IsSame T.HasElements store.old store.new }
    ensures borrowed { KeepsFrame T.Counted store.old store.new }
    ensures cause { ReadsWithCause T.HasElements store.old store.new result }
{
    let (first, last) = keys_of(hash.hash(name));
    find_name(store, pfs, directory, first, last, name, as_of)
}
