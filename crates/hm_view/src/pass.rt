// A pass over the names of a directory, from the greatest key of their entries down.
ghost use Rattle.std.specs.Prelude.{◌≡◌, ◌<◌, List, IfOk, IfSome};
ghost use Rattle.hm_types.specs.declared.object.Triple.{Triple};
ghost use Rattle.hm_key.specs.Counts.{Counts};
ghost use Rattle.hm_key.specs.Members.{InBalance, IsSame, KeepsFrame};
ghost use Rattle.hm_cursor.specs.Told.{ReadsWithCause, fulls};
ghost use Rattle.hm_view.specs.Pass.{ArePassed, Passes};
ghost use Rattle.hm_view.specs.Trees.{OnTrees};

use hm_cursor::previous_name;
use hm_key::{ElementStore, Extents, HasElements, HasRoom};
use hm_records::DirEntry;
use hm_types::{Counted, Fault, Id, Obj, Pfs};
use std::alloc::Global;

/// Above the key of each entry, which is a hash without its lowest bit, moved down by that bit.
pub(crate) const END_OF_KEYS: u64 = 0x8000_0000_0000_0000;

// The last name of a directory among the entries that lead with a key before `end`, and that key.
// None exactly where there is no such name.
pub(crate) fn name_before<T: ElementStore + Extents>(
    alloc: Global,
    store: &mut T,
    pfs: Pfs,
    directory: Obj,
    end: u64,
    as_of: Id,
) -> Result<Option<(u64, DirEntry)>, Fault>
    requires balanced { InBalance T.HasElements store.old }
    ensures falls { IfOk result (λ found. IfSome found (λ pair. pair.0 < end)) }
    ensures ok { IfOk result (λ found.
        OnTrees (T.elements store.old) (T.extents store.old) pfs.0 as_of.0 (λ lists tree.
        (passed : List Triple) →
        ArePassed (Counts (fulls lists) as_of.0) pfs.0 directory end passed →
        Passes (Counts (fulls lists) as_of.0) pfs.0 directory tree passed found)) }
    ensures keeps { IsSame T.HasElements store.old store.new }
    ensures borrowed { KeepsFrame T.Counted store.old store.new }
    ensures cause { ReadsWithCause T.HasElements store.old store.new result }
{
    if end == 0 {
        return Ok(None);
    }
    match previous_name(alloc, store, pfs, directory, 0, end - 1, as_of)? {
        // Over a store that tells no content a key may be any.
        Some((key, entry)) => Ok(Some((key.min(end - 1), entry))),
        None => Ok(None),
    }
}
