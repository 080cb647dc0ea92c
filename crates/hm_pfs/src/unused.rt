// The numbers of pseudo file systems that are unused.
ghost use Rattle.std.specs.Prelude.{◌≡◌, IfOk, IfSome};
ghost use Rattle.hm_key.specs.Balance.{content_of};
ghost use Rattle.hm_key.specs.Members.{HasElementsCause, IsSame, KeepsFrame};
ghost use Rattle.hm_cursor.specs.Told.{fulls};
ghost use Rattle.hm_pfs.specs.Records.{IsLeastUnused};

use hm_cursor::{record_base, version_at};
use hm_key::{ElementStore, Extents, HasElements, HasRoom};
use hm_types::{Counted, Fault, Id, Pfs};

/// How many numbers of pseudo file systems there are.
const PFS_NUMBERS: u32 = 65_536;

/// The least number from one on that no pseudo file system has. None exactly where all from it to
/// 65,535 have a record. It looks at each number in turn, with the searches of `version_at`, and
/// takes no memory of its own. The faults are those of the store.
pub fn unused_from<T: ElementStore + Extents>(
    store: &mut T,
    from: u32,
) -> Result<Option<Pfs>, Fault>
    ensures ok { IfSome (content_of (T.elements store.old) (T.extents store.old)) (λ lists.
        IfOk result (IsLeastUnused (fulls lists) from)) }
    ensures keeps { IsSame T.HasElements store.old store.new }
    ensures borrowed { KeepsFrame T.Counted store.old store.new }
    ensures cause { HasElementsCause T.HasElements store.old store.new result }
{
    let mut number = from;
    while number < PFS_NUMBERS {
        let pfs = Pfs(number as u16);
        let record = version_at(store, &record_base(pfs), Id(u64::MAX))?;
        if record.is_none() {
            return Ok(Some(pfs));
        }
        number += 1;
    }
    Ok(None)
}
