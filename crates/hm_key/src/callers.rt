// Callers that are proved from the contracts of the traits alone.
ghost use Rattle.std.specs.Prelude.{◌≡◌, ◌≤◌, IfSome, IsNone, IfOk, OnSome, Some};
ghost use Rattle.hm_key.specs.Key.{key_of};
ghost use Rattle.hm_key.specs.Element.{IsElement};
ghost use Rattle.hm_key.specs.Elements.{element_at};

use crate::base::Base;
use crate::element::Element;
use crate::extents::Extents;
use crate::store::ElementStore;
use hm_types::{Counted, Fault, INSERT_ROOM, META_ZONE, SpaceFault, TREE_ZONE, Zones};

/// Inserts an element, and finds it at its key.
pub fn insert_and_find<T: ElementStore + Extents>(
    store: &mut T,
    e: &Element,
) -> Result<Option<Element>, Fault>
    requires new { IfSome (T.elements store.old) (λ es.
        IsNone (element_at (key_of e.now.base) es)) }
    requires element { IsElement e.now }
    requires room { INSERT_ROOM ≤ T.room store.old TREE_ZONE }
    ensures found { IfOk result (λ found. OnSome (T.elements store.old) (found ≡ Some e.now)) }
    ensures extents { IfOk result (λ _. T.extents store.new ≡ T.extents store.old) }
    ensures name { T.name store.new ≡ T.name store.old }
    ensures frame { T.frame store.new ≡ T.frame store.old }
{
    store.insert(e)?;
    store.first_at_or_after(&e.base)
}

/// Goes through the elements from a key on: an open one gets a new payload, and one that was closed
/// by the id is taken out. Looks at `most` elements, and answers how many it changed.
pub fn renew_from<T: ElementStore + Extents>(
    store: &mut T,
    from: &Base,
    id: u64,
    most: u32,
) -> Result<u32, SpaceFault>
    ensures changed { IfOk result (λ changed. changed ≤ most) }
    ensures name { T.name store.new ≡ T.name store.old }
    ensures frame { T.frame store.new ≡ T.frame store.old }
{
    let mut at = *from;
    let mut changed = 0;
    for looked in 0..most {
        let Some(element) = store.first_at_or_after(&at)? else {
            return Ok(changed);
        };
        if element.base.delete == 0 {
            store.admit(Zones::META, 0)?;
            let to = store.place(META_ZONE, b"renewed")?;
            store.readdress(&element.base, to)?;
            changed += 1;
        } else if element.base.delete <= id {
            store.remove(&element.base)?;
            changed += 1;
        }
        at = Base {
            create: element.base.create.saturating_add(1),
            ..element.base
        };
    }
    Ok(changed)
}
