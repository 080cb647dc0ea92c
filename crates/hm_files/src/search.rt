// Which of the bytes of a file that count in a block show.
ghost use Rattle.std.specs.Prelude.{◌≤◌, ◌+◌, IfSome, IfOk};
ghost use Rattle.hm_key.specs.Key.{key_of};
ghost use Rattle.hm_key.specs.Members.{HasElementsCause, IsSame, KeepsFrame};
ghost use Rattle.hm_cursor.specs.Version.{IsFoundIn};
ghost use Rattle.hm_files.specs.Nearest.{FindsNearest};

use hm_cursor::{first_version, last_version};
use hm_key::{Base, Element, ElementStore};
use hm_types::{Counted, Fault, Id};

/// Of the elements that count as of an id among those about the object and of the type of `at` with
/// a key from its own to `last`, the last one up to `near`, and where none counts up to there the
/// first one past it. Where one stands at `near` that takes one search. Else it takes one for each
/// key from there down to the one that is found, and where none is, for each above it up to that.
pub(crate) fn nearest_version<T: ElementStore>(
    store: &mut T,
    at: &Base,
    near: u64,
    last: u64,
    as_of: Id,
) -> Result<Option<Element>, Fault>
    requires { (at.now.key ≤ near + 1) × (near ≤ last) }
    ensures ok { IfSome (T.elements store.old) (λ es.
        IfOk result (FindsNearest es (key_of at.now) near last as_of.0)) }
    ensures found { IfOk result (λ found.
        IfSome found (IsFoundIn (key_of at.now) last as_of.0)) }
    ensures keeps { IsSame T.HasElements store.old store.new }
    ensures borrowed { KeepsFrame T.Counted store.old store.new }
    ensures cause { HasElementsCause T.HasElements store.old store.new result }
{
    let to = Base { key: near, ..*at };
    if let Some(found) = last_version(store, &to, at.key, as_of)? {
        return Ok(Some(found));
    }
    if near == last {
        return Ok(None);
    }
    let above = Base {
        key: near + 1,
        ..*at
    };
    first_version(store, &above, last, as_of)
}
