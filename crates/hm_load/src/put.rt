// Pages that come into a store.
ghost use Rattle.std.specs.Prelude.{◌≡◌, None, OnOk};
ghost use Rattle.hm_pages.specs.Store.{contents};
ghost use Rattle.hm_load.specs.Loaded.{IsPlain, Puts};

use hm_fields::Page;
use hm_pages::PageStore;
use hm_types::{HOff, NoMemory};

/// Puts a page that was read into all three maps of a store that has none there.
pub(crate) fn put(store: &mut PageStore, at: HOff, page: &Page) -> Result<(), NoMemory>
    requires plain { IsPlain (contents store.old) }
    requires free { (contents store.old).current at ≡ None }
    ensures { OnOk result (Puts at page.now (contents store.old) (contents store.new)) }
{
    store.load(at, page)
}
