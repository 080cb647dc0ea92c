// What always holds of a store.
ghost use Rattle.std.specs.Prelude.{◌≡◌, ℕ, List, Some};
ghost use Rattle.hm_fields.specs.Fields.{AreBytes};
ghost use Rattle.hm_fields.specs.declared.states.State.{State};
ghost use Rattle.hm_pages.specs.Store.{contents, in_state};
ghost use Rattle.hm_pages.specs.Sound.{IsSound};

use crate::store::PageStore;

/// Does nothing, and says what always holds of a store.
pub fn store_is_sound(store: &PageStore)
    ensures { IsSound (contents store.now) }
{
    let _ = store;
}

/// Does nothing, and says what the type of a page tells: each byte of each page of a store is one.
pub fn pages_are_bytes(store: &PageStore)
    ensures { (state : State) (at : ℕ) (page : List ℕ) →
        in_state (contents store.now) state at ≡ Some page → AreBytes page }
{
    let _ = store;
}
