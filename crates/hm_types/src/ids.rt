// Transaction ids, as a call hands them over together.

use crate::id::Id;
use std::alloc::AllocError;
use std::marker::Model;

/// Some transaction ids. A contract sees the list of them.
#[derive(Debug, Drop)]
pub struct Ids {
    ids: Vec<Id>,
}

impl Model for Ids {
    ghost use Rattle.std.specs.Prelude.{List};
    ghost use Rattle.hm_types.specs.declared.id.Id.{Id};

    ghost Value = { List Id };

    ghost view = { λ i. i.ids.items };
}

impl Ids {
    ghost use Rattle.std.specs.Prelude.{◌≡◌};

    /// Takes no memory, as `list` does not.
    pub fn of(list: Vec<Id>) -> Ids
        ensures { result ≡ list.items }
    {
        Ids { ids: list }
    }

    pub fn list(&self) -> &[Id]
        ensures { result.now ≡ self.now }
    {
        &self.ids
    }
}

impl Clone for Ids {
    ghost use Rattle.std.specs.Prelude.{◌≡◌};

    ghost is_clone = { λ ids copy. copy ≡ ids };

    fn clone(&self) -> Result<Ids, AllocError> {
        Ok(Ids::of(self.ids.clone()?))
    }
}

impl PartialEq for Ids {
    ghost use Rattle.std.specs.Prelude.{nat_eq};
    ghost use Rattle.std.specs.Ordering.{on};
    ghost use Rattle.std.specs.Cmp.{partial_equiv_from_equiv, on_equiv, nat_eq_equiv};
    ghost use Rattle.std.specs.Cmp.Lexicographic.{pointwise, lists_equiv};
    ghost use Rattle.hm_types.specs.declared.id.Id.{Id};

    ghost eq = { pointwise (on (λ (id : Id). id.0) nat_eq) };

    ghost laws = { let each = on_equiv (λ (id : Id). id.0) nat_eq_equiv in
        partial_equiv_from_equiv (lists_equiv each) };

    fn eq(&self, other: &Ids) -> bool {
        self.ids.as_slice() == other.ids.as_slice()
    }
}
