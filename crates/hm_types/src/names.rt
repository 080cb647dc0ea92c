// The entries of a directory's listing.

use crate::name::Name;
use std::alloc::AllocError;
use std::marker::Model;

/// The entries of a directory, each with the kind of its object and its name. A contract sees the
/// list of these pairs.
#[derive(Debug, Drop)]
pub struct Names {
    names: Vec<(u8, Name)>,
}

impl Model for Names {
    ghost use Rattle.std.specs.Prelude.{ℕ, List};

    ghost Value = { List (ℕ × List ℕ) };

    ghost view = { λ n. n.names.items };
}

impl Names {
    ghost use Rattle.std.specs.Prelude.{◌≡◌};

    /// Takes no memory, as `list` does not.
    pub fn of(list: Vec<(u8, Name)>) -> Names
        ensures { result ≡ list.items }
    {
        Names { names: list }
    }

    pub fn list(&self) -> &[(u8, Name)]
        ensures { result.now ≡ self.now }
    {
        &self.names
    }
}

impl Clone for Names {
    ghost use Rattle.std.specs.Prelude.{◌≡◌};

    ghost is_clone = { λ names copy. copy ≡ names };

    fn clone(&self) -> Result<Names, AllocError> {
        Ok(Names::of(self.names.clone()?))
    }
}

impl PartialEq for Names {
    ghost use Rattle.std.specs.Prelude.{nat_eq};
    ghost use Rattle.std.specs.Str.{bytes_eq};
    ghost use Rattle.std.specs.Ordering.{on, eq_of_both};
    ghost use Rattle.std.specs.Cmp.{partial_equiv_from_equiv, on_equiv, and_equiv, nat_eq_equiv};
    ghost use Rattle.std.specs.Cmp.Lexicographic.{pointwise, lists_equiv};
    ghost use Rattle.std.proofs.lemmas.Cmp.{nat_list_eq_equiv};
    ghost use Rattle.hm_types.specs.Listing.{kind_of, name_of};

    ghost eq = { pointwise (eq_of_both (on kind_of nat_eq) (on name_of bytes_eq)) };

    ghost laws = { let kinds = on_equiv kind_of nat_eq_equiv in
        let names = on_equiv name_of nat_list_eq_equiv in
        partial_equiv_from_equiv (lists_equiv (and_equiv kinds names)) };

    fn eq(&self, other: &Names) -> bool {
        self.names.as_slice() == other.names.as_slice()
    }
}
