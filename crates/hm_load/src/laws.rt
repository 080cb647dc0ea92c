// What follows from the definitions alone: each function states one law, and does nothing.
ghost use Rattle.std.specs.Prelude.{◌≡◌, ℕ, List};
ghost use Rattle.hm_header.specs.declared.header.Header.{Header};
ghost use Rattle.hm_load.specs.Damage.{IsDamage, IsWhole};

/// The damage of a volume that comes first is one.
pub fn the_first_damage_is_one()
    ensures { (image : List ℕ) (header : Header) (at kind other_at other_kind : ℕ) →
        IsDamage image header at kind → IsDamage image header other_at other_kind →
        (at ≡ other_at) × (kind ≡ other_kind) }
{}

/// A volume without damage has none that comes first.
pub fn a_whole_volume_has_no_damage()
    ensures { (image : List ℕ) (header : Header) (at kind : ℕ) →
        IsWhole image header → IsDamage image header at kind → ⊥ }
{}
