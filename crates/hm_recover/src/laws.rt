// What follows from the definitions alone: each function states one law, and does nothing.
ghost use Rattle.std.specs.Prelude.{◌≡◌, ℕ, List};
ghost use Rattle.hm_header.specs.OnDisk.{HasFault, HasHeader};
ghost use Rattle.hm_header.specs.declared.fault.HeaderFault.{HeaderFault};
ghost use Rattle.hm_header.specs.declared.header.Header.{Header};
ghost use Rattle.hm_undo.specs.Recovered.{RecoversTo};
ghost use Rattle.hm_recover.specs.Damage.{HasRangeDamage};

/// An image that recovers has no damaged range. So recovery tells damage of none that recovers.
pub fn an_image_that_recovers_has_no_damage()
    ensures { (image result : List ℕ) (at kind : ℕ) → RecoversTo image result →
        HasRangeDamage image at kind → ⊥ }
{}

/// An image that recovers has a header.
pub fn an_image_that_recovers_has_no_fault()
    ensures { (image result : List ℕ) (fault : HeaderFault) → RecoversTo image result →
        HasFault image fault → ⊥ }
{}

/// An image has one damage of its range at most. So which one is told is settled by the image.
pub fn the_damage_of_a_range_is_one()
    ensures { (image : List ℕ) (at kind other_at other_kind : ℕ) →
        HasRangeDamage image at kind → HasRangeDamage image other_at other_kind →
        (at ≡ other_at) × (kind ≡ other_kind) }
{}

/// An image keeps its boundary as it is recovered: the header that counts has the same last id afterwards.
pub fn recovery_keeps_the_boundary()
    ensures { (image result : List ℕ) (header recovered : Header) (slot other : ℕ) →
        RecoversTo image result → HasHeader image header slot → HasHeader result recovered other →
        recovered.last ≡ header.last }
{}
