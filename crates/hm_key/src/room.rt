// What every store and every space of nodes tells of its space.
ghost use Rattle.std.specs.Prelude.{ℕ, List, Option};
ghost use Rattle.hm_key.specs.Extents.{Extent};

use hm_types::Counted;

/// What has room for nodes and payloads, in big-blocks.
pub trait HasRoom: Counted {
    /// How many bytes the append big-block of a zone has left, by the zone's number.
    ghost room: { Self → ℕ → ℕ };

    /// How many big-blocks are free.
    ghost free: { Self → ℕ };

    /// The live extents of the zones 9, 10 and 11, in the order of their places, where it tells
    /// them.
    ghost extents: { Self → Option (List Extent) };
}

impl<T: HasRoom> HasRoom for &mut T {
    ghost room = { λ t. T.room t.now };

    ghost free = { λ t. T.free t.now };

    ghost extents = { λ t. T.extents t.now };
}
