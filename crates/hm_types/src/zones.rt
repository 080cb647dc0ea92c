// The zones that a call may need a new big-block in.
ghost use Rattle.std.specs.Prelude.{⊤, [], ◌∷◌, codes};
ghost use Rattle.hm_types.specs.Zones.{bits_of};

use bitflags::{Flag, Flags, bitflag_items};

/// A set of the zones whose space is handed out. A contract sees its bits by `bits_of`.
///
/// `union` joins two sets, and `contains` tells whether one holds all of another. No clause speaks
/// of the operators `|`, `&`, `^`, `-` and `!`.
#[derive(Clone, Copy, Debug, PartialEq, Eq)]
pub struct Zones(u8);

bitflag_items! {
    impl Zones: u8 {
        /// The nodes of the B-tree, in zone 8.
        const TREE = 1;
        /// Inodes, names and all other records, in zone 9.
        const META = 2;
        /// File extents of 16,384 bytes or more, in zone 10.
        const LARGE = 4;
        /// Shorter file extents, in zone 11.
        const SMALL = 8;
    }
}

impl Flags for Zones {
    type Bits = u8;

    ghost exact = { ⊤ };

    ghost table = { (codes "TREE", 1) ∷ (codes "META", 2) ∷
        (codes "LARGE", 4) ∷ (codes "SMALL", 8) ∷ [] };

    ghost set_of = { bits_of };

    fn flags<'a>() -> &'a [Flag<Zones>] {
        Zones::FLAGS
    }

    fn bits(&self) -> u8 {
        self.0
    }

    fn from_bits_retain(bits: u8) -> Zones {
        Zones(bits)
    }
}
