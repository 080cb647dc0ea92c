// Where something stands in a volume: a zone and a byte.
ghost use Rattle.std.specs.Prelude.{◌≡◌, ◌↔◌, ◌<◌, ◌^◌, IsSome, IfSome, IsTrue};
ghost use Rattle.hm_types.specs.Offset.{zone_of, byte_of, raw_of, IsZone, IsOffset};

use std::marker::Model;

// The lowest bit of the zone in a raw offset, and the lowest one of the volume.
const ZONE_SHIFT: u32 = 60;

const VOLUME_SHIFT: u32 = 52;

/// Where something stands in a volume: a zone, and a byte counted from the start of the volume, in
/// every zone. A contract sees the raw offset, and offsets are in its order.
///
/// As in HAMMER, a raw offset has 64 bits: the zone in bits 60 to 63, the volume in bits 52 to 59,
/// which is always 0 here, and the byte in bits 0 to 51. These zones have a name:
///
/// | Zone | Number | Zone | Number |
/// |---|---|---|---|
/// | volume | 1 | meta | 9 |
/// | raw buffer | 2 | large data | 10 |
/// | UNDO | 3 | small data | 11 |
/// | freemap | 4 | unavailable | 15 |
/// | B-tree | 8 | | |
#[derive(Clone, Copy, Debug, PartialEq, Eq, PartialOrd, Ord, Hash)]
pub struct HOff {
    raw: u64,
}

impl Model for HOff {
    ghost use Rattle.std.specs.Prelude.{ℕ};
    ghost use Rattle.hm_types.specs.Offset.{IsOffset};

    ghost Value = { ℕ };

    ghost view = { λ at. at.raw };

    ghost invariant = { λ at. IsOffset at.raw };

    ghost inverse = { λ n. record { raw = n } };
}

impl Default for HOff {
    ghost use Rattle.std.specs.Prelude.{◌≡◌};
    ghost use Rattle.hm_types.specs.Offset.{volume_start};

    ghost is_default = { λ at. at ≡ volume_start };

    /// The first byte of the volume. It fills places that are not in use.
    fn default() -> HOff {
        HOff {
            raw: 1 << ZONE_SHIFT,
        }
    }
}

impl HOff {
    /// The offset of a byte in a zone. None for a byte of 2^52 or above, and for a zone that has no
    /// name.
    pub fn make(zone: u8, byte: u64) -> Option<HOff>
        ensures some { IsSome result ↔ (IsZone zone × (byte < 2 ^ 52)) }
        ensures value { IfSome result (λ at. at ≡ raw_of zone byte) }
        ensures parts { IfSome result (λ at. (zone_of at ≡ zone) × (byte_of at ≡ byte)) }
    {
        if is_zone(zone) && byte < 1 << VOLUME_SHIFT {
            Some(HOff {
                raw: (u64::from(zone) << ZONE_SHIFT) + byte,
            })
        } else {
            None
        }
    }

    /// The offset with these 64 bits. None where the zone has no name, and where the volume is not 0.
    pub fn from_raw(raw: u64) -> Option<HOff>
        ensures some { IsSome result ↔ IsOffset raw }
        ensures value { IfSome result (λ at. at ≡ raw) }
    {
        if is_zone((raw >> ZONE_SHIFT) as u8) && (raw >> VOLUME_SHIFT) % 256 == 0 {
            Some(HOff { raw })
        } else {
            None
        }
    }

    /// The number of the zone, one of those that have a name.
    pub fn zone(self) -> u8
        ensures value { result ≡ zone_of self }
        ensures named { IsZone result }
    {
        (self.raw >> ZONE_SHIFT) as u8
    }

    /// The byte, from the start of the volume, below 2^52.
    pub fn byte(self) -> u64
        ensures value { result ≡ byte_of self }
        ensures range { result < 2 ^ 52 }
    {
        self.raw % (1 << VOLUME_SHIFT)
    }

    /// All 64 bits, as they stand on the disk. Its zone and its byte make this offset again.
    pub fn raw(self) -> u64
        ensures value { result ≡ self }
        ensures offset { IsOffset result }
        ensures parts { raw_of (zone_of result) (byte_of result) ≡ result }
    {
        self.raw
    }
}

// Whether a zone has a name.
fn is_zone(zone: u8) -> bool
    ensures { IsTrue result ↔ IsZone zone }
{
    matches!(zone, 1..=4 | 8..=11 | 15)
}
