// The space of a volume: what a call finds in the zones that it names, and what an extent takes.
ghost use Rattle.std.specs.Prelude.{◌≡◌, ◌≤◌, ◌^◌};
ghost use Rattle.hm_types.specs.Space.{rounded};

/// The room that a call which names zone 8 finds there, in bytes.
pub const TREE_RESERVE: u32 = 1_048_576;

/// The room that a call which names zone 9, 10 or 11 finds there, in bytes.
pub const PAYLOAD_RESERVE: u32 = 131_072;

/// The most bytes of zone 8 that the insertion of an element takes: ten nodes.
pub const INSERT_ROOM: u32 = 40_960;

/// The most elements whose payload may be one extent.
pub const MOST_REFERENCES: u32 = 64;

// Extents are multiples of so many bytes.
const EXTENT_UNIT: u64 = 16;

/// How many bytes of space a payload of `len` bytes takes: extents are multiples of 16 bytes.
pub fn rounded(len: u64) -> u64
    requires { len ≤ 2 ^ 63 }
    ensures { result ≡ rounded len }
{
    (len + (EXTENT_UNIT - 1)) / EXTENT_UNIT * EXTENT_UNIT
}
