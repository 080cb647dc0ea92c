// The hash of names.
ghost use Rattle.std.specs.Prelude.{◌≡◌};
ghost use Rattle.hm_types.specs.Hash.{name_hash};

// The value from which a 64-bit FNV-1a hash starts, and its factor.
const BASIS: u64 = 0xcbf2_9ce4_8422_2325;

const PRIME: u64 = 0x100_0000_01b3;

/// The hash of a name: the 64-bit FNV-1a hash of its bytes. Keys of directory entries are made from it.
pub fn name_hash(name: &[u8]) -> u64
    ensures { result ≡ name_hash name.now }
{
    let mut hash = BASIS;
    for byte in name {
        hash = (hash ^ u64::from(*byte)).wrapping_mul(PRIME);
    }
    hash
}
