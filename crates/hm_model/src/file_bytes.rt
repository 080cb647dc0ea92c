// The bytes of files. Bytes that were never written are zero.
ghost use Rattle.std.specs.Prelude.{◌≡◌, IfOk, drop};
ghost use Rattle.hm_model.specs.Bytes.{written};
ghost use Rattle.hm_types.specs.Bytes.{resized};

use hm_types::NoMemory;
use std::alloc::Global;

/// The bytes with this size: cut, or with zeros added.
pub(crate) fn resized(alloc: Global, bytes: &[u8], size: usize) -> Result<Vec<u8>, NoMemory>
    ensures { IfOk result (λ r. r.items ≡ resized size bytes.now) }
{
    let mut changed = bytes.to_vec(alloc)?;
    changed.resize(size, 0)?;
    Ok(changed)
}

/// The bytes with new ones from the offset on, and zeros where the offset lies past their end.
pub(crate) fn written(
    alloc: Global,
    bytes: &[u8],
    offset: usize,
    new: &[u8],
) -> Result<Vec<u8>, NoMemory>
    ensures { IfOk result (λ r. r.items ≡ written offset new.now bytes.now) }
{
    let mut changed = resized(alloc, bytes, offset)?;
    changed.extend_from_slice(new)?;
    let rest = after_both(alloc, bytes, offset, new.len())?;
    changed.extend_from_slice(&rest)?;
    Ok(changed)
}

// The bytes after so many and so many more.
fn after_both(alloc: Global, bytes: &[u8], first: usize, second: usize) -> Result<Vec<u8>, NoMemory>
    ensures { IfOk result (λ r. r.items ≡ drop second (drop first bytes.now)) }
{
    Ok(
        bytes
            .iter()
            .skip(first)
            .skip(second)
            .copied()
            .collect(alloc)?,
    )
}
